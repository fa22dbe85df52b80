//! The kind of polygons.
ghost use Rattle.polygons.specs.Fits.{hulls, costs};
ghost use Rattle.polygons.specs.HullLaws.{hulls_semiring, hulls_fitting};

use crate::hulling::hull;
use crate::minkowski::sum;
use crate::polygon::Polygon;
use kinds::Kind;
use network::{Choice, Cost};

/// Hulls: the value of some routes is the polygon round their costs, whose corners are all costs that are
/// alone cheapest at some weight.
#[derive(Clone, Copy, Debug, Default, PartialEq, Eq)]
pub struct Hulls;

impl Kind for Hulls {
    type Value = Polygon;

    ghost ring = { λ _. hulls };

    ghost means = { λ _ v. costs v };

    ghost lawful = { λ k. hulls_semiring };

    ghost fitting = { λ k. hulls_fitting };

    /// No corner: without a route there is no cost.
    fn zero(&self) -> Polygon {
        Polygon::default()
    }

    /// The empty route costs nothing.
    fn one(&self) -> Polygon {
        Polygon::from(Cost::default())
    }

    /// The cost of the choice.
    fn letter(&self, choice: Choice) -> Polygon {
        Polygon::from(choice.cost())
    }

    /// The hull of both; it does not fit where it has more than 32 corners.
    fn join(&self, left: &Polygon, right: &Polygon) -> Option<Polygon> {
        hull(left, right)
    }

    /// The sum of both figures; it does not fit where it has more than 32 corners or one out of range.
    fn chain(&self, left: &Polygon, right: &Polygon) -> Option<Polygon> {
        sum(left, right)
    }
}
