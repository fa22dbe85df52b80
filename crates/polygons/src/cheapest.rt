//! The cheapest corner at a weight.
ghost use Rattle.std.specs.Prelude.{◌≡◌, ◌<ℤ◌, ◌≤ℤ◌, true, false, length, MatchOption, Some};
ghost use Rattle.polygons.specs.Corners.{corner_list};
ghost use Rattle.polygons.specs.Cheapest.{CheapestAt};
ghost use Rattle.polygons.specs.Texts.{cheapest_text};

use crate::polygon::Polygon;
use network::{Weight, weighted_cost};
use std::fmt;
use std::fmt::{Display, Formatter};

/// The least weighted cost, and the number of the first corner that has it. Of two, the one that costs less comes
/// first, and of two that cost the same the one with the lower corner.
#[derive(Clone, Copy, Debug, PartialEq, Eq, PartialOrd, Ord)]
pub struct Cheapest {
    pub least: i64,
    pub corner: usize,
}

/// Whether an amount is below the least so far.
fn below(amount: i64, best: &Cheapest) -> bool
    ensures yes { result ≡ true → amount <ℤ best.now.least }
    ensures no { result ≡ false → best.now.least ≤ℤ amount }
{
    amount < best.least
}

impl Polygon {
    /// The least cost at a weight over the corners, and the lowest number of a corner that has it.
    /// None where there is no corner.
    pub fn cheapest(&self, weight: &Weight) -> Option<Cheapest>
        ensures { MatchOption result (length (corner_list self.now) ≡ 0) (λ b. CheapestAt self.now weight.now b.least b.corner) }
    {
        let mut best: Option<Cheapest> = None;
        for (corner, cost) in self.corners().iter().enumerate() {
            let least = weighted_cost(weight, cost);
            match best {
                Some(found) if !below(least, &found) => {}
                _ => best = Some(Cheapest { least, corner }),
            }
        }
        best
    }
}

impl Display for Cheapest {
    ghost output = { λ b. Some (cheapest_text b) };

    /// The least cost and its corner, each after its name.
    fn fmt<W: fmt::Write>(&self, f: &mut Formatter<W>) -> fmt::Result {
        let least = self.least;
        let corner = self.corner;
        write!(f, "least {least} corner {corner}")
    }
}
