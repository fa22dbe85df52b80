//! A convex polygon of costs, and what it answers.
ghost use Rattle.std.specs.Prelude.{◌≡◌, ◌≤◌, length, take};
ghost use Rattle.network.specs.declared.cost.Cost.{Cost};
ghost use Rattle.geometry.specs.Polygons.{ray};
ghost use Rattle.polygons.specs.Points.{place, places};
ghost use Rattle.polygons.specs.Rays.{heading};
ghost use Rattle.polygons.specs.Rounds.{Turns, Apart, Leftmost, Lowest};

use crate::rounds::{following, preceding};
use network::{Cost, Ray, Way};

/// A polygon: the corners of a convex figure of costs, at most 32, anticlockwise from the one with the least price,
/// and of those the least pressure. Two corners are a line, one is a point, and none is nothing at all.
#[derive(Clone, Copy, Debug)]
pub struct Polygon {
    // Thirty-two places and how many are used, and not a list that grows: no call is to fail for want of memory. Nor an
    // `ArrayVec`, which cannot be copied.
    pub(crate) corners: [Cost; 32],
    pub(crate) count: usize,
    ghost few: { count ≤ 32 },
    ghost room: { length corners ≡ 32 },
    ghost listed: { length (places (take count corners)) ≡ count },
    ghost turns: { Turns (places (take count corners)) },
    ghost apart: { Apart (places (take count corners)) },
    ghost leftmost: { Leftmost (places (take count corners)) },
    ghost lowest: { Lowest (places (take count corners)) },
}

// By hand: the language derives no `Default` for a struct with ghost fields.
impl Default for Polygon {
    ghost use Rattle.std.specs.Prelude.{[]};
    ghost use Rattle.polygons.specs.Corners.{corner_list};

    ghost is_default = { λ p. corner_list p ≡ [] };

    /// The polygon without corners.
    fn default() -> Polygon {
        Polygon::round([Cost::default(); 32], 0)
    }
}

impl From<Cost> for Polygon {
    ghost use Rattle.std.specs.Prelude.{[], ◌∷◌};
    ghost use Rattle.polygons.specs.Corners.{corner_list};

    ghost from_gives = { λ c p. corner_list p ≡ place c ∷ [] };

    /// The polygon of one corner.
    fn from(corner: Cost) -> Polygon {
        Polygon::round([corner; 32], 1)
    }
}

/// The ray of the edge from one corner to another.
fn edge_ray(from: Cost, to: Cost) -> Ray
    ensures { heading result ≡ ray (place from) (place to) }
{
    Way::between(&from, &to).ray()
}

impl Polygon {
    ghost use Rattle.std.specs.Prelude.{◌<◌, MatchOption};
    ghost use Rattle.geometry.specs.Plane.{nth};
    ghost use Rattle.geometry.specs.Polygons.{Polygon as Rounded};
    ghost use Rattle.polygons.specs.Corners.{corner_list};
    ghost use Rattle.polygons.specs.Rays.{Cone};

    /// The polygon of the first corners of an array.
    pub(crate) fn round(corners: [Cost; 32], count: usize) -> Polygon
        requires { (count ≤ 32) × ((length corners ≡ 32) × (Rounded (places (take count corners)))) }
        ensures { corner_list result ≡ places (take count corners) }
    {
        Polygon { corners, count }
    }

    /// How many corners the polygon has.
    pub fn count(&self) -> usize
        ensures { result ≡ length (corner_list self.now) }
    {
        self.count
    }

    /// The corners in order, anticlockwise from the least one.
    pub fn corners(&self) -> &[Cost]
        ensures { places result.now ≡ corner_list self.now }
    {
        &self.corners[..self.count]
    }

    /// Corner number k, counted from 0; none where there are not so many.
    pub fn corner(&self, k: usize) -> Option<Cost>
        ensures { MatchOption result (length (corner_list self.now) ≤ k) (λ c. (k < length (corner_list self.now)) × (place c ≡ nth (corner_list self.now) k)) }
    {
        self.corners().get(k).copied()
    }

    /// The weights at which corner number k is as cheap as any: those between two rays, first that of the edge that
    /// arrives at the corner, then that of the edge that leaves it; of a single corner both are (0, 0).
    /// None where there are not so many corners.
    pub fn cone(&self, k: usize) -> Option<(Ray, Ray)>
        ensures { MatchOption result (length (corner_list self.now) ≤ k) (λ e. Cone (corner_list self.now) k e) }
    {
        let at = self.corner(k)?;
        let from = self.corners[preceding(self.count, k)];
        let to = self.corners[following(self.count, k)];
        Some((edge_ray(from, at), edge_ray(at, to)))
    }
}
