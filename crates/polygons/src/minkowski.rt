//! The Minkowski sum of two polygons.
ghost use Rattle.std.specs.Prelude.{◌≡◌, ◌<◌, pos, ◌<ℤ◌};
ghost use Rattle.kinds.specs.Answers.{Answers};
ghost use Rattle.geometry.specs.Plane.{nth};
ghost use Rattle.geometry.specs.Exposed.{Exposed};
ghost use Rattle.geometry.specs.Sums.{add, sums};
ghost use Rattle.geometry.specs.Steps.{Advanced};
ghost use Rattle.geometry.specs.Support.{chain};
ghost use Rattle.polygons.specs.Corners.{corner_list};
ghost use Rattle.polygons.specs.Fits.{hulls, costs};
ghost use Rattle.polygons.specs.Sums.{Sum};

use crate::polygon::Polygon;
use crate::rounds::following;
use crate::turning::crossing;
use network::Cost;
use std::cmp::Ordering;

/// Where a walk goes from corners i and j, whose next are k and l: along the first list where the turn is to the left,
/// along the second where it is to the right, and along both where the edges are parallel.
fn onward(turn: i64, i: usize, j: usize, k: usize, l: usize) -> (usize, usize)
    ensures first { pos 0 <ℤ turn → result ≡ (k, j) }
    ensures second { turn <ℤ pos 0 → result ≡ (i, l) }
    ensures both { turn ≡ pos 0 → result ≡ (k, l) }
{
    match turn.cmp(&0) {
        Ordering::Greater => (k, j),
        Ordering::Less => (i, l),
        Ordering::Equal => (k, l),
    }
}

/// The places after corners i and j in the walk round the sum: along the edge that comes first by direction,
/// or along both where they are parallel.
fn advance(left: &Polygon, right: &Polygon, i: usize, j: usize) -> (usize, usize)
    requires { (i < left.now.count) × ((j < right.now.count) × (Exposed (sums (corner_list left.now) (corner_list right.now)) (add (nth (corner_list left.now) i) (nth (corner_list right.now) j)))) }
    ensures { Advanced (corner_list left.now) (corner_list right.now) i j result.0 result.1 }
{
    // Two polygons with a place in each, and not a struct of them: it would be made and taken apart at each corner.
    let k = following(left.count, i);
    let l = following(right.count, j);
    let turn = crossing(
        left.corners[i],
        left.corners[k],
        right.corners[j],
        right.corners[l],
    );
    onward(turn, i, j, k, l)
}

/// The sum of two polygons, each with a corner, by going round both lists of corners at once.
fn walk(left: &Polygon, right: &Polygon) -> Option<Polygon>
    requires { (0 < left.now.count) × (0 < right.now.count) }
    ensures { Answers hulls costs (chain (costs left.now) (costs right.now)) result }
{
    let mut corners = [Cost::default(); 32];
    // Two places kept as numbers, and not two iterators: which of the lists goes on depends on the turn at hand.
    let mut i = 0;
    let mut j = 0;
    for (n, corner) in corners.iter_mut().enumerate() {
        *corner = left.corners[i].plus(&right.corners[j])?;
        let (k, l) = advance(left, right, i, j);
        if k == 0 && l == 0 {
            return Some(Polygon::round(corners, n + 1));
        }
        i = k;
        j = l;
    }
    None
}

/// The sum of both figures: at every weight its least cost is the sum of theirs. Each of its corners is the sum of
/// exactly one pair of theirs, and all such sums lie in it.
/// None where it has more than 32 corners, or one out of the range of a cost.
pub fn sum(left: &Polygon, right: &Polygon) -> Option<Polygon>
    ensures { Sum left.now right.now result }
{
    if left.count == 0 || right.count == 0 {
        return Some(Polygon::default());
    }
    walk(left, right)
}
