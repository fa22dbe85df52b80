//! The hull of two polygons.
ghost use Rattle.std.specs.Prelude.{◌≡◌, ◌+◌, ◌<◌, ◌≤◌, ◌⊎◌, ◌++◌, length, take};
ghost use Rattle.kinds.specs.Answers.{Answers};
ghost use Rattle.geometry.specs.Plane.{Lex};
ghost use Rattle.geometry.specs.Support.{join};
ghost use Rattle.polygons.specs.Points.{place};
ghost use Rattle.polygons.specs.Fits.{hulls, costs};
ghost use Rattle.polygons.specs.Hulls.{Hull};

use crate::marching::wrap;
use crate::polygon::Polygon;
use network::Cost;

/// Puts the corners of a polygon into the cells from a place on.
fn append(points: &mut [Cost; 64], from: usize, polygon: &Polygon)
    requires { (length points.old ≡ 64) × (from ≤ 32) }
    ensures room { length points.new ≡ 64 }
    ensures appended { take (from + polygon.now.count) points.new ≡ take from points.old ++ take polygon.now.count polygon.now.corners }
{
    points[from..from + polygon.count].copy_from_slice(&polygon.corners[..polygon.count]);
}

/// The lesser of two costs, by price and then by pressure.
fn lesser(p: Cost, q: Cost) -> Cost
    ensures one_of_them { (result ≡ p) ⊎ (result ≡ q) }
    ensures below_first { (place p ≡ place result) ⊎ Lex (place result) (place p) }
    ensures below_second { (place q ≡ place result) ⊎ Lex (place result) (place q) }
{
    p.min(q)
}

/// The hull of two polygons, each with a corner, by gift wrapping over both lists of corners.
fn march(left: &Polygon, right: &Polygon) -> Option<Polygon>
    requires { (0 < left.now.count) × (0 < right.now.count) }
    ensures { Answers hulls costs (join (costs left.now) (costs right.now)) result }
{
    let p = left.corners[0];
    let q = right.corners[0];
    // Room for two full polygons, and not a list that grows: no call is to fail for want of memory.
    let mut points = [p; 64];
    append(&mut points, 0, left);
    append(&mut points, left.count, right);
    wrap(&points[..left.count + right.count], lesser(p, q))
}

/// The hull of the corners of both: at every weight its least cost is the lesser of theirs. Its corners are theirs,
/// and all of theirs lie in it.
/// None where it has more than 32 corners.
pub fn hull(left: &Polygon, right: &Polygon) -> Option<Polygon>
    ensures { Hull left.now right.now result }
{
    if left.count == 0 {
        return Some(*right);
    }
    if right.count == 0 {
        return Some(*left);
    }
    march(left, right)
}
