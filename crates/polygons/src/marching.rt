//! Gift wrapping: a walk round points that leaves all of them to its left.
ghost use Rattle.std.specs.Prelude.{◌≡◌, true, false, length};
ghost use Rattle.kinds.specs.Answers.{Answers};
ghost use Rattle.geometry.specs.Plane.{In};
ghost use Rattle.geometry.specs.Exposed.{Exposed};
ghost use Rattle.geometry.specs.Support.{support};
ghost use Rattle.geometry.specs.Steps.{Takes, Keeps, Found, LeastOf};
ghost use Rattle.polygons.specs.Points.{place, places};
ghost use Rattle.polygons.specs.Fits.{hulls, costs};

use crate::polygon::Polygon;
use crate::turning::{farther, in_line, right_of};
use network::Cost;

/// Whether s takes the place of b as the next corner after p: there was none, or s is to the right of the way to b,
/// or farther on it.
fn takes(p: Cost, b: Cost, s: Cost) -> bool
    ensures yes { result ≡ true → Takes (place p) (place b) (place s) }
    ensures no { result ≡ false → Keeps (place p) (place b) (place s) }
{
    s != p && (b == p || right_of(p, b, s) || (in_line(p, b, s) && farther(p, b, s)))
}

/// The corner after p, or p where there is no other point.
fn next_corner(points: &[Cost], p: Cost) -> Cost
    requires { (In (places points.now) (place p)) × (Exposed (places points.now) (place p)) }
    ensures { Found (places points.now) (place p) (place result) (length points.now) }
{
    let mut best = p;
    for s in points {
        if takes(p, best, *s) {
            best = *s;
        }
    }
    best
}

/// The polygon round the points, walked from the least one; none where it has more than 32 corners.
pub(crate) fn wrap(points: &[Cost], first: Cost) -> Option<Polygon>
    requires { LeastOf (places points.now) (place first) (length points.now) }
    ensures { Answers hulls costs (support (places points.now)) result }
{
    let mut corners = [first; 32];
    let mut at = first;
    for (n, corner) in corners.iter_mut().enumerate() {
        *corner = at;
        let next = next_corner(points, at);
        if next == first {
            return Some(Polygon::round(corners, n + 1));
        }
        at = next;
    }
    None
}
