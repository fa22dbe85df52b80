//! The route to a corner, written in order.
ghost use Rattle.std.specs.Prelude.{◌≡◌, ◌≤◌, ◌++◌, reverse, length, take, drop};
ghost use Rattle.network.specs.Costs.{point};
ghost use Rattle.traceback.specs.Tracing.{Traced};

use crate::retracing::{Trail, retrace};
use network::{Cost, Fault, Step};
use polygons::Polygon;
use sources::Source;

/// Writes the steps of the trail in order from the start to the front of the place.
fn lay(trail: &Trail, place: &mut [Step])
    requires { (trail.now.count ≤ 128) × (trail.now.count ≤ length place.old) }
    ensures { place.new ≡ reverse (take trail.now.count trail.now.steps) ++ drop trail.now.count place.old }
{
    let front = &mut place[..trail.count];
    front.copy_from_slice(&trail.steps[..trail.count]);
    front.reverse();
}

/// Writes the route that working back through the corner lists finds from `corner` at node `v` to the start, in order from
/// the start, and answers how many steps it has. At each node it takes the lowest step, by segment and then by choice,
/// that leads there from a corner of the tail to what is left. Refuses with 5 where `v` is no node, with 23 where no step
/// does or something is left at the start, as never happens where the lists are right and `corner` is one of node `v`, and
/// last with 10 where the place is shorter than the route; the place is then as it was.
pub fn trace<S: Source>(
    source: &S,
    lists: &[Polygon; 128],
    start: usize,
    v: usize,
    corner: Cost,
    place: &mut [Step],
) -> Result<usize, Fault>
    ensures { Traced (S.Source.network source.now) start lists.now v (point corner) place.old result place.new }
{
    if v >= source.nodes() {
        return Err(Fault::BadNode(0));
    }
    let trail = retrace(source, lists, start, v, corner).ok_or(Fault::NoCorner)?;
    if place.len() < trail.count {
        return Err(Fault::NoRoom(0));
    }
    lay(&trail, place);
    Ok(trail.count)
}
