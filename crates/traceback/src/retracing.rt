//! The steps from a node back to the start.
ghost use Rattle.std.specs.Prelude.{◌<◌};
ghost use Rattle.network.specs.Costs.{point};
ghost use Rattle.traceback.specs.Searching.{Retraced};

use crate::stepping::step_back;
use network::{Cost, Step};
use polygons::Polygon;
use sources::Source;

/// The first `count` of `steps`, in the order in which they were taken back: the last step of the route is first.
// As many places as a route can have steps, and how many are used: no call is to fail for want of memory. The kit's
// `ArrayVec` is such a list too, but a push there asks for the same room, and no crate here stands on more than `std`.
#[derive(Clone, Copy, Debug, PartialEq, Eq)]
pub(crate) struct Trail {
    pub count: usize,
    pub steps: [Step; 128],
}

/// The steps taken back from node `v`, where `corner` is left, to the start, where nothing is left; none where no step
/// serves somewhere on the way, or something is left at the start.
// Source, lists and node stand side by side here, in `trace` and in `step_back`: a struct would borrow the first two for one
// call, and the node is another one at each step.
pub(crate) fn retrace<S: Source>(
    source: &S,
    lists: &[Polygon; 128],
    start: usize,
    v: usize,
    corner: Cost,
) -> Option<Trail>
    requires { v < 128 }
    ensures { Retraced (S.Source.network source.now) start lists.now v (point corner) result }
{
    let mut steps = [Step::default(); 128];
    let mut count = 0;
    let mut node = v;
    // Each step names the node before it, so how many there are is known only at the start.
    let mut left = corner;
    while node != start {
        let back = step_back(source, lists, node, &left)?;
        steps[count] = back.step;
        count += 1;
        node = back.tail;
        left = back.corner;
    }
    (left == Cost::default()).then_some(Trail { count, steps })
}
