//! The lowest step into a node that serves.
ghost use Rattle.network.specs.Costs.{point};
ghost use Rattle.traceback.specs.Searching.{SteppedBack};

use crate::choosing::lowest_choice;
use network::{Cost, Step};
use polygons::Polygon;
use sources::Source;

/// A step taken back, the node that it leads from, and what is left there.
#[derive(Clone, Copy, Debug, PartialEq, Eq)]
pub(crate) struct Stepped {
    pub step: Step,
    pub tail: usize,
    pub corner: Cost,
}

/// The lowest step, by segment and then by choice, that leads into node `v` from a corner of its tail to what is left
/// at `v`; none where none does.
pub(crate) fn step_back<S: Source>(
    source: &S,
    lists: &[Polygon; 128],
    v: usize,
    left: &Cost,
) -> Option<Stepped>
    ensures { SteppedBack (S.Source.network source.now) lists.now v (point left.now) result }
{
    // A source is asked number by number; no array is gone over.
    for e in 0..source.segments() {
        if let Some(segment) = source.entering(e, v) {
            let tail = segment.listed.tail;
            if let Some(found) = lowest_choice(&lists[tail], &segment, left) {
                return Some(Stepped {
                    step: Step {
                        segment: e,
                        choice: found.choice,
                    },
                    tail,
                    corner: found.corner,
                });
            }
        }
    }
    None
}
