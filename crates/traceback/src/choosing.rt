//! The lowest choice of a segment that serves.
ghost use Rattle.network.specs.Choices.{choices};
ghost use Rattle.network.specs.Costs.{point};
ghost use Rattle.polygons.specs.Corners.{corner_list};
ghost use Rattle.traceback.specs.Searching.{ChosenFrom};

use crate::matching::corner_before;
use network::{Cost, Segment};
use polygons::Polygon;

/// A choice of a segment by its number, and the corner of the tail from which it leads to what is left.
#[derive(Clone, Copy, Debug, PartialEq, Eq)]
pub(crate) struct Chosen {
    pub choice: usize,
    pub corner: Cost,
}

/// The lowest choice of the segment that leads from a corner of the list to what is left; none where none does.
pub(crate) fn lowest_choice(list: &Polygon, segment: &Segment, left: &Cost) -> Option<Chosen>
    ensures { ChosenFrom (corner_list list.now) (choices segment.now.listed) (point left.now) result }
{
    segment.choices().enumerate().find_map(|(choice, made)| {
        let corner = corner_before(list, &made, left)?;
        Some(Chosen { choice, corner })
    })
}
