//! The corner from which a choice leads to what is left.
ghost use Rattle.std.specs.Prelude.{◌≡◌, Decides};
ghost use Rattle.network.specs.Costs.{point, plus, size_cost};
ghost use Rattle.polygons.specs.Corners.{corner_list};
ghost use Rattle.traceback.specs.Searching.{Matched};

use network::{Choice, Cost};
use polygons::Polygon;

/// Whether the corner and the cost of the choice add up to what is left. A sum out of range never does.
// Part by part, and not by `plus`: what equals a cost is in range, and to test that of each sum took a third of a run with many
// corners.
fn adds_up(corner: &Cost, choice: &Choice, left: &Cost) -> bool
    ensures { Decides result (plus (point corner.now) (size_cost choice.now.size) ≡ point left.now) }
{
    let cost = choice.cost();
    corner.price + cost.price == left.price && corner.pressure + cost.pressure == left.pressure
}

/// The corner from which the choice leads to what is left; none where there is no such corner.
pub(crate) fn corner_before(list: &Polygon, choice: &Choice, left: &Cost) -> Option<Cost>
    ensures { Matched (corner_list list.now) (size_cost choice.now.size) (point left.now) result }
{
    list.corners()
        .iter()
        .copied()
        .find(|corner| adds_up(corner, choice, left))
}
