//! Corner lists: what a run of the polygon kind comes to, said of the routes.
#![tactic(auto)]

ghost use Rattle.std.specs.Prelude.{◌≡◌, ℕ, List};
ghost use Rattle.network.specs.Networks.{Network};
ghost use Rattle.geometry.specs.Plane.{Pt};
ghost use Rattle.runs.specs.Sheets.{KeepsCells};
ghost use Rattle.corners.specs.CornerLists.{CornersFound, CornersOf};

use network::Fault;
use polygons::{Hulls, Polygon};
use runs::{Sheet, run};
use sources::Source;

/// Writes each node's corner list: all costs of routes from the start that are alone cheapest at some weight, each once,
/// anticlockwise from the least price. Refuses with 5 where the start is no node and with 10 where the sheet is shorter
/// than the nodes, and leaves the sheet as it was. Ends with 24 at the first result that does not fit: the nodes before
/// it hold their lists, and the rest of the sheet is as it was, as are always the cells past the nodes.
// Source, start and sheet as a run takes them: a struct of the three would be made for this one call.
pub fn corner_lists<S: Source>(
    source: &S,
    start: usize,
    sheet: &mut Sheet<'_, Polygon>,
) -> Result<(), Fault>
    ensures keeps_its_cells { KeepsCells sheet.old sheet.new }
    ensures holds_each_corner_list { CornersFound (S.Source.network source.now) start sheet.old.cells.now sheet.new.cells.now result }
{
    run(&Hulls, source, start, sheet)
}

/// A node has one corner list: two lists that hold just its corners in their order are the same. The contract is the
/// theorem; the answer, 0, says nothing.
pub fn corner_lists_are_unique() -> u8
    ensures { (N : Network) (s v : ℕ) (one other : List Pt) → CornersOf N s v one → CornersOf N s v other → one ≡ other }
{
    0
}
