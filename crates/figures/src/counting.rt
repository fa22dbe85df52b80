//! The number of routes.
ghost use Rattle.figures.specs.Counts.{CountsFound};
ghost use Rattle.runs.specs.Sheets.{KeepsCells};

use kinds::{Count, Tally};
use network::Fault;
use runs::{Sheet, run};
use sources::Source;

/// Writes how many routes lead from the start to each node, cut at 1,000,000. Refuses with 5 where the start is no
/// node and with 10 where the sheet is shorter than the nodes, and leaves the sheet as it was. It never ends with 24.
// Source, start and sheet as a run takes them: a struct of the three would be made for this one call.
pub fn count_routes<S: Source>(
    source: &S,
    start: usize,
    sheet: &mut Sheet<'_, Tally>,
) -> Result<(), Fault>
    ensures keeps_its_cells { KeepsCells sheet.old sheet.new }
    ensures holds_the_number_of_routes { CountsFound (S.Source.network source.now) start sheet.old.cells.now sheet.new.cells.now result }
{
    run(&Count, source, start, sheet)
}
