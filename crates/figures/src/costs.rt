//! The least costs at a weight.
ghost use Rattle.figures.specs.Leasts.{LeastsFound};
ghost use Rattle.runs.specs.Sheets.{KeepsCells};

use kinds::{Amount, Least};
use network::{Fault, Weight};
use runs::{Sheet, run};
use sources::Source;

/// Writes each node's least weighted cost over all routes from the start, none where no route leads there. Refuses
/// with 8 where the weight is out of range, with 5 where the start is no node and with 10 where the sheet is shorter
/// than the nodes, and leaves the sheet as it was. Every result fits, so it never ends with 24.
// Source, start and sheet as a run takes them: a struct of the three would be made for this one call.
pub fn least_costs<S: Source>(
    source: &S,
    start: usize,
    weight: Weight,
    sheet: &mut Sheet<'_, Option<Amount>>,
) -> Result<(), Fault>
    ensures keeps_its_cells { KeepsCells sheet.old sheet.new }
    ensures holds_each_least_cost { LeastsFound (S.Source.network source.now) start weight sheet.old.cells.now sheet.new.cells.now result }
{
    let kind = Least::new(weight)?;
    run(&kind, source, start, sheet)
}
