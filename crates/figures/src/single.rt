//! The least cost at one node.
ghost use Rattle.figures.specs.Leasts.{LeastAnswer};

use crate::costs::least_costs;
use kinds::Amount;
use network::{Fault, Weight};
use runs::Sheet;
use sources::Source;

/// The least weighted cost over all routes from the start to the target; none where no route leads there. Refuses
/// with 8 where the weight is out of range and with 5 where the start or the target is no node.
// Source, start and target stand side by side: a struct of them would be made for this one call.
pub fn least_cost<S: Source>(
    source: &S,
    start: usize,
    target: usize,
    weight: Weight,
) -> Result<Option<Amount>, Fault>
    ensures { LeastAnswer (S.Source.network source.now) start target weight result }
{
    // As many cells as a network can have nodes, and not a list that grows: no call is to fail for want of memory.
    let mut cells = [None; 128];
    let mut sheet = Sheet::over(&mut cells);
    least_costs(source, start, weight, &mut sheet)?;
    if target >= source.nodes() {
        return Err(Fault::BadNode(0));
    }
    Ok(sheet.read(target).copied().flatten())
}
