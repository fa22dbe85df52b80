//! Asking for the least cost at a weight, and for the number of routes.
ghost use Rattle.std.specs.Prelude.{◌≡◌, Ok};
ghost use Rattle.plan.specs.Answers.{CheapestIs};
ghost use Rattle.polygons.specs.declared.cheapest.Cheapest.{Cheapest as Best};
ghost use Rattle.rehearsals.specs.AtSamples.{AtSample};

use corner_report::settled;
use figures::count_routes;
use kinds::Tally;
use network::{Fault, Weight};
use polygons::Cheapest;
use runs::Sheet;
use sources::Source;

/// The least cost at a weight over all routes to a node, and the lowest corner that has it, as a plan over the source from
/// node 0 answers them. Refuses as the plan does.
pub(crate) fn cheapest_at<S: Source + Drop>(
    source: S,
    v: usize,
    weight: Weight,
) -> Result<Cheapest, Fault>
    ensures { AtSample (S.Source.network source) v (λ x. (b : Best) → CheapestIs x.network 0 x.node x.corners weight b → result ≡ Ok b) }
{
    let plan = settled(source, 0, v)?;
    plan.cheapest(v, weight)
}

/// How many routes lead from node 0 to a node, as a run of the count kind answers it. Refuses with 5 where there is no such
/// node.
// Figures answers one node of the least cost alone, which its report asks for: the number of routes at one node is read here.
pub(crate) fn number_of_routes<S: Source>(source: &S, v: usize) -> Result<u32, Fault>
    ensures { AtSample (S.Source.network source.now) v (λ x. result ≡ Ok x.number) }
{
    // As many cells as a network can have nodes: no call is to fail for want of memory.
    let mut cells = [Tally::default(); 128];
    let mut sheet = Sheet::over(&mut cells[..source.nodes()]);
    count_routes(source, 0, &mut sheet)?;
    let tally = sheet.read(v).ok_or(Fault::BadNode(0))?;
    Ok(tally.count)
}
