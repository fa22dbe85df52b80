//! The lines of all weights.
ghost use Rattle.std.specs.Prelude.{◌≡◌, ◌≤◌, length, MatchResult};
ghost use Rattle.std.specs.List.{AllByRecursion};
ghost use Rattle.network.specs.Costs.{LawfulWeight};
ghost use Rattle.sources.specs.Tables.{table_network};
ghost use Rattle.corner_report.specs.Planned.{Lined, Planned, target_list};

use network::{Fault, Weight};
use plan::Plan;
use printout::WeightLine;
use sources::Table;
use takeoff::Header;

/// One line for each weight, in their order, at the front of sixteen: the least cost of the target there, with its corner;
/// none where no route leads to it.
pub(crate) fn lines_of(
    plan: &Plan<Table>,
    header: &Header,
    weights: &[Weight],
) -> Result<[WeightLine; 16], Fault>
    requires planned { Planned (table_network plan.now.source) header.now plan.now }
    requires weighed { (length weights.now ≤ 16) × (AllByRecursion LawfulWeight weights.now) }
    ensures { MatchResult result (λ lines. Lined (table_network plan.now.source) header.now.start header.now.target (target_list header.now plan.now) weights.now lines (length weights.now)) (λ _. ⊥) }
{
    let mut lines = [WeightLine::default(); 16];
    // A line is written by its place: with `zip` the proof of `lines_of` did not close, since nothing is known after the
    // loop of what is written through it.
    for (i, weight) in weights.iter().enumerate() {
        // Three arms, since one fault of the plan's is none here: that no route leads to the target.
        let best = match plan.cheapest(header.target, *weight) {
            Ok(best) => Some(best),
            Err(Fault::NoCorner) => None,
            Err(fault) => return Err(fault),
        };
        lines[i] = WeightLine {
            weight: *weight,
            best,
        };
    }
    Ok(lines)
}
