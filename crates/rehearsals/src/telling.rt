//! Telling the corners of a node, their cones and the routes to them.
ghost use Rattle.std.specs.Prelude.{MatchResult};
ghost use Rattle.rehearsals.specs.AtSamples.{AtSample};
ghost use Rattle.rehearsals.specs.Telling.{Says};

use crate::answer::Told;
use corner_report::{entries_of, settled};
use network::Fault;
use sources::Source;

/// The corners of a node, their cones and the routes to them, as a plan over the source from node 0 answers them. Refuses
/// as the plan does.
pub(crate) fn told<S: Source + Drop>(source: S, v: usize) -> Result<Told, Fault>
    ensures { AtSample (S.Source.network source) v (λ x. MatchResult result (λ t. Says x t) (λ _. ⊥)) }
{
    let plan = settled(source, 0, v)?;
    let (count, entries) = entries_of(&plan, v)?;
    Ok(Told { count, entries })
}
