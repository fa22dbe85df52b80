//! A plan that has settled a node.
ghost use Rattle.std.specs.Prelude.{◌≡◌, ◌+◌, MatchResult};
ghost use Rattle.corner_report.specs.Planned.{SettledTo, Unsettled};

use network::Fault;
use plan::Plan;
use sources::Source;

/// The plan over a source, from `start`, with all nodes settled up to `target`. Refuses with 5 where one of the two is no
/// node and with 24 where a result up to the target does not fit.
pub fn settled<S: Source + Drop>(source: S, start: usize, target: usize) -> Result<Plan<S>, Fault>
    ensures { MatchResult result (λ p. (p.source ≡ source) × SettledTo (S.Source.network p.source) start p.state (target + 1)) (λ f. Unsettled (S.Source.network source) start target f) }
{
    if target >= source.nodes() {
        return Err(Fault::BadNode(0));
    }
    let mut plan = Plan::new(source);
    plan.start(start)?;
    for _v in 0..=target {
        plan.settle()?;
    }
    Ok(plan)
}
