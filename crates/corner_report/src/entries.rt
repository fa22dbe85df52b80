//! The entries of all corners of a node.
ghost use Rattle.std.specs.Prelude.{◌≡◌, ◌≤◌, length, MatchResult};
ghost use Rattle.plan.specs.Answers.{Refused, Settled};
ghost use Rattle.plan.specs.Standing.{progress};
ghost use Rattle.corner_report.specs.Planned.{Entered};
ghost use Rattle.corner_report.specs.Reports.{Tells};

use network::{Fault, Step};
use plan::Plan;
use printout::{CornerLine, Entry, RouteLine};
use sources::Source;

/// The entry of corner `k` of node `v`. Refuses as the plan does.
fn entry<S: Source>(plan: &Plan<S>, v: usize, k: usize) -> Result<Entry, Fault>
    ensures { MatchResult result (λ e. Settled (S.Source.network plan.now.source) (progress plan.now.state) v (λ s list. Tells (S.Source.network plan.now.source) s v list k e)) (λ f. Refused (S.Source.network plan.now.source) (progress plan.now.state) v (Unit {0}) (λ _ list. length list ≤ k) f) }
{
    let cost = plan.corner(v, k)?;
    let (first, second) = plan.cone(v, k)?;
    let mut steps = [Step::default(); 128];
    let count = plan.route(v, k, &mut steps)?;
    Ok(Entry {
        corner: CornerLine {
            number: k,
            cost,
            first,
            second,
        },
        route: RouteLine {
            number: k,
            count,
            steps,
        },
    })
}

/// How many corners node `v` has, and an entry for each of them, in their order, at the front of 32: its cost, its cone and
/// the route to it. Refuses with 5 where there is no such node, with 20 where there is no start and with 22 where the node
/// is not settled.
pub fn entries_of<S: Source>(plan: &Plan<S>, v: usize) -> Result<(usize, [Entry; 32]), Fault>
    ensures { MatchResult result (λ x. Settled (S.Source.network plan.now.source) (progress plan.now.state) v (λ s list. (length x.1 ≡ 32) × (x.0 ≡ length list) × Entered (S.Source.network plan.now.source) s v list x.1 x.0)) (λ f. Refused (S.Source.network plan.now.source) (progress plan.now.state) v (Unit {0}) (λ _ _. ⊥) f) }
{
    let count = plan.count(v)?;
    // As many places as a node can have corners: no call is to fail for want of memory.
    let mut entries = [Entry::default(); 32];
    // No list has more than 32 corners, but a plan tells that only where it is made.
    for (k, place) in entries[..count.min(32)].iter_mut().enumerate() {
        *place = entry(plan, v, k)?;
    }
    Ok((count, entries))
}
