//! A plan made over a source and given a list of calls.
ghost use Rattle.std.specs.Prelude.{◌≡◌};
ghost use Rattle.plan.specs.Calls.{CallsAnswer};
ghost use Rattle.plan.specs.Changes.{CarriedFresh};
ghost use Rattle.plan.specs.Progress.{fresh};
ghost use Rattle.plan.specs.Standing.{Stands};

use crate::call::{Call, Reply};
use crate::plan::Plan;
use network::{Fault, Step};
use sources::Source;

/// A plan, and what came of the list of calls that it was given.
#[derive(Drop)]
pub struct Carried<S: Source> {
    pub plan: Plan<S>,
    pub outcome: Result<(), Fault>,
}

/// Makes a plan over a source and gives it a list of calls, in any order and with any arguments. Each answer is right
/// after the calls before it, and the plan stands. The answers go to the front of their place, and the rest of that stays
/// as it was. Refuses with 10 where there are more calls than room for answers; then the plan is fresh, and both places
/// are as they were.
pub fn carry_out<S: Source>(
    source: S,
    calls: &[Call],
    answers: &mut [Result<Reply, Fault>],
    steps: &mut [Step],
) -> Carried<S>
    ensures holds_its_source { result.plan.source ≡ source }
    ensures moves_on { CarriedFresh calls.now answers.new result.outcome result.plan.state }
    ensures answers { CallsAnswer (S.Source.network source) fresh calls.now steps.old answers.old result.outcome answers.new steps.new }
    ensures stands { Stands (S.Source.network source) result.plan.state }
{
    let mut plan = Plan::new(source);
    let outcome = plan.calls(calls, answers, steps);
    Carried { plan, outcome }
}
