//! Any call, and any list of calls.
ghost use Rattle.std.specs.Prelude.{◌≡◌};
ghost use Rattle.plan.specs.Calls.{Right, CallsAnswer};
ghost use Rattle.plan.specs.Changes.{Carried};
ghost use Rattle.plan.specs.Progress.{after_call};
ghost use Rattle.plan.specs.Standing.{progress, Stands};

use crate::call::{Call, Reply};
use crate::plan::Plan;
use network::{Fault, Step};
use sources::Source;

impl<S: Source> Plan<S> {
    /// Any of the calls. It answers and refuses as that call does; a route is written to the part of the steps that it
    /// names, as far as the steps reach.
    pub fn call(&mut self, call: Call, steps: &mut [Step]) -> Result<Reply, Fault>
        ensures keeps_its_source { self.new.source ≡ self.old.source }
        ensures moves_on { progress self.new.state ≡ after_call (progress self.old.state) call result }
        ensures answers { Right (S.Source.network self.old.source) (progress self.old.state) call steps.old result steps.new }
        ensures stands { Stands (S.Source.network self.old.source) self.old.state → Stands (S.Source.network self.old.source) self.new.state }
    {
        // A match, and not a table of functions: a call is a plain value, as a list of calls needs.
        match call {
            Call::Start(s) => self.start(s).map(|()| Reply::Done),
            Call::Settle => self.settle().map(|()| Reply::Done),
            Call::Count(v) => self.count(v).map(Reply::Count),
            Call::Corner(v, k) => self.corner(v, k).map(Reply::Corner),
            Call::Cone(v, k) => self
                .cone(v, k)
                .map(|(first, second)| Reply::Cone(first, second)),
            Call::Cheapest(v, weight) => self.cheapest(v, weight).map(Reply::Cheapest),
            Call::Route(v, k, from, long) => self
                .route_part(v, k, from, long, steps)
                .map(Reply::Route),
        }
    }

    /// A list of calls, one after another. Their answers go to the front of their place, and the rest of that stays as it
    /// was. Refuses with 10 where there are more calls than room for answers; then nothing has changed.
    pub fn calls(
        &mut self,
        calls: &[Call],
        answers: &mut [Result<Reply, Fault>],
        steps: &mut [Step],
    ) -> Result<(), Fault>
        ensures keeps_its_source { self.new.source ≡ self.old.source }
        ensures moves_on { Carried self.old.state calls.now steps.old answers.old result answers.new steps.new self.new.state }
        ensures answers { CallsAnswer (S.Source.network self.old.source) (progress self.old.state) calls.now steps.old answers.old result answers.new steps.new }
        ensures stands { Stands (S.Source.network self.old.source) self.old.state → Stands (S.Source.network self.old.source) self.new.state }
    {
        if answers.len() < calls.len() {
            return Err(Fault::NoRoom(0));
        }
        // By number, and not two slices at once: tried with `zip`, and the proof did not close, which sees the iterator there and
        // not what the answers hold.
        for (i, call) in calls.iter().enumerate() {
            answers[i] = self.call(*call, steps);
        }
        Ok(())
    }
}
