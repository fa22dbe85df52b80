//! Making a plan and giving it a start.
ghost use Rattle.std.specs.Prelude.{◌≡◌, ℕ, []};
ghost use Rattle.traceback.specs.Tracing.{list_of};
ghost use Rattle.plan.specs.Answers.{StartAnswer};
ghost use Rattle.plan.specs.Changes.{Begun};
ghost use Rattle.plan.specs.Progress.{fresh};
ghost use Rattle.plan.specs.Standing.{progress, Stands};

use crate::plan::Plan;
use crate::state::State;
use kinds::Kind;
use network::Fault;
use polygons::Hulls;
use sources::Source;

/// The state with this start, where no node is settled and all lists are empty.
fn unsettled(start: Option<usize>) -> State
    ensures begins { progress result ≡ record { start = start; settled = 0 } }
    ensures empty { (u : ℕ) → list_of result.lists u ≡ [] }
{
    let empty = Hulls.zero();
    State {
        start,
        settled: 0,
        lists: [empty; 128],
    }
}

impl<S: Source> Plan<S> {
    /// The plan over a source: it has no start yet, and all its lists are empty.
    pub fn new(source: S) -> Plan<S>
        ensures holds_its_source { result.source ≡ source }
        ensures has_no_start { progress result.state ≡ fresh }
        ensures stands { Stands (S.Source.network source) result.state }
    {
        Plan {
            source,
            state: unsettled(None),
        }
    }

    /// Makes `s` the start: no node is settled then, and all lists are empty. Refuses with 5 where `s` is no node, and
    /// leaves the plan as it was.
    pub fn start(&mut self, s: usize) -> Result<(), Fault>
        ensures keeps_its_source { self.new.source ≡ self.old.source }
        ensures answers { StartAnswer (S.Source.network self.old.source) (progress self.old.state) s result }
        ensures begins_anew { Begun (S.Source.network self.old.source) s self.old.state result self.new.state }
    {
        if s >= self.source.nodes() {
            return Err(Fault::BadNode(0));
        }
        self.state = unsettled(Some(s));
        Ok(())
    }
}
