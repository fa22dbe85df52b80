//! Settling nodes.
ghost use Rattle.std.specs.Prelude.{◌≡◌};
ghost use Rattle.plan.specs.Answers.{SettleAnswer};
ghost use Rattle.plan.specs.Changes.{Advanced};
ghost use Rattle.plan.specs.Lists.{NextList};
ghost use Rattle.plan.specs.Standing.{progress, Stands};

use crate::plan::Plan;
use network::Fault;
use polygons::{Hulls, Polygon};
use runs::node_value;
use sources::Source;

impl<S: Source> Plan<S> {
    /// The polygon of the lowest node that is not settled, as a run of the polygon kind makes it.
    fn next_list(&self) -> Result<Polygon, Fault>
        ensures { NextList (S.Source.network self.now.source) (progress self.now.state) result }
    {
        let start = self.state.start.ok_or(Fault::NoStart)?;
        if self.state.settled >= self.source.nodes() {
            return Err(Fault::AllSettled);
        }
        node_value(
            &Hulls,
            &self.source,
            start,
            self.state.settled,
            &self.state.lists,
        )
    }

    /// Settles the lowest node that is not settled, as a run of the polygon kind treats it: its list becomes its corner
    /// list, and no other list changes. Refuses with 20 where there is no start, with 21 where all nodes are settled and
    /// with 24 where a result does not fit, and leaves the plan as it was.
    pub fn settle(&mut self) -> Result<(), Fault>
        ensures keeps_its_source { self.new.source ≡ self.old.source }
        ensures replaces_one_list { Advanced self.old.state result self.new.state }
        ensures answers { SettleAnswer (S.Source.network self.old.source) (progress self.old.state) result }
        ensures stands { Stands (S.Source.network self.old.source) self.new.state }
    {
        let list = self.next_list()?;
        let v = self.state.settled;
        self.state.lists[v] = list;
        self.state.settled = v + 1;
        Ok(())
    }
}
