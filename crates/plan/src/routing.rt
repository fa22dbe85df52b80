//! The route to a corner.
ghost use Rattle.std.specs.Prelude.{◌≡◌, ◌≤◌, length, drop, MatchResult};
ghost use Rattle.plan.specs.Answers.{RouteAnswer};
ghost use Rattle.plan.specs.Calls.{PartRouted};
ghost use Rattle.plan.specs.Standing.{progress};

use crate::plan::Plan;
use network::{Fault, Step};
use sources::Source;
use traceback::trace;

impl<S: Source> Plan<S> {
    /// Writes a route to corner `k` of node `v` to the front of the place, in order from the start, and answers how many
    /// steps it has: the one that working back finds, which takes at each node the lowest segment, then its lowest choice,
    /// that leaves a corner of the tail. The rest of the place stays as it was. Refuses with 5, 20, 22 and 23 as `corner`
    /// does, and last with 10 where the place is shorter than the route; the place is then as it was.
    pub fn route(&self, v: usize, k: usize, place: &mut [Step]) -> Result<usize, Fault>
        ensures leaves_the_rest { MatchResult result (λ n. (n ≤ length place.old) × (drop n place.new ≡ drop n place.old)) (λ _. place.new ≡ place.old) }
        ensures answers { RouteAnswer (S.Source.network self.now.source) (progress self.now.state) v k place.old result place.new }
    {
        let cost = self.corner(v, k)?;
        let start = self.state.start.ok_or(Fault::NoStart)?;
        trace(&self.source, &self.state.lists, start, v, cost, place)
    }

    /// The same for a part of the steps, which begins at a place and is so long; what lies past their end is no part.
    pub(crate) fn route_part(
        &self,
        v: usize,
        k: usize,
        from: usize,
        long: usize,
        steps: &mut [Step],
    ) -> Result<usize, Fault>
        ensures { PartRouted (S.Source.network self.now.source) (progress self.now.state) v k from long steps.old result steps.new }
    {
        let begin = from.min(steps.len());
        let end = begin + long.min(steps.len() - begin);
        self.route(v, k, &mut steps[begin..end])
    }
}
