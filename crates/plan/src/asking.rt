//! Asking a plan about a settled node.
ghost use Rattle.std.specs.Prelude.{◌≡◌, true, MatchResult};
ghost use Rattle.plan.specs.Answers.{Refused, CountAnswer, CornerAnswer, ConeAnswer, CheapestAnswer};
ghost use Rattle.plan.specs.Lists.{Held};
ghost use Rattle.plan.specs.Standing.{progress};

use crate::plan::Plan;
use network::{Cost, Fault, Ray, Weight};
use polygons::{Cheapest, Polygon};
use sources::Source;

impl<S: Source> Plan<S> {
    /// The polygon of a settled node, for a question whose weight, if it has one, is lawful or not. Refuses with 5 where
    /// there is no such node, with 8 where the weight is not lawful, with 20 where there is no start and with 22 where the
    /// node is not settled.
    // A truth value, and no weight: three of the four questions have none, and the fourth is refused for it between the node
    // and the start.
    pub(crate) fn held(&self, v: usize, lawful: bool) -> Result<&Polygon, Fault>
        ensures { MatchResult result (λ x. Held (S.Source.network self.now.source) (progress self.now.state) v (lawful ≡ true) x.now) (λ f. Refused (S.Source.network self.now.source) (progress self.now.state) v (lawful ≡ true) (λ _ _. ⊥) f) }
    {
        if v >= self.source.nodes() {
            return Err(Fault::BadNode(0));
        }
        if !lawful {
            return Err(Fault::WeightRange(0));
        }
        self.state.start.ok_or(Fault::NoStart)?;
        if v >= self.state.settled {
            return Err(Fault::NotSettled);
        }
        Ok(&self.state.lists[v])
    }

    /// The number of corners of node `v`: 0 where no route leads there. Refuses with 5 where there is no such node, with
    /// 20 where there is no start and with 22 where the node is not settled.
    pub fn count(&self, v: usize) -> Result<usize, Fault>
        ensures { CountAnswer (S.Source.network self.now.source) (progress self.now.state) v result }
    {
        let list = self.held(v, true)?;
        Ok(list.count())
    }

    /// The cost at corner `k` of node `v`, counted from 0. Refuses with 5, 20 and 22 as `count` does, and with 23 where
    /// there is no such corner.
    pub fn corner(&self, v: usize, k: usize) -> Result<Cost, Fault>
        ensures { CornerAnswer (S.Source.network self.now.source) (progress self.now.state) v k result }
    {
        let list = self.held(v, true)?;
        list.corner(k).ok_or(Fault::NoCorner)
    }

    /// The two rays between which the weights lie at which corner `k` of node `v` has the least cost. Refuses as `corner`
    /// does.
    pub fn cone(&self, v: usize, k: usize) -> Result<(Ray, Ray), Fault>
        ensures { ConeAnswer (S.Source.network self.now.source) (progress self.now.state) v k result }
    {
        let list = self.held(v, true)?;
        // Named before they are answered, here and below, so that an edit can turn the value and nothing else.
        let (first, second) = list.cone(k).ok_or(Fault::NoCorner)?;
        Ok((first, second))
    }

    /// The least cost of all routes to node `v` at a weight, and the lowest corner that has it. Refuses with 5, 20 and 22
    /// as `count` does, with 8 right after 5 where the weight is out of range, and last with 23 where there is no corner.
    pub fn cheapest(&self, v: usize, weight: Weight) -> Result<Cheapest, Fault>
        ensures { CheapestAnswer (S.Source.network self.now.source) (progress self.now.state) v weight result }
    {
        let list = self.held(v, weight.in_range())?;
        let best = list.cheapest(&weight).ok_or(Fault::NoCorner)?;
        Ok(best)
    }
}
