//! A plan over a source.
ghost use Rattle.plan.specs.declared.state.State.{State};
ghost use Rattle.plan.specs.PlanParts.{PlanParts};
ghost use Rattle.plan.specs.Standing.{Stands};

use crate::state::State;
use sources::Source;
use std::marker::Model;

/// A plan: a source, the start from which routes are sought, and the corner lists of the nodes that are settled, which
/// are the lowest. Only its own calls change it, and none changes its source.
// That none changes its source is said by each call that changes the plan: a type tells nothing of before and after. So is
// that the plan stands: a caller sees the value of a model, and not its invariant.
#[derive(Drop)]
pub struct Plan<S: Source> {
    pub(crate) source: S,
    pub(crate) state: State,
}

impl<S: Source> Model for Plan<S> {
    ghost Value = { PlanParts S };

    ghost view = { λ p. record { source = p.source; state = p.state } };

    // The plan stands: its state is one that its own calls made over its source's network.
    ghost invariant = { λ p. Stands (S.Source.network p.source) p.state };
}
