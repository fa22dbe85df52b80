//! Plans: the corner lists of a network, node by node, and what is asked of them.
#![tactic(auto)]

mod asking;
mod beginnings;
mod call;
mod calling;
mod carrying;
mod making;
mod plan;
mod routing;
mod settling;
mod state;

pub use beginnings::beginnings_are_right;
pub use call::{Call, Reply};
pub use carrying::{Carried, carry_out};
pub use plan::Plan;
pub use state::State;
