//! Kinds: what a run computes at each node.
#![tactic(auto)]

mod amount;
mod count;
mod kind;
mod least;
mod tally;

pub use amount::Amount;
pub use count::Count;
pub use kind::Kind;
pub use least::Least;
pub use tally::Tally;
