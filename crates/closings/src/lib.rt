//! Closings: a source with some of its nodes closed.
#![tactic(auto)]

mod avoiding;
mod closing;

pub use avoiding::{closings_add_up, routes_avoid_closed_nodes};
pub use closing::Closing;
