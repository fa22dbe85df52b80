//! Runs: one pass over a network, with the values of any kind.
#![tactic(auto)]

mod letters;
mod node;
mod pass;
mod sheet;

pub use node::node_value;
pub use pass::run;
pub use sheet::Sheet;
