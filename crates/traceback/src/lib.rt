//! Working back from a corner of a node to the start.
#![tactic(auto)]

mod choosing;
mod matching;
mod retracing;
mod stepping;
mod tracing;

pub use tracing::trace;
