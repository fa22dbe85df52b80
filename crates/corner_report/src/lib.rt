//! From the bytes of a takeoff to its report.
#![tactic(auto)]

mod entries;
mod lines;
mod planning;
mod reckoning;

pub use entries::entries_of;
pub use planning::settled;
pub use reckoning::report;
