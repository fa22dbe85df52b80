//! From the bytes of a takeoff to what is printed of it.
#![tactic(auto)]

mod line;
mod lines;
mod reckoning;
mod summary;

pub use line::Line;
pub use printout::Heading;
pub use reckoning::report;
pub use summary::Report;
