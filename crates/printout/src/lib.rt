//! What is printed of a takeoff: a report, its lines, and their text.
#![tactic(auto)]

mod corner_line;
mod each;
mod entry;
mod heading;
mod route_line;
mod summary;
mod weight_line;

pub use corner_line::CornerLine;
pub use each::write_each;
pub use entry::Entry;
pub use heading::Heading;
pub use route_line::RouteLine;
pub use summary::Report;
pub use weight_line::WeightLine;
