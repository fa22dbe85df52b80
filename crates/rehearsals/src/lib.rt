//! The worked samples, asked of the public calls.
#![tactic(auto)]

mod answer;
mod asking;
mod grounds;
mod reporting;
mod tables;
mod telling;

pub use answer::Told;
pub use grounds::{tell_closed, tell_square};
pub use reporting::report_drawn;
pub use tables::{count_drawn, tell_drawn, tell_hexagon, tell_lone, tell_straight, weigh_drawn};
