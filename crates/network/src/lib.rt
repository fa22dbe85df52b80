//! The words of the subject: costs, weights, choices, segments, steps and faults.
#![tactic(auto)]

mod choice;
mod cost;
mod fault;
mod number;
mod record;
mod segment;
mod size;
mod step;
mod way;
mod weight;

pub use choice::Choice;
pub use cost::Cost;
pub use fault::{Fault, Place, Stage};
pub use number::product;
pub use record::Record;
pub use segment::{Choices, Segment};
pub use size::{Size, all_apart, all_within};
pub use step::Step;
pub use way::{Ray, Way};
pub use weight::{Weight, weighted_cost};
