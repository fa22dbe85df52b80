//! The worked samples, as one proved table.
#![tactic(auto)]

mod theorems;

pub use theorems::{file_says_the_takeoff, samples_hold};
