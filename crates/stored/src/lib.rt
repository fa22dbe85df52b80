//! Stored cases: pieces of bytes, one behind another.
#![tactic(auto)]

mod pieces;

pub use pieces::{CutShort, Pieces};
