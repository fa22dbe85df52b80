//! Sources: where a network comes from.
#![tactic(auto)]

mod front;
mod source;
mod table;

pub use front::overwrite_front;
pub use source::Source;
pub use table::Table;
