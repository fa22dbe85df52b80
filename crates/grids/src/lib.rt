//! Grids: cells in rows, crossed to the right and down.
#![tactic(auto)]

mod cell;
mod grid;
mod raising;
mod walking;

pub use cell::Cell;
pub use grid::Grid;
pub use walking::{cells_are_entered, routes_are_walks};
