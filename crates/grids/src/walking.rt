//! What the segments and the routes of a grid are, said once for all.
ghost use Rattle.grids.specs.Grids.{grid_cells, grid_sizes, grid_network};
ghost use Rattle.grids.specs.Walks.{Entered, Walked};

use crate::grid::Grid;

/// The segments of a grid: each enters an open cell from an open neighbour, and there is one into every open cell
/// from its left and its upper neighbour that exist and are open. The contract is the theorem; the answer, 0, says nothing.
pub fn cells_are_entered(grid: &Grid) -> u8
    ensures { Entered grid.now.width grid.now.height (grid_cells grid.now) (grid_sizes grid.now) (grid_network grid.now) }
{
    0
}

/// The routes of a grid: every step goes to the right or down between open cells, and every such walk is a
/// route, by whatever choices. The contract is the theorem; the answer, 0, says nothing.
pub fn routes_are_walks(grid: &Grid) -> u8
    ensures { Walked grid.now.width grid.now.height (grid_cells grid.now) (grid_sizes grid.now) (grid_network grid.now) }
{
    0
}
