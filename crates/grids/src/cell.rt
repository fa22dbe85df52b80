//! A cell of a grid.
ghost use Rattle.std.specs.Prelude.{All, Decides};
ghost use Rattle.grids.specs.Cells.{MildCell};

use network::Size;

/// A cell: closed to ducts, or open with the extra price and pressure loss that it asks.
// Not an `Option<Size>`: `Closed` and `Open` are the words of the subject, and say what `None` and `Some` would not.
#[derive(Clone, Copy, Debug, PartialEq, Eq)]
pub enum Cell {
    Closed,
    Open(Size),
}

impl Cell {
    /// Whether the cell is closed, or each part of its extra lies in −5,000..5,000.
    pub(crate) fn is_mild(&self) -> bool
        ensures { Decides result (MildCell self.now) }
    {
        match self {
            Cell::Closed => true,
            Cell::Open(extra) => extra.is_within(5_000),
        }
    }
}

/// Whether each cell is closed or has an extra in range.
pub(crate) fn all_cells_mild(cells: &[Cell]) -> bool
    ensures { Decides result (All MildCell cells.now) }
{
    cells.iter().all(|cell| cell.is_mild())
}
