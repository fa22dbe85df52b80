//! Grids and closings tried out: routes counted and weighed, and every refusal in its order.
#![tactic(auto)]

ghost use Rattle.std.specs.Prelude.{◌≡◌};
ghost use Rattle.grids.specs.Grids.{grid, grid_network};
ghost use Rattle.trials.specs.Fixtures.{opened, small_cells, small_sizes};

use figures::{count_routes, least_cost};
use grids::{Cell, Grid};
use kinds::Tally;
use network::{Fault, Size, Weight};
use runs::Sheet;
use sources::Source;

/// How many routes lead from one node to another; none where the sheet has no such node.
// Figures answers one node of the least cost alone, which its report asks for: the number of routes at one node is read here.
pub(crate) fn routes<S: Source>(
    source: &S,
    start: usize,
    target: usize,
) -> Result<Option<u32>, Fault> {
    // As many cells as a network can have nodes: no call is to fail for want of memory.
    let mut cells = [Tally::default(); 128];
    let mut sheet = Sheet::over(&mut cells);
    count_routes(source, start, &mut sheet)?;
    Ok(sheet.read(target).map(|tally| tally.count))
}

/// The least cost from node 0 at a weight; none where no route leads to the target.
pub(crate) fn least<S: Source>(
    source: &S,
    target: usize,
    a: i32,
    b: i32,
) -> Result<Option<i64>, Fault> {
    let found = least_cost(source, 0, target, Weight { a, b })?;
    Ok(found.map(|amount| amount.units))
}

/// An open cell with this extra.
pub fn open(price: i32, pressure: i32) -> Cell
    ensures { result ≡ opened price pressure }
{
    Cell::Open(Size { price, pressure })
}

/// The grid of two rows of two cells, where the cell to the right of the first costs five more.
pub fn small_grid() -> Grid
    ensures { grid_network result ≡ grid 2 2 small_cells small_sizes }
{
    let cells = [open(0, 0), open(5, 0), open(0, 0), open(0, 0)];
    let sizes = [
        Size {
            price: 1,
            pressure: 4,
        },
        Size {
            price: 3,
            pressure: 1,
        },
    ];
    let mut grid = Grid::new();
    let _ = grid.fill(2, 2, &cells, &sizes);
    grid
}

#[cfg(test)]
mod tests {
    use super::*;
    use closings::Closing;

    #[test]
    fn grids_are_crossed(rt: HostRuntime) {
        let grid = small_grid();
        assert_eq!(rt; routes(&grid, 0, 3), Ok(Some(8)));
        assert_eq!(rt; routes(&grid, 0, 2), Ok(Some(2)));
        assert_eq!(rt; routes(&grid, 1, 2), Ok(Some(0)));
        assert_eq!(rt; least(&grid, 3, 1, 0), Ok(Some(2)));
        assert_eq!(rt; least(&grid, 3, 0, 1), Ok(Some(2)));
        assert_eq!(rt; least(&grid, 3, -1, 0), Ok(Some(-11)));
        assert_eq!(rt; least(&grid, 3, 0, -1), Ok(Some(-8)));
        let mut closing = Closing::over(grid);
        assert_eq!(rt; closing.close(1), Ok(()));
        assert_eq!(rt; routes(&closing, 0, 3), Ok(Some(4)));
        assert_eq!(rt; least(&closing, 3, -1, 0), Ok(Some(-6)));
        assert_eq!(rt; routes(&closing, 0, 1), Ok(Some(0)));
        assert_eq!(rt; routes(&closing, 1, 1), Ok(Some(1)));
        assert_eq!(rt; routes(&closing.into_below(), 0, 3), Ok(Some(8)));
    }

    #[test]
    fn long_grids(rt: HostRuntime) {
        let cells = [open(0, 0); 128];
        let one = [Size {
            price: 1,
            pressure: 2,
        }];
        let two = [
            Size {
                price: 1,
                pressure: 2,
            },
            Size {
                price: 2,
                pressure: 1,
            },
        ];
        let mut grid = Grid::new();
        assert_eq!(rt; grid.fill(128, 1, &cells, &one), Ok(()));
        assert_eq!(rt; routes(&grid, 0, 127), Ok(Some(1)));
        assert_eq!(rt; least(&grid, 127, 1, 1), Ok(Some(381)));
        assert_eq!(rt; grid.fill(1, 128, &cells, &two), Ok(()));
        assert_eq!(rt; routes(&grid, 0, 127), Ok(Some(1_000_000)));
        assert_eq!(rt; least(&grid, 127, 1, 0), Ok(Some(127)));
        assert_eq!(rt; grid.fill(16, 8, &cells, &one), Ok(()));
        assert_eq!(rt; routes(&grid, 0, 127), Ok(Some(170_544)));
    }

    #[test]
    fn closed_cells(rt: HostRuntime) {
        let one = [Size {
            price: 1,
            pressure: 2,
        }];
        let mut grid = Grid::new();
        assert_eq!(rt; grid.fill(2, 2, &[Cell::Closed; 4], &one), Ok(()));
        assert_eq!(rt; routes(&grid, 0, 0), Ok(Some(1)));
        assert_eq!(rt; routes(&grid, 0, 3), Ok(Some(0)));
        let start_closed = [Cell::Closed, open(0, 0), open(0, 0), open(0, 0)];
        assert_eq!(rt; grid.fill(2, 2, &start_closed, &one), Ok(()));
        assert_eq!(rt; routes(&grid, 0, 0), Ok(Some(1)));
        assert_eq!(rt; routes(&grid, 0, 1), Ok(Some(0)));
        assert_eq!(rt; routes(&grid, 0, 3), Ok(Some(0)));
        assert_eq!(rt; routes(&grid, 1, 3), Ok(Some(1)));
    }

    #[test]
    fn grids_refuse(rt: HostRuntime) {
        let mut grid = small_grid();
        let cells = [open(0, 0); 128];
        let one = [Size {
            price: 5_000,
            pressure: -5_000,
        }];
        let far = [Size {
            price: 5_001,
            pressure: 0,
        }; 2];
        let twins = [Size {
            price: 1,
            pressure: 1,
        }; 2];
        let nine = [Size {
            price: 1,
            pressure: 1,
        }; 9];
        assert_eq!(rt; grid.fill(0, 1, &cells[0..0], &one), Err(Fault::GridShape));
        assert_eq!(rt; grid.fill(1, 0, &cells[0..0], &one), Err(Fault::GridShape));
        assert_eq!(rt; grid.fill(2, 65, &cells, &one), Err(Fault::GridShape));
        assert_eq!(rt; grid.fill(1, 2, &cells[0..1], &one), Err(Fault::GridShape));
        assert_eq!(rt; grid.fill(1, 2, &cells[0..3], &far), Err(Fault::GridShape));
        assert_eq!(rt;
            grid.fill(1, 1, &cells[0..1], &one[0..0]),
            Err(Fault::GridShape)
        );
        assert_eq!(rt; grid.fill(1, 1, &cells[0..1], &nine), Err(Fault::GridShape));
        assert_eq!(rt;
            grid.fill(1, 1, &cells[0..1], &far),
            Err(Fault::OutOfRange(0))
        );
        assert_eq!(rt;
            grid.fill(1, 1, &[open(0, -5_001)], &twins),
            Err(Fault::OutOfRange(0))
        );
        assert_eq!(rt;
            grid.fill(1, 1, &cells[0..1], &twins),
            Err(Fault::EqualChoices(0))
        );
        assert_eq!(rt; routes(&grid, 0, 3), Ok(Some(8)));
        assert_eq!(rt; grid.fill(1, 1, &[open(-5_000, 5_000)], &one), Ok(()));
        assert_eq!(rt; routes(&grid, 0, 0), Ok(Some(1)));
    }

    #[test]
    fn closings_refuse(rt: HostRuntime) {
        let cells = [open(0, 0); 128];
        let one = [Size {
            price: 1,
            pressure: 2,
        }];
        let mut grid = Grid::new();
        assert_eq!(rt; grid.fill(128, 1, &cells, &one), Ok(()));
        let mut closing = Closing::over(grid);
        for v in 100..116usize {
            assert_eq!(rt; closing.close(v), Ok(()));
        }
        assert_eq!(rt; closing.close(128), Err(Fault::BadNode(0)));
        assert_eq!(rt; closing.close(100), Err(Fault::ClosedAlready));
        assert_eq!(rt; closing.close(1), Err(Fault::ClosedFull));
        assert_eq!(rt; routes(&closing, 0, 99), Ok(Some(1)));
        assert_eq!(rt; routes(&closing, 0, 100), Ok(Some(0)));
        let mut twice = Closing::over(closing);
        assert_eq!(rt; twice.close(100), Ok(()));
        assert_eq!(rt; twice.close(1), Ok(()));
        assert_eq!(rt; routes(&twice, 0, 99), Ok(Some(0)));
        assert_eq!(rt; routes(&twice, 2, 99), Ok(Some(1)));
        assert_eq!(rt; routes(&twice, 116, 127), Ok(Some(1)));
    }
}
