//! A network of cells in rows.
ghost use Rattle.std.specs.Prelude.{◌≡◌, ℕ, ◌*◌, ◌≤◌, length, take, Decides, MatchResult, SomeIff};
ghost use Rattle.network.specs.declared.fault.Place.TheVariants.{At};
ghost use Rattle.network.specs.Faults.{number, place};
ghost use Rattle.grids.specs.Cells.{MildExtras, MildSizes, SizesApart};
ghost use Rattle.grids.specs.Laying.{AllMild, Area, Laid, NotLaid};

use crate::cell::{Cell, all_cells_mild};
use crate::raising::{paid, raise};
use network::{Fault, Record, Segment, Size, all_apart, all_within};
use sources::{Source, overwrite_front};

/// A grid: `height` rows of `width` cells, which ducts cross to the right and down, and up to 8 sizes to
/// choose from. Cell `row * width + column` is the node of that number; the cells are the first
/// `width * height` of `cells` and the sizes the first `count` of `sizes`.
#[derive(Clone, Copy, Debug)]
pub struct Grid {
    pub(crate) width: usize,
    pub(crate) height: usize,
    // 128 places and 8, and how many are used, and no lists that grow: no call is to fail for want of memory. Nor
    // an `ArrayVec` each, which cannot be copied.
    pub(crate) cells: [Cell; 128],
    pub(crate) count: usize,
    pub(crate) sizes: [Size; 8],
    ghost wide: { 1 ≤ width },
    ghost high: { 1 ≤ height },
    ghost small: { width * height ≤ 128 },
    ghost some: { 1 ≤ count },
    ghost few: { count ≤ 8 },
    ghost cellroom: { length cells ≡ 128 },
    ghost sizeroom: { length sizes ≡ 8 },
    ghost extras: { MildExtras (take (width * height) cells) },
    ghost ranged: { MildSizes (take count sizes) },
    ghost apart: { SizesApart (take count sizes) },
}

/// How many cells so many rows of so many cells have; none where that is no grid.
fn area(width: usize, height: usize) -> Option<usize>
    ensures { SomeIff result (Area width height) (width * height) }
{
    let count = width.checked_mul(height)?;
    (1..=128).contains(&count).then_some(count)
}

/// Whether every extra and every size is in range.
fn all_mild(cells: &[Cell], sizes: &[Size]) -> bool
    ensures { Decides result (AllMild cells.now sizes.now) }
{
    all_cells_mild(cells) && all_within(sizes, 5_000)
}

/// Looks for the first thing wrong with the cells and the sizes: first the shape, then the ranges, then equal
/// sizes.
fn check(width: usize, height: usize, cells: &[Cell], sizes: &[Size]) -> Result<(), Fault>
    ensures { MatchResult result (λ _. Laid width height cells.now sizes.now) (λ f. (p : ℕ) × (place f ≡ At p) × NotLaid width height cells.now sizes.now (number f) p) }
{
    if area(width, height) != Some(cells.len()) || sizes.is_empty() || sizes.len() > 8 {
        return Err(Fault::GridShape);
    }
    if !all_mild(cells, sizes) {
        return Err(Fault::OutOfRange(0));
    }
    if !all_apart(sizes) {
        return Err(Fault::EqualChoices(0));
    }
    Ok(())
}

// By hand: the language derives no `Default` for a struct with ghost fields.
impl Default for Grid {
    ghost use Rattle.std.specs.Prelude.{◌≡◌, [], ◌∷◌, pos};
    ghost use Rattle.grids.specs.declared.cell.Cell.TheVariants.{Open};
    ghost use Rattle.grids.specs.Grids.{grid, grid_network};

    ghost is_default = { λ g. grid_network g ≡ grid 1 1 (Open (record { price = pos 0; pressure = pos 0 }) ∷ []) (record { price = pos 0; pressure = pos 0 } ∷ []) };

    /// A grid of one open cell and one size, with nothing to pay.
    fn default() -> Grid {
        Grid {
            width: 1,
            height: 1,
            cells: [Cell::Open(Size::default()); 128],
            count: 1,
            sizes: [Size::default(); 8],
        }
    }
}

impl Grid {
    ghost use Rattle.std.specs.Prelude.{◌≡◌, ◌*◌, ◌<◌, [], ◌∷◌, map, pos, MatchResult};
    ghost use Rattle.std.specs.Option.{option_map};
    ghost use Rattle.network.specs.declared.size.Size.{Size};
    ghost use Rattle.network.specs.Networks.{segment_arc};
    ghost use Rattle.sources.specs.Answers.{Answered};
    ghost use Rattle.grids.specs.declared.cell.Cell.TheVariants.{Open};
    ghost use Rattle.grids.specs.Cells.{Mild, MildCell, cell as cell_of};
    ghost use Rattle.grids.specs.Grids.{crossing as crossing_of, origin as origin_of, grid, grid_cells, grid_network, grid_sizes, plus_extra};
    ghost use Rattle.grids.specs.Laying.{Laid, NotLaid};

    /// A grid of one open cell and one size, with nothing to pay.
    pub fn new() -> Grid
        ensures { grid_network result ≡ grid 1 1 (Open (record { price = pos 0; pressure = pos 0 }) ∷ []) (record { price = pos 0; pressure = pos 0 } ∷ []) }
    {
        Grid::default()
    }

    /// Makes the grid one of so many rows of these cells, with these sizes to choose from. Refuses with 9 where
    /// there are no rows, no columns or more than 128 cells, where the cells do not just fill the rows and where
    /// the sizes are not 1 to 8; with 7 where a part of an extra or of a size is not in −5,000..5,000; and with
    /// 12 where two sizes are equal. The grid is then as it was.
    #[tactic(auto, using(crate::proofs::Laid::answered_grid))]
    pub fn fill(
        &mut self,
        width: usize,
        height: usize,
        cells: &[Cell],
        sizes: &[Size],
    ) -> Result<(), Fault>
        ensures answers { Answered (Laid width height cells.now sizes.now) (NotLaid width height cells.now sizes.now) result }
        ensures holds { MatchResult result (λ _. grid_network self.new ≡ grid width height cells.now sizes.now) (λ _. self.new ≡ self.old) }
    {
        check(width, height, cells, sizes)?;
        overwrite_front(&mut self.cells, cells);
        overwrite_front(&mut self.sizes, sizes);
        self.width = width;
        self.height = height;
        self.count = sizes.len();
        Ok(())
    }

    /// Cell `v`.
    fn cell(&self, v: usize) -> Cell
        requires { v < self.now.width * self.now.height }
        ensures is { result ≡ cell_of (grid_cells self.now) v }
        ensures mild { MildCell result }
    {
        self.cells[v]
    }

    /// The cell from which segment `e` would come, however many there are: cell `e / 2` is entered from the left
    /// by an even segment and from above by an odd one. None where there is no such neighbour.
    fn neighbour(&self, e: usize) -> Option<usize>
        ensures { result ≡ origin_of self.now.width e }
    {
        let v = e / 2;
        if e % 2 == 0 {
            (v % self.width != 0).then(|| v - 1)
        } else {
            v.checked_sub(self.width)
        }
    }

    /// The segment from cell `u` into cell `v`, with such an extra.
    fn joined(&self, u: usize, v: usize, extra: Size) -> Segment
        requires { Mild extra }
        ensures { segment_arc result ≡ record { tail = u; head = v; sizes = map (plus_extra extra) (grid_sizes self.now) } }
    {
        let mut sizes = self.sizes;
        raise(&mut sizes[..self.count], &self.sizes[..self.count], &extra);
        Segment {
            listed: Record {
                tail: u,
                head: v,
                count: self.count,
                sizes,
            },
        }
    }

    /// The segment from cell `u` into cell `v`; none unless both are open.
    fn crossing(&self, u: usize, v: usize) -> Option<Segment>
        requires { (u < self.now.width * self.now.height) × (v < self.now.width * self.now.height) }
        ensures { option_map segment_arc result ≡ crossing_of (grid_sizes self.now) u v (cell_of (grid_cells self.now) u) (cell_of (grid_cells self.now) v) }
    {
        match (self.cell(u), self.cell(v)) {
            (Cell::Open(left), Cell::Open(entered)) => Some(self.joined(u, v, paid(left, entered))),
            _ => None,
        }
    }
}

impl Source for Grid {
    ghost use Rattle.grids.specs.Grids.{grid_network};
    ghost use Rattle.grids.specs.GridRules.{grid_ruled};

    ghost network = { grid_network };

    ghost ruled = { grid_ruled };

    fn nodes(&self) -> usize {
        self.width * self.height
    }

    fn segments(&self) -> usize {
        2 * self.nodes()
    }

    fn segment(&self, e: usize) -> Option<Segment> {
        if e >= self.segments() {
            return None;
        }
        let u = self.neighbour(e)?;
        self.crossing(u, e / 2)
    }
}
