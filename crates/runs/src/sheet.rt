//! One value for each node.
ghost use Rattle.std.specs.Prelude.{◌≡◌, ◌<◌, ◌≤◌, length, Decides, MatchOption, slice_index_or, slice_set};

/// A sheet: one value for each node, of any kind of value, in cells that the caller lends.
#[derive(Drop)]
pub struct Sheet<'a, T> {
    cells: &'a mut [T],
}

/// Writes a cell, if it is there. It answers as `put` does, which it is for.
fn store<T: Drop>(cells: &mut [T], v: usize, x: T) -> bool
    ensures writes { cells.new ≡ slice_set cells.old v x }
    ensures tells { Decides result (v < length cells.old) }
{
    if v < cells.len() {
        cells[v] = x;
        return true;
    }
    false
}

/// A cell, if it is there.
fn load<T>(cells: &[T], v: usize) -> Option<&T>
    ensures { MatchOption result (length cells.now ≤ v) (λ x. (v < length cells.now) × ((d : T) → x.now ≡ slice_index_or cells.now v d)) }
{
    cells.get(v)
}

impl<'a, T: Drop> Sheet<'a, T> {
    /// The sheet over these cells.
    pub fn over(cells: &'a mut [T]) -> Sheet<'a, T>
        ensures lent { result.cells.ghost_name ≡ cells.entry.ghost_name }
        ensures holds { result.cells.now ≡ cells.old }
    {
        Sheet { cells }
    }

    /// How many cells there are.
    pub fn len(&self) -> usize
        ensures { result ≡ length self.now.cells.now }
    {
        self.cells.len()
    }

    /// All cells.
    pub fn all(&self) -> &[T]
        ensures { result.now ≡ self.now.cells.now }
    {
        &*self.cells
    }

    /// The value at node `v`; none past the end.
    pub fn read(&self, v: usize) -> Option<&T>
        ensures { MatchOption result (length self.now.cells.now ≤ v) (λ x. (v < length self.now.cells.now) × ((d : T) → x.now ≡ slice_index_or self.now.cells.now v d)) }
    {
        load(self.cells, v)
    }

    /// Writes the value at node `v`. Past the end it answers false, and nothing changes.
    // A truth value, and no result or option: there is no fault to name, and a run that has tested the length has nothing to
    // pass on.
    pub fn put(&mut self, v: usize, x: T) -> bool
        ensures lent { self.new.cells.ghost_name ≡ self.old.cells.ghost_name }
        ensures writes { self.new.cells.now ≡ slice_set self.old.cells.now v x }
        ensures tells { Decides result (v < length self.old.cells.now) }
    {
        store(self.cells, v, x)
    }
}
