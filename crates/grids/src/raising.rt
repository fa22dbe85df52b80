//! Sizes with an extra.
ghost use Rattle.std.specs.Prelude.{◌≡◌, map, length};
ghost use Rattle.grids.specs.Cells.{Mild, MildSizes};
ghost use Rattle.grids.specs.Grids.{paid as paid_of, plus_extra};

use network::Size;

/// The extra that a step pays, of the extra of the cell that it leaves and that of the cell that it enters.
pub(crate) fn paid(_left: Size, entered: Size) -> Size
    requires { (Mild _left) × (Mild entered) }
    ensures is { result ≡ paid_of _left entered }
    ensures mild { Mild result }
{
    entered
}

/// A size with an extra.
fn raised(size: &Size, extra: &Size) -> Size
    requires { (Mild size.now) × (Mild extra.now) }
    ensures { result ≡ plus_extra extra.now size.now }
{
    Size {
        price: size.price + extra.price,
        pressure: size.pressure + extra.pressure,
    }
}

/// Writes the listed sizes with an extra to a place for as many.
pub(crate) fn raise(sizes: &mut [Size], listed: &[Size], extra: &Size)
    requires long { length sizes.old ≡ length listed.now }
    requires mild { MildSizes listed.now }
    requires extra { Mild extra.now }
    ensures { sizes.new ≡ map (plus_extra extra.now) listed.now }
{
    // Read from one array and written to another: a caller that asks for no size then has none worked out.
    for (k, size) in sizes.iter_mut().enumerate() {
        *size = raised(&listed[k], extra);
    }
}
