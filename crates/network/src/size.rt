//! A stock size as it is listed.
ghost use Rattle.std.specs.Prelude.{All, Decides};
ghost use Rattle.network.specs.Choices.{InRange, SizeWithin, Apart};

/// A stock size: its price in whole currency units and its pressure loss in pascals, unchecked. The default costs
/// nothing. Two sizes count as the same choice where price and pressure loss agree.
#[derive(Clone, Copy, Debug, Default, PartialEq, Eq)]
pub struct Size {
    pub price: i32,
    pub pressure: i32,
}

impl Size {
    /// Whether price and pressure loss each lie within plus or minus the bound.
    pub fn is_within(&self, bound: u32) -> bool
        ensures { Decides result (SizeWithin bound self.now) }
    {
        self.price.unsigned_abs() <= bound && self.pressure.unsigned_abs() <= bound
    }

    /// Whether price and pressure loss each lie in −10,000..10,000.
    pub fn in_range(&self) -> bool
        ensures { Decides result (InRange self.now) }
    {
        self.is_within(10_000)
    }
}

/// Whether price and pressure loss of each size lie within plus or minus the bound.
pub fn all_within(sizes: &[Size], bound: u32) -> bool
    ensures { Decides result (All (SizeWithin bound) sizes.now) }
{
    sizes.iter().all(|size| size.is_within(bound))
}

/// Whether no two sizes are the same.
pub fn all_apart(sizes: &[Size]) -> bool
    ensures { Decides result (Apart sizes.now) }
{
    for (j, size) in sizes.iter().enumerate() {
        if sizes[..j].contains(size) {
            return false;
        }
    }
    true
}
