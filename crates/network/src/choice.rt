//! A stock size that may be chosen.
ghost use Rattle.network.specs.Ranges.{Within};

use crate::cost::Cost;
use crate::fault::Fault;
use crate::size::Size;

/// A choice: a stock size whose price and pressure loss each lie in −10,000..10,000.
#[derive(Clone, Copy, Debug, PartialEq, Eq)]
pub struct Choice {
    pub size: Size,
    ghost price_within: { Within 10000 size.price },
    ghost pressure_within: { Within 10000 size.pressure },
}

impl TryFrom<Size> for Choice {
    ghost use Rattle.network.specs.Chosen.{Chosen};

    type Error = Fault;

    ghost try_from_gives = { Chosen };

    /// The choice of a stock size. Refuses with 7 where it is out of range.
    fn try_from(size: Size) -> Result<Choice, Fault> {
        if size.in_range() {
            Ok(Choice { size })
        } else {
            Err(Fault::OutOfRange(0))
        }
    }
}

impl Choice {
    ghost use Rattle.std.specs.Prelude.{◌≡◌};
    ghost use Rattle.network.specs.Costs.{point, size_cost};

    /// What the choice costs.
    pub fn cost(&self) -> Cost
        ensures { point result ≡ size_cost self.now.size }
    {
        Cost {
            price: self.size.price,
            pressure: self.size.pressure,
        }
    }
}
