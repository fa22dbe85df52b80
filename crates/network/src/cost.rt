//! What a route costs.
ghost use Rattle.network.specs.Ranges.{Within};

use std::fmt;
use std::fmt::{Display, Formatter};

/// A cost: a price in whole currency units and a pressure loss in pascals.
/// Each lies within ±1,270,000, which is what 127 steps of at most 10,000 come to.
#[derive(Clone, Copy, Debug, PartialEq, Eq, PartialOrd, Ord)]
pub struct Cost {
    pub price: i32,
    pub pressure: i32,
    ghost price_within: { Within 1270000 price },
    ghost pressure_within: { Within 1270000 pressure },
}

// By hand: the language derives no `Default` for a struct with ghost fields.
impl Default for Cost {
    ghost use Rattle.std.specs.Prelude.{◌≡◌};
    ghost use Rattle.network.specs.Costs.{origin, point};

    ghost is_default = { λ c. point c ≡ origin };

    /// What nothing costs.
    fn default() -> Cost {
        Cost {
            price: 0,
            pressure: 0,
        }
    }
}

impl Cost {
    ghost use Rattle.std.specs.Prelude.{◌≡◌, MatchOption};
    ghost use Rattle.network.specs.Costs.{Point, Bounded, point, plus as sum};

    /// The cost with these two parts; none where one of them is out of range.
    pub fn new(price: i32, pressure: i32) -> Option<Cost>
        ensures { MatchOption result (Bounded (record { price = price; pressure = pressure }) → ⊥) (λ c. point c ≡ record { price = price; pressure = pressure }) }
    {
        // An `if`, and not `then`: its closure would need a clause that says the test again.
        if price.unsigned_abs() <= 1_270_000 && pressure.unsigned_abs() <= 1_270_000 {
            Some(Cost { price, pressure })
        } else {
            None
        }
    }

    /// The sum of two costs; none where it is out of range.
    pub fn plus(&self, other: &Cost) -> Option<Cost>
        ensures { MatchOption result (Bounded (sum (point self.now) (point other.now)) → ⊥) (λ c. point c ≡ sum (point self.now) (point other.now)) }
    {
        Cost::new(self.price + other.price, self.pressure + other.pressure)
    }
}

impl Display for Cost {
    ghost use Rattle.std.specs.Prelude.{Some};
    ghost use Rattle.network.specs.Texts.{cost_text};

    ghost output = { λ c. Some (cost_text c) };

    /// The price and the pressure loss, with a blank between them.
    fn fmt<W: fmt::Write>(&self, f: &mut Formatter<W>) -> fmt::Result {
        let price = self.price;
        let pressure = self.pressure;
        write!(f, "{price} {pressure}")
    }
}
