//! What a client gives for price and for pressure.
ghost use Rattle.std.specs.Prelude.{◌≡◌, Decides, Some};
ghost use Rattle.network.specs.Costs.{LawfulWeight, point, weigh};
ghost use Rattle.network.specs.Texts.{weight_text};

use crate::cost::Cost;
use crate::number::product;
use std::fmt;
use std::fmt::{Display, Formatter};

/// A weight: what a unit of price and a unit of pressure count. Anyone can make one;
/// whoever uses it tests its range, −6,000,000..6,000,000 for each part.
#[derive(Clone, Copy, Debug, Default, PartialEq, Eq)]
pub struct Weight {
    pub a: i32,
    pub b: i32,
}

impl Weight {
    /// Whether both parts lie in −6,000,000..6,000,000.
    pub fn in_range(&self) -> bool
        ensures { Decides result (LawfulWeight self.now) }
    {
        self.a.unsigned_abs() <= 6_000_000 && self.b.unsigned_abs() <= 6_000_000
    }
}

/// The weighted cost, whatever the weight.
pub fn weighted_cost(weight: &Weight, cost: &Cost) -> i64
    ensures { result ≡ weigh weight.now (point cost.now) }
{
    product(weight.a, cost.price) + product(weight.b, cost.pressure)
}

impl Display for Weight {
    ghost output = { λ w. Some (weight_text w) };

    /// What price and what pressure count, with a blank between them.
    fn fmt<W: fmt::Write>(&self, f: &mut Formatter<W>) -> fmt::Result {
        let a = self.a;
        let b = self.b;
        write!(f, "{a} {b}")
    }
}
