//! The line of one weight.
ghost use Rattle.std.specs.Prelude.{Some};
ghost use Rattle.printout.specs.Texts.{weight_text};

use network::Weight;
use polygons::Cheapest;
use std::fmt;
use std::fmt::{Display, Formatter};

/// A weight of the takeoff, with the least weighted cost there and the lowest corner that has it; none where no route
/// leads to the target. The default has none.
#[derive(Clone, Copy, Debug, Default, PartialEq, Eq)]
pub struct WeightLine {
    pub weight: Weight,
    pub best: Option<Cheapest>,
}

impl Display for WeightLine {
    ghost output = { λ l. Some (weight_text l) };

    /// The weight, and its least cost and corner or `none`.
    fn fmt<W: fmt::Write>(&self, f: &mut Formatter<W>) -> fmt::Result {
        let weight = self.weight;
        match self.best {
            Some(best) => write!(f, "weight {weight} {best}"),
            None => write!(f, "weight {weight} none"),
        }
    }
}
