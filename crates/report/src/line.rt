//! The line of one weight.
ghost use Rattle.std.specs.Prelude.{Some};
ghost use Rattle.report.specs.Texts.{line_text};

use kinds::Amount;
use network::Weight;
use std::fmt;
use std::fmt::{Display, Formatter};

/// A line of a report: a weight of the takeoff, and the least weighted cost there; none where no route leads to the
/// target. The default has none.
// Beside `printout::WeightLine`, and not one type with it: this line of the short report says the least cost alone, that
// of the full report the corner too.
#[derive(Clone, Copy, Debug, Default, PartialEq, Eq)]
pub struct Line {
    pub weight: Weight,
    pub least: Option<Amount>,
}

impl Display for Line {
    ghost output = { λ l. Some (line_text l) };

    /// The weight, and its least cost or `none`.
    fn fmt<W: fmt::Write>(&self, f: &mut Formatter<W>) -> fmt::Result {
        let weight = self.weight;
        match self.least {
            Some(least) => write!(f, "weight {weight} least {least}"),
            None => write!(f, "weight {weight} none"),
        }
    }
}
