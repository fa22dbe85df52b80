//! The line of one corner.
ghost use Rattle.std.specs.Prelude.{Some};
ghost use Rattle.printout.specs.Texts.{corner_text};

use network::{Cost, Ray};
use std::fmt;
use std::fmt::{Display, Formatter};

/// A corner of the target: its number, its cost, and the two rays of its cone.
#[derive(Clone, Copy, Debug, Default, PartialEq, Eq)]
pub struct CornerLine {
    pub number: usize,
    pub cost: Cost,
    pub first: Ray,
    pub second: Ray,
}

impl Display for CornerLine {
    ghost output = { λ c. Some (corner_text c) };

    /// The number of the corner, its price and pressure, and both rays.
    fn fmt<W: fmt::Write>(&self, f: &mut Formatter<W>) -> fmt::Result {
        let number = self.number;
        let cost = self.cost;
        let first = self.first;
        let second = self.second;
        write!(f, "corner {number} {cost} cone {first} {second}")
    }
}
