//! Directions: from one cost to another, and among weights.
ghost use Rattle.network.specs.Ranges.{Within};

use crate::cost::Cost;
use std::fmt;
use std::fmt::{Display, Formatter};

/// The way from one cost to another: the difference of their prices and of their pressures.
#[derive(Clone, Copy, Debug, PartialEq, Eq)]
pub struct Way {
    pub dx: i32,
    pub dy: i32,
    ghost dx_within: { Within 2540000 dx },
    ghost dy_within: { Within 2540000 dy },
}

/// A ray of weights: all that are a positive multiple of one. The default is no direction at all.
// A point among weights and a direction: one type would let one pass for the other.
#[derive(Clone, Copy, Debug, Default, PartialEq, Eq)]
pub struct Ray {
    pub a: i32,
    pub b: i32,
}

impl Way {
    ghost use Rattle.std.specs.Prelude.{◌≡◌, ◌-ℤ◌, neg_ℤ};

    /// The way that leads from one cost to another.
    pub fn between(from: &Cost, to: &Cost) -> Way
        ensures { (result.dx ≡ to.now.price -ℤ from.now.price) × (result.dy ≡ to.now.pressure -ℤ from.now.pressure) }
    {
        Way {
            dx: to.price - from.price,
            dy: to.pressure - from.pressure,
        }
    }

    /// The ray of the way, turned left by a right angle: (−dy, dx).
    pub fn ray(&self) -> Ray
        ensures { (result.a ≡ neg_ℤ self.now.dy) × (result.b ≡ self.now.dx) }
    {
        Ray {
            a: -self.dy,
            b: self.dx,
        }
    }
}

impl Display for Ray {
    ghost use Rattle.std.specs.Prelude.{Some};
    ghost use Rattle.network.specs.Texts.{ray_text};

    ghost output = { λ r. Some (ray_text r) };

    /// Both parts, with a blank between them.
    fn fmt<W: fmt::Write>(&self, f: &mut Formatter<W>) -> fmt::Result {
        let a = self.a;
        let b = self.b;
        write!(f, "{a} {b}")
    }
}
