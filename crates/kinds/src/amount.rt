//! A weighted cost that a least run may hold.
ghost use Rattle.network.specs.Ranges.{Within};

use std::fmt;
use std::fmt::{Display, Formatter};

/// An amount: a weighted cost. It lies within ±15,240,000,000,000, which is what 127 steps of at most
/// 120,000,000,000 come to.
#[derive(Clone, Copy, Debug, PartialEq, Eq, PartialOrd, Ord)]
pub struct Amount {
    pub units: i64,
    ghost bounded: { Within 15240000000000 units },
}

// By hand: the language derives no `Default` for a struct with ghost fields.
impl Default for Amount {
    ghost use Rattle.std.specs.Prelude.{◌≡◌, pos};

    ghost is_default = { λ a. a.units ≡ pos 0 };

    /// What nothing costs.
    fn default() -> Amount {
        Amount { units: 0 }
    }
}

impl Amount {
    ghost use Rattle.std.specs.Prelude.{◌≡◌, ◌+ℤ◌, MatchOption};

    /// The sum of two amounts; none where it is out of range.
    pub fn plus(&self, other: &Amount) -> Option<Amount>
        ensures { MatchOption result (Within 15240000000000 (self.now.units +ℤ other.now.units) → ⊥) (λ a. a.units ≡ self.now.units +ℤ other.now.units) }
    {
        let units = self.units + other.units;
        // An `if`, and not `then`: its closure would need a clause that says the test again.
        if units.unsigned_abs() <= 15_240_000_000_000 {
            Some(Amount { units })
        } else {
            None
        }
    }
}

impl Display for Amount {
    ghost use Rattle.std.specs.Prelude.{Some};
    ghost use Rattle.kinds.specs.Texts.{amount_text};

    ghost output = { λ a. Some (amount_text a) };

    /// Its units.
    fn fmt<W: fmt::Write>(&self, f: &mut Formatter<W>) -> fmt::Result {
        let units = self.units;
        write!(f, "{units}")
    }
}
