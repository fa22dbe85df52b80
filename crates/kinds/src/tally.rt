//! How many there are, up to a million.
ghost use Rattle.std.specs.Prelude.{◌≤◌};

/// A tally: how many there are, where 1,000,000 stands for any number from there on.
#[derive(Clone, Copy, Debug, PartialEq, Eq, PartialOrd, Ord)]
pub struct Tally {
    pub count: u32,
    ghost few: { count ≤ 1000000 },
}

// By hand: the language derives no `Default` for a struct with ghost fields.
impl Default for Tally {
    ghost use Rattle.std.specs.Prelude.{◌≡◌};

    ghost is_default = { λ t. t.count ≡ 0 };

    /// None at all.
    fn default() -> Tally {
        Tally { count: 0 }
    }
}

impl From<u64> for Tally {
    ghost use Rattle.std.specs.Prelude.{◌≡◌};
    ghost use Rattle.kinds.specs.Counts.{cut, tallied};

    ghost from_gives = { λ many t. tallied t ≡ cut many };

    /// The tally of so many, cut at 1,000,000.
    fn from(many: u64) -> Tally {
        // A cast, which loses nothing here: `try_from` would ask for an answer where the number does not fit.
        Tally {
            count: many.min(1_000_000) as u32,
        }
    }
}
