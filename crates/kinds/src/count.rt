//! The kind that counts routes.
ghost use Rattle.kinds.specs.Counts.{counts, tallied};
ghost use Rattle.kinds.specs.CountLaws.{counts_semiring, counts_fitting};

use crate::kind::Kind;
use crate::tally::Tally;
use network::Choice;

/// Count: the value of some routes is how many there are, cut at 1,000,000.
#[derive(Clone, Copy, Debug, Default, PartialEq, Eq)]
pub struct Count;

impl Kind for Count {
    type Value = Tally;

    ghost ring = { λ _. counts };

    ghost means = { λ _ v. tallied v };

    ghost lawful = { λ k. counts_semiring };

    ghost fitting = { λ k. counts_fitting };

    /// No route.
    fn zero(&self) -> Tally {
        Tally::from(0)
    }

    /// One route, the empty one.
    fn one(&self) -> Tally {
        Tally::from(1)
    }

    /// One route.
    fn letter(&self, _choice: Choice) -> Tally {
        self.one()
    }

    /// The sum, cut at 1,000,000; it always fits.
    fn join(&self, left: &Tally, right: &Tally) -> Option<Tally> {
        Some(Tally::from(u64::from(left.count) + u64::from(right.count)))
    }

    /// The product, cut at 1,000,000; it always fits.
    fn chain(&self, left: &Tally, right: &Tally) -> Option<Tally> {
        Some(Tally::from(u64::from(left.count) * u64::from(right.count)))
    }
}
