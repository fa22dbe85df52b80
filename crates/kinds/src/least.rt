//! The kind of least costs at a weight.
ghost use Rattle.network.specs.Costs.{LawfulWeight};

use crate::amount::Amount;
use crate::kind::Kind;
use network::{Choice, Fault, Weight, weighted_cost};

/// Least cost: the value of some routes is the least of their weighted costs, and none where there are no routes.
/// Its weight is in range.
#[derive(Clone, Copy, Debug, PartialEq, Eq)]
pub struct Least {
    pub weight: Weight,
    ghost lawful: { LawfulWeight weight },
}

impl Least {
    ghost use Rattle.std.specs.Prelude.{◌≡◌, MatchResult};
    ghost use Rattle.network.specs.Costs.{size_cost, weigh};
    ghost use Rattle.network.specs.declared.fault.Place.TheVariants.{At};
    ghost use Rattle.network.specs.Faults.{listed};

    // A constructor, and not a TryFrom: a kind is made at a weight, and the weight is not turned into it.
    /// The kind of least costs at a weight. Refuses with 8 where the weight is out of range.
    pub fn new(weight: Weight) -> Result<Least, Fault>
        ensures { MatchResult result (λ k. k.weight ≡ weight) (λ f. (listed f ≡ (8, At 0)) × (LawfulWeight weight → ⊥)) }
    {
        if weight.in_range() {
            Ok(Least { weight })
        } else {
            Err(Fault::WeightRange(0))
        }
    }

    /// What a choice costs at the weight.
    fn weighed(&self, choice: &Choice) -> Amount
        ensures { result.units ≡ weigh self.now.weight (size_cost choice.now.size) }
    {
        Amount {
            units: weighted_cost(&self.weight, &choice.cost()),
        }
    }
}

impl Kind for Least {
    ghost use Rattle.kinds.specs.Leasts.{leasts, amount};
    ghost use Rattle.kinds.specs.LeastLaws.{leasts_semiring, leasts_fitting};

    type Value = Option<Amount>;

    ghost ring = { λ k. leasts k.weight };

    ghost means = { λ _ v. amount v };

    ghost lawful = { λ k. leasts_semiring k.weight };

    ghost fitting = { λ k. leasts_fitting k.weight k.lawful };

    /// None: without a route there is no cost.
    fn zero(&self) -> Option<Amount> {
        None
    }

    /// The empty route costs nothing.
    fn one(&self) -> Option<Amount> {
        Some(Amount::default())
    }

    /// The weighted cost of the choice.
    fn letter(&self, choice: Choice) -> Option<Amount> {
        Some(self.weighed(&choice))
    }

    /// The smaller of the two; it always fits.
    fn join(&self, left: &Option<Amount>, right: &Option<Amount>) -> Option<Option<Amount>> {
        let smaller = left.zip(*right).map(|(x, y)| x.min(y));
        Some(smaller.or(*left).or(*right))
    }

    /// The sum of the two, none where either is none; it does not fit where it is out of range.
    fn chain(&self, left: &Option<Amount>, right: &Option<Amount>) -> Option<Option<Amount>> {
        let Some((x, y)) = left.zip(*right) else {
            return Some(None);
        };
        x.plus(&y).map(Some)
    }
}
