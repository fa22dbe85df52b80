//! The interface of a kind.
ghost use Rattle.std.specs.Prelude.{◌≡◌};
ghost use Rattle.algebra.specs.Semirings.{Algebra, Semiring, Fitting};
ghost use Rattle.kinds.specs.Answers.{Answers};

use network::Choice;

/// A kind: a sort of value that a run computes, with a join for routes beside one another, a chain for
/// routes one after the other, and a letter for each choice. What its values mean lies in a semiring.
pub trait Kind {
    type Value: Drop;

    ghost ring: { Self → Algebra };

    ghost means: { (k : Self) → Self.Value → (ring k).Carrier };

    /// The value of no route at all.
    fn zero(&self) -> Self::Value
        ensures { means self.now result ≡ (ring self.now).zero };

    /// The value of the empty route.
    fn one(&self) -> Self::Value
        ensures { means self.now result ≡ (ring self.now).one };

    /// The value of a step by this choice.
    fn letter(&self, choice: Choice) -> Self::Value
        ensures { means self.now result ≡ (ring self.now).letter choice.size };

    /// The value of the routes of both; none where it does not fit.
    fn join(&self, left: &Self::Value, right: &Self::Value) -> Option<Self::Value>
        ensures { Answers (ring self.now) (means self.now) ((ring self.now).join (means self.now left.now) (means self.now right.now)) result };

    /// The value of the routes of one followed by those of the other; none where it does not fit.
    fn chain(&self, left: &Self::Value, right: &Self::Value) -> Option<Self::Value>
        ensures { Answers (ring self.now) (means self.now) ((ring self.now).chain (means self.now left.now) (means self.now right.now)) result };

    ghost lawful: { (k : Self) → Semiring (ring k) };

    ghost fitting: { (k : Self) → Fitting (ring k) (means k) };
}
