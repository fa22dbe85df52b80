//! A segment of a network.
ghost use Rattle.std.specs.Prelude.{◌≤◌};
ghost use Rattle.network.specs.Choices.{Ranged, choices};

use crate::choice::Choice;
use crate::record::Record;
use crate::size::Size;

/// A segment: a record whose choices are 1 to 8 and each in its range.
#[derive(Clone, Copy, Debug, PartialEq, Eq)]
pub struct Segment {
    pub listed: Record,
    ghost some: { 1 ≤ listed.count },
    ghost few: { listed.count ≤ 8 },
    ghost ranged: { Ranged (choices listed) },
}

/// The choices of a segment, in order, each made where it is asked for.
#[derive(Drop)]
pub struct Choices<'a> {
    sizes: &'a [Size],
    ghost ranged: { Ranged sizes.now },
}

impl Segment {
    ghost use Rattle.std.specs.Prelude.{◌≡◌, ◌<◌, ◌≤◌, MatchOption};
    ghost use Rattle.network.specs.Choices.{choice as choice_at, choices};

    /// Choice number `k`; none where there is no such choice.
    pub fn choice(&self, k: usize) -> Option<Choice>
        ensures { MatchOption result (self.now.listed.count ≤ k) (λ c. (k < self.now.listed.count) × (c.size ≡ choice_at (choices self.now.listed) k)) }
    {
        let size = self.listed.choices().get(k)?;
        Some(Choice { size: *size })
    }

    /// All choices, in order.
    pub fn choices(&self) -> Choices<'_>
        ensures { result.sizes.now ≡ choices self.now.listed }
    {
        Choices {
            sizes: self.listed.choices(),
        }
    }
}

impl<'a> Iterator for Choices<'a> {
    ghost use Rattle.std.specs.Iterator.{YieldsFirstBy, item_count};

    type Item = Choice;

    ghost next_gives = { YieldsFirstBy (λ c. c.size) (λ s. s.sizes.now) };

    ghost remaining = { item_count (λ s. s.sizes.now) };

    fn next(&mut self) -> Option<Choice> {
        let (first, others) = self.sizes.split_first()?;
        self.sizes = others;
        Some(Choice { size: *first })
    }
}
