//! A segment as somebody wrote it down.
ghost use Rattle.std.specs.Prelude.{◌≡◌, length};

use crate::fault::Fault;
use crate::size::{Size, all_apart, all_within};

/// An unchecked record of a segment: nothing is known of its numbers. Its choices are the first
/// `count` of `sizes`, where `count` may be 0 or above 8. The default has no choices.
#[derive(Clone, Copy, Debug, PartialEq, Eq)]
pub struct Record {
    pub tail: usize,
    pub head: usize,
    // Eight places and a count, and not a list that grows: no call is to fail for want of memory. Nor an `ArrayVec`,
    // which cannot be copied and never counts above its places.
    pub count: usize,
    pub sizes: [Size; 8],
    ghost room: { length sizes ≡ 8 },
}

// By hand: the language derives no `Default` for a struct with ghost fields.
impl Default for Record {
    ghost use Rattle.std.specs.Prelude.{◌≡◌};

    ghost is_default = { λ r. (r.tail ≡ 0) × (r.head ≡ 0) × (r.count ≡ 0) };

    /// A record from node 0 to node 0, without choices.
    fn default() -> Record {
        Record {
            tail: 0,
            head: 0,
            count: 0,
            sizes: [Size::default(); 8],
        }
    }
}

impl Record {
    ghost use Rattle.std.specs.Prelude.{◌≡◌};
    ghost use Rattle.network.specs.Choices.{choices};
    ghost use Rattle.network.specs.Records.{Judged};

    /// The choices that the record has: the first `count` sizes, or all 8 where it counts more.
    pub fn choices(&self) -> &[Size]
        ensures { result.now ≡ choices self.now }
    {
        &self.sizes[..self.count.min(8)]
    }

    /// Whether the record may stand in a network of so many nodes. Refuses with 5 where its tail is not below
    /// its head or its head is no node, 6 where it has no choices or more than 8, 7 where a choice is out of
    /// range and 12 where two are equal, whichever comes first; the fault has the given place.
    pub fn check(&self, nodes: usize, place: usize) -> Result<(), Fault>
        ensures { Judged nodes self.now place result }
    {
        if self.tail >= self.head || self.head >= nodes {
            return Err(Fault::BadNode(place));
        }
        if !(1..=8).contains(&self.count) {
            return Err(Fault::ChoiceCount(place));
        }
        if !all_within(self.choices(), 10_000) {
            return Err(Fault::OutOfRange(place));
        }
        if !all_apart(self.choices()) {
            return Err(Fault::EqualChoices(place));
        }
        Ok(())
    }
}
