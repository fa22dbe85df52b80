//! What one segment adds to a node.
ghost use Rattle.network.specs.Networks.{segment_arc};
ghost use Rattle.runs.specs.Steps.{Lettered, Taken};

use kinds::Kind;
use network::{Segment, Stage};

/// The letters of the segment, joined in the order of its choices; none where a join does not fit.
fn joined_letters<K: Kind>(kind: &K, segment: &Segment) -> Option<K::Value>
    ensures { Lettered (K.Kind.ring kind.now) (K.Kind.means kind.now) (segment_arc segment.now) result }
{
    let mut sum = kind.zero();
    for choice in segment.choices() {
        sum = kind.join(&sum, &kind.letter(choice))?;
    }
    Some(sum)
}

/// What a node has gathered once the segment is taken too, or the stage that does not fit.
pub(crate) fn take_segment<K: Kind>(
    kind: &K,
    segment: &Segment,
    tail: &K::Value,
    sum: &K::Value,
) -> Result<K::Value, Stage>
    ensures { Taken (K.Kind.ring kind.now) (K.Kind.means kind.now) (segment_arc segment.now) (K.Kind.means kind.now tail.now) (K.Kind.means kind.now sum.now) result }
{
    let letters = joined_letters(kind, segment).ok_or(Stage::Choices)?;
    let more = kind.chain(tail, &letters).ok_or(Stage::Chain)?;
    kind.join(sum, &more).ok_or(Stage::Join)
}
