//! What the value of a field says.
ghost use Rattle.std.specs.Prelude.{◌≡◌, ℕ, ◌+◌, ◌*◌, ◌≤◌, [], ◌∷◌, length};
ghost use Rattle.takeoff.specs.Format.{Fitting, Weighing, Sayable, value, two, four, size_bytes, In16, In32, Short};
ghost use Rattle.takeoff.specs.Inner.{form_of, Decoded, Listing};

use crate::tag::Tag;
use network::{Record, Size, Weight};

/// What a field says, unchecked.
#[derive(Clone, Copy, Debug, PartialEq, Eq)]
pub enum Item {
    Nodes(usize),
    Segment(Record),
    Points(usize, usize),
    Weight(Weight),
}

/// The number that two bytes say.
fn from_two(hi: u8, lo: u8) -> i32
    ensures { (two result ≡ hi ∷ lo ∷ []) × (In16 result) }
{
    i32::from(i16::from_be_bytes([hi, lo]))
}

/// The number that four bytes say.
fn from_four(bytes: &[u8; 4]) -> i32
    ensures { (four result ≡ bytes.now) × (In32 result) }
{
    i32::from_be_bytes(*bytes)
}

/// The choice that four bytes say.
fn size_from(bytes: &[u8; 4]) -> Size
    ensures { (size_bytes result ≡ bytes.now) × (Short result) }
{
    let [a, b, c, d] = *bytes;
    Size {
        price: from_two(a, b),
        pressure: from_two(c, d),
    }
}

/// The segment with these ends and the choices that the bytes say.
fn segment_from(tail: usize, head: usize, bytes: &[u8]) -> Record
    requires { (choices : ℕ) × (choices ≤ 8) × (length bytes.now ≡ 4 * choices) }
    ensures { Listing tail head bytes.now result }
{
    let (chunks, _) = bytes.as_chunks();
    let mut sizes = [Size::default(); 8];
    // A size is written by its place: nothing is known after a loop of what is written through `zip`, so no proof would close.
    for (j, chunk) in chunks.iter().enumerate() {
        sizes[j] = size_from(chunk);
    }
    Record {
        tail,
        head,
        count: chunks.len(),
        sizes,
    }
}

/// The weight that eight bytes say.
fn weight_from(body: &[u8]) -> Weight
    requires { length body.now ≡ 8 }
    ensures { (value (Weighing result) ≡ body.now) × (Sayable (Weighing result)) }
{
    let (parts, _) = body.as_chunks();
    Weight {
        a: from_four(&parts[0]),
        b: from_four(&parts[1]),
    }
}

/// What a value says under its tag, where it has a length that the tag allows.
pub(crate) fn decode(tag: Tag, body: &[u8]) -> Item
    requires { Fitting (form_of tag) (length body.now) }
    ensures { Decoded tag body.now result }
{
    // A match over the tag, and not a table of functions: the cases make different things.
    match tag {
        Tag::Nodes => Item::Nodes(usize::from(body[0])),
        Tag::Segment => Item::Segment(segment_from(
            usize::from(body[0]),
            usize::from(body[1]),
            &body[2..],
        )),
        Tag::Points => Item::Points(usize::from(body[0]), usize::from(body[1])),
        Tag::Weight => Item::Weight(weight_from(body)),
    }
}
