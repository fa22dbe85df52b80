//! Cutting a field off the front of bytes.
ghost use Rattle.std.specs.Prelude.{◌≡◌, ◌+◌, length, IfSome, MatchOption};
ghost use Rattle.takeoff.specs.Refusals.{Torn, Begins};

/// A field that was cut off: its tag byte, its value, and the bytes that follow it.
#[derive(Clone, Copy, Debug, PartialEq, Eq)]
pub struct Cut<'a> {
    pub tag: u8,
    pub body: &'a [u8],
    pub rest: &'a [u8],
}

/// The first field; none where the bytes end inside it.
pub(crate) fn first_field(bytes: &[u8]) -> Option<Cut<'_>>
    ensures cuts { MatchOption result (Torn bytes.now) (λ f. Begins bytes.now f.tag f.body.now f.rest.now) }
    ensures parts { IfSome result (λ f. 3 + length f.body.now + length f.rest.now ≡ length bytes.now) }
{
    let [tag, hi, lo, rest @ ..] = bytes else {
        return None;
    };
    let length = u16::from_be_bytes([*hi, *lo]);
    let (body, rest) = rest.split_at_checked(usize::from(length))?;
    Some(Cut {
        tag: *tag,
        body,
        rest,
    })
}
