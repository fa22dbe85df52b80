//! Taking stored bytes apart.
ghost use Rattle.std.specs.Prelude.{◌≡◌, length};

/// The pieces that bytes hold, in order, each behind two bytes that say its length, high byte first. They end where
/// fewer than two bytes are left.
#[derive(Drop)]
pub struct Pieces<'a> {
    rest: &'a [u8],
}

/// That the bytes end inside a piece.
#[derive(Clone, Copy, Debug, PartialEq, Eq)]
pub struct CutShort;

impl<'a> Pieces<'a> {
    /// The pieces of these bytes.
    pub fn new(bytes: &'a [u8]) -> Pieces<'a>
        ensures { result.rest.now ≡ bytes.now }
    {
        Pieces { rest: bytes }
    }
}

impl<'a> Iterator for Pieces<'a> {
    ghost use Rattle.std.specs.Iterator.{at_most};
    ghost use Rattle.stored.specs.Taking.{Takes};

    type Item = Result<&'a [u8], CutShort>;

    ghost next_gives = { Takes };

    ghost remaining = { λ s. at_most (length s.rest.now) };

    /// The next piece, or that it is cut short, behind which nothing follows.
    fn next(&mut self) -> Option<Result<&'a [u8], CutShort>> {
        let [high, low, more @ ..] = self.rest else {
            return None;
        };
        let length = usize::from(u16::from_be_bytes([*high, *low]));
        let Some((piece, after)) = more.split_at_checked(length) else {
            self.rest = &more[more.len()..];
            return Some(Err(CutShort));
        };
        self.rest = after;
        Some(Ok(piece))
    }
}
