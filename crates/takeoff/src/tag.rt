//! The tags of fields.
ghost use Rattle.std.specs.Prelude.{Decides};
ghost use Rattle.takeoff.specs.Format.{Fitting};
ghost use Rattle.takeoff.specs.Inner.{form_of, Tagged};

/// The four tags.
#[derive(Clone, Copy, Debug, PartialEq, Eq)]
pub enum Tag {
    Nodes,
    Segment,
    Points,
    Weight,
}

/// That a byte is none of the tags.
#[derive(Clone, Copy, Debug, PartialEq, Eq)]
pub struct NoTag;

impl TryFrom<u8> for Tag {
    type Error = NoTag;

    ghost try_from_gives = { Tagged };

    /// The tag that a byte stands for; refuses where it is no tag.
    fn try_from(byte: u8) -> Result<Tag, NoTag> {
        match char::from(byte) {
            'N' => Ok(Tag::Nodes),
            'S' => Ok(Tag::Segment),
            'P' => Ok(Tag::Points),
            'W' => Ok(Tag::Weight),
            _ => Err(NoTag),
        }
    }
}

impl Tag {
    /// Whether a value under this tag may have so many bytes.
    pub(crate) fn allows(self, length: usize) -> bool
        ensures { Decides result (Fitting (form_of self) length) }
    {
        match self {
            Tag::Nodes => length == 1,
            Tag::Segment => (6..=34).contains(&length) && length % 4 == 2,
            Tag::Points => length == 2,
            Tag::Weight => length == 8,
        }
    }
}
