//! The order of fields.
ghost use Rattle.std.specs.Prelude.{◌≡◌, is_some};
ghost use Rattle.takeoff.specs.Inner.{ordered};

use crate::tag::Tag;

/// What was read last: nothing, the nodes or a segment, the points or a weight.
#[derive(Clone, Copy, Debug, Default, PartialEq, Eq)]
pub enum Stage {
    #[default]
    Start,
    Drawing,
    Aiming,
}

impl Stage {
    /// Goes on to a field with this tag; none, and stays, where it may not come next.
    pub(crate) fn advance(&mut self, tag: Tag) -> Option<()>
        ensures { (self.new, is_some result) ≡ ordered self.old tag }
    {
        match (*self, tag) {
            (Stage::Start, Tag::Nodes) => *self = Stage::Drawing,
            (Stage::Drawing, Tag::Segment) => {}
            (Stage::Drawing, Tag::Points) => *self = Stage::Aiming,
            (Stage::Aiming, Tag::Weight) => {}
            _ => return None,
        }
        Some(())
    }
}
