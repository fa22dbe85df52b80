//! One step of a route.
ghost use Rattle.std.specs.Prelude.{Some};

use std::fmt;
use std::fmt::{Display, Formatter};

/// A step: the number of a segment and the number of one of its choices, both unchecked.
#[derive(Clone, Copy, Debug, Default, PartialEq, Eq)]
pub struct Step {
    pub segment: usize,
    pub choice: usize,
}

impl Display for Step {
    ghost use Rattle.network.specs.Texts.{step_text};

    ghost output = { λ x. Some (step_text x) };

    /// The segment and the choice, with a point between them.
    fn fmt<W: fmt::Write>(&self, f: &mut Formatter<W>) -> fmt::Result {
        let segment = self.segment;
        let choice = self.choice;
        write!(f, "{segment}.{choice}")
    }
}
