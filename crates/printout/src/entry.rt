//! What is printed of one corner.
ghost use Rattle.std.specs.Prelude.{Some};
ghost use Rattle.printout.specs.Texts.{entry_text};

use crate::corner_line::CornerLine;
use crate::route_line::RouteLine;
use std::fmt;
use std::fmt::{Display, Formatter};

/// The two lines of a corner of the target.
#[derive(Clone, Copy, Debug, Default, PartialEq, Eq)]
pub struct Entry {
    pub corner: CornerLine,
    pub route: RouteLine,
}

impl Display for Entry {
    ghost output = { λ e. Some (entry_text e) };

    /// The line of the corner and that of its route.
    fn fmt<W: fmt::Write>(&self, f: &mut Formatter<W>) -> fmt::Result {
        let corner = self.corner;
        let route = self.route;
        write!(f, "{corner}\n{route}")
    }
}
