//! A whole report.
ghost use Rattle.std.specs.Prelude.{◌≡◌, ◌≤◌, length};

use crate::each::write_each;
use crate::entry::Entry;
use crate::heading::Heading;
use crate::weight_line::WeightLine;
use std::fmt;
use std::fmt::{Display, Formatter};

/// A report: the heading, at the front of `entries` one for each of the target's `corners` in their order, and at the
/// front of `lines` one for each of the takeoff's `weights` in their order.
#[derive(Clone, Copy, Debug, PartialEq, Eq)]
pub struct Report {
    pub heading: Heading,
    // As many places as a node can have corners and a takeoff weights, and how many of them are used, not lists that
    // grow: no call is to fail for want of memory.
    pub corners: usize,
    pub entries: [Entry; 32],
    pub weights: usize,
    pub lines: [WeightLine; 16],
    ghost few_corners: { corners ≤ 32 },
    ghost corner_room: { length entries ≡ 32 },
    ghost few_weights: { weights ≤ 16 },
    ghost weight_room: { length lines ≡ 16 },
}

impl Report {
    ghost use Rattle.std.specs.Prelude.{◌≡◌, take};

    /// The entries of the target's corners, in their order.
    pub fn cornered(&self) -> &[Entry]
        ensures { result.now ≡ take self.now.corners self.now.entries }
    {
        &self.entries[0..self.corners]
    }

    /// The lines of the takeoff's weights, in their order.
    pub fn weighed(&self) -> &[WeightLine]
        ensures { result.now ≡ take self.now.weights self.now.lines }
    {
        &self.lines[0..self.weights]
    }
}

impl Display for Report {
    ghost use Rattle.std.specs.Prelude.{Some};
    ghost use Rattle.printout.specs.ReportTexts.{report_text};

    ghost output = { λ x. Some (report_text x) };

    /// The heading, the two lines of each corner, and the line of each weight, each ended by a newline.
    fn fmt<W: fmt::Write>(&self, f: &mut Formatter<W>) -> fmt::Result {
        let heading = self.heading;
        write!(f, "{heading}\n")?;
        write_each("", self.cornered(), "\n", f)?;
        write_each("", self.weighed(), "\n", f)
    }
}
