//! A whole report.
ghost use Rattle.std.specs.Prelude.{◌≡◌, ◌≤◌, length};

use crate::line::Line;
use printout::{Heading, write_each};
use std::fmt;
use std::fmt::{Display, Formatter};

/// A report: the heading, and at the front of `lines` one line for each of the takeoff's `count` weights, in their order.
// Beside `printout::Report`, and not one type with it: this short report tells the least cost at each weight alone, the
// full one the corners with their cones and routes too.
#[derive(Clone, Copy, Debug, PartialEq, Eq)]
pub struct Report {
    pub heading: Heading,
    // As many places as a takeoff can have weights, and how many of them are used, not a list that grows: no call is to
    // fail for want of memory.
    pub count: usize,
    pub lines: [Line; 16],
    ghost few: { count ≤ 16 },
    ghost room: { length lines ≡ 16 },
}

impl Report {
    ghost use Rattle.std.specs.Prelude.{◌≡◌, take};

    /// The lines of the takeoff's weights, in their order.
    pub fn weighed(&self) -> &[Line]
        ensures { result.now ≡ take self.now.count self.now.lines }
    {
        &self.lines[0..self.count]
    }
}

impl Display for Report {
    ghost use Rattle.std.specs.Prelude.{Some};
    ghost use Rattle.report.specs.ReportTexts.{report_text};

    ghost output = { λ x. Some (report_text x) };

    /// The heading and the line of each weight, each ended by a newline.
    fn fmt<W: fmt::Write>(&self, f: &mut Formatter<W>) -> fmt::Result {
        let heading = self.heading;
        write!(f, "{heading}\n")?;
        write_each("", self.weighed(), "\n", f)
    }
}
