//! The first line of a report.
ghost use Rattle.std.specs.Prelude.{Some};
ghost use Rattle.printout.specs.Texts.{heading_text};

use std::fmt;
use std::fmt::{Display, Formatter};

/// What the network is: its nodes and segments, the start and the target.
#[derive(Clone, Copy, Debug, Default, PartialEq, Eq)]
pub struct Heading {
    pub nodes: usize,
    pub segments: usize,
    pub start: usize,
    pub target: usize,
}

impl Display for Heading {
    ghost output = { λ h. Some (heading_text h) };

    /// The four numbers, each after its name.
    fn fmt<W: fmt::Write>(&self, f: &mut Formatter<W>) -> fmt::Result {
        let nodes = self.nodes;
        let segments = self.segments;
        let start = self.start;
        let target = self.target;
        write!(
            f,
            "nodes {nodes} segments {segments} start {start} target {target}"
        )
    }
}
