//! Why a call refuses.
ghost use Rattle.std.specs.Prelude.{◌≡◌, Some};
ghost use Rattle.network.specs.Faults.{number as number_of, place as place_of};
ghost use Rattle.network.specs.Texts.{stage_text, place_text, fault_text};

use std::error::Error;
use std::fmt;
use std::fmt::{Display, Formatter};

/// The stages at which a run takes a segment into account: its letters are joined, the tail's value is
/// chained with that, and the result is joined to what the node has gathered.
#[derive(Clone, Copy, Debug, PartialEq, Eq)]
pub enum Stage {
    Choices,
    Chain,
    Join,
}

/// Where a fault is: a byte or a record by its number, or an operation of a run.
#[derive(Clone, Copy, Debug, PartialEq, Eq)]
pub enum Place {
    At(usize),
    During(usize, usize, Stage),
}

/// A fault: what is wrong, and where. A case with a number has it as its place.
#[derive(Clone, Copy, Debug, PartialEq, Eq)]
pub enum Fault {
    CutShort(usize),
    UnknownTag(usize),
    WrongLength(usize),
    OutOfOrder(usize),
    BadNode(usize),
    ChoiceCount(usize),
    OutOfRange(usize),
    WeightRange(usize),
    GridShape,
    NoRoom(usize),
    TooMany(usize),
    EqualChoices(usize),
    NoStart,
    AllSettled,
    NotSettled,
    NoCorner,
    Misfit(usize, usize, Stage),
    ClosedAlready,
    ClosedFull,
}

impl Fault {
    /// The number under which the fault is reported.
    pub fn number(&self) -> u8
        ensures { result ≡ number_of self.now }
    {
        // A table, and not a cast: the numbers have gaps, and most cases carry their place.
        match self {
            Fault::CutShort(_) => 1,
            Fault::UnknownTag(_) => 2,
            Fault::WrongLength(_) => 3,
            Fault::OutOfOrder(_) => 4,
            Fault::BadNode(_) => 5,
            Fault::ChoiceCount(_) => 6,
            Fault::OutOfRange(_) => 7,
            Fault::WeightRange(_) => 8,
            Fault::GridShape => 9,
            Fault::NoRoom(_) => 10,
            Fault::TooMany(_) => 11,
            Fault::EqualChoices(_) => 12,
            Fault::NoStart => 20,
            Fault::AllSettled => 21,
            Fault::NotSettled => 22,
            Fault::NoCorner => 23,
            Fault::Misfit(_, _, _) => 24,
            Fault::ClosedAlready => 25,
            Fault::ClosedFull => 26,
        }
    }

    /// Where the fault is.
    pub fn place(&self) -> Place
        ensures { result ≡ place_of self.now }
    {
        match self {
            Fault::CutShort(at)
            | Fault::UnknownTag(at)
            | Fault::WrongLength(at)
            | Fault::OutOfOrder(at)
            | Fault::BadNode(at)
            | Fault::ChoiceCount(at)
            | Fault::OutOfRange(at)
            | Fault::WeightRange(at)
            | Fault::NoRoom(at)
            | Fault::TooMany(at)
            | Fault::EqualChoices(at) => Place::At(*at),
            Fault::Misfit(node, segment, stage) => Place::During(*node, *segment, *stage),
            Fault::GridShape
            | Fault::NoStart
            | Fault::AllSettled
            | Fault::NotSettled
            | Fault::NoCorner
            | Fault::ClosedAlready
            | Fault::ClosedFull => Place::At(0),
        }
    }
}

impl Display for Stage {
    ghost output = { λ s. Some (stage_text s) };

    /// The word of the stage.
    fn fmt<W: fmt::Write>(&self, f: &mut Formatter<W>) -> fmt::Result {
        match self {
            Stage::Choices => f.write_str("choices"),
            Stage::Chain => f.write_str("chain"),
            Stage::Join => f.write_str("join"),
        }
    }
}

impl Display for Place {
    ghost output = { λ p. Some (place_text p) };

    /// The number, or node, segment and stage.
    fn fmt<W: fmt::Write>(&self, f: &mut Formatter<W>) -> fmt::Result {
        match self {
            Place::At(at) => write!(f, "at {at}"),
            Place::During(node, segment, stage) => write!(
                f,
                "node {node} segment {segment} stage {stage}"
            ),
        }
    }
}

impl Display for Fault {
    ghost output = { λ x. Some (fault_text x) };

    /// The line that says that a takeoff is refused.
    fn fmt<W: fmt::Write>(&self, f: &mut Formatter<W>) -> fmt::Result {
        let number = self.number();
        let place = self.place();
        write!(f, "refused {number} {place}")
    }
}

impl Error for Fault {}
