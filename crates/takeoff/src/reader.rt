//! Reading a file field by field.
ghost use Rattle.std.specs.Prelude.{◌≡◌, ◌+◌, ◌^◌, ◌<◌, length, MatchResult, ◌≢◌};
ghost use Rattle.network.specs.declared.fault.Fault.TheVariants.{OutOfOrder};
ghost use Rattle.takeoff.specs.Takeoff.{Empty};
ghost use Rattle.takeoff.specs.Inner.{reader_of, Stepped, Halted, Finished};
ghost use Rattle.takeoff.specs.declared.order.Stage.TheVariants as StageIs;

use crate::field::first_field;
use crate::header::Header;
use crate::order::Stage;
use crate::tag::Tag;
use crate::values::decode;
use network::{Fault, Record, Weight};

/// How far the file was read, and what it said but for the segments and weights themselves. The default has read
/// nothing.
#[derive(Clone, Copy, Debug, Default, PartialEq, Eq)]
pub struct Reader {
    pub at: usize,
    pub stage: Stage,
    pub header: Header,
}

impl Reader {
    /// Reads the field at the front of the bytes and answers what follows it. Refuses with the number of the
    /// first check that fails.
    fn step<'a>(
        &mut self,
        bytes: &'a [u8],
        segments: &mut [Record],
        weights: &mut [Weight],
    ) -> Result<&'a [u8], Fault>
        requires { self.old.at + length bytes.now < 2 ^ 64 }
        ensures { MatchResult result (λ x. Stepped self.old self.new bytes.now x.now segments.old segments.new weights.old weights.new) (λ f. Halted self.old bytes.now f segments.old segments.new weights.old weights.new) }
    {
        let cut = first_field(bytes).ok_or(Fault::CutShort(self.at))?;
        let tag = Tag::try_from(cut.tag).map_err(|_| Fault::UnknownTag(self.at))?;
        if !tag.allows(cut.body.len()) {
            return Err(Fault::WrongLength(self.at));
        }
        self.stage.advance(tag).ok_or(Fault::OutOfOrder(self.at))?;
        self.header
            .take(decode(tag, cut.body), self.at, segments, weights)?;
        self.at += 3 + cut.body.len();
        Ok(cut.rest)
    }

    /// The header where nothing is missing. Refuses with 4 where the points have not been read.
    fn end(&self) -> Result<Header, Fault>
        ensures { MatchResult result (λ h. (self.now.stage ≡ StageIs.Aiming) × (h ≡ self.now.header)) (λ f. (f ≡ OutOfOrder self.now.at) × (self.now.stage ≢ StageIs.Aiming)) }
    {
        if self.stage == Stage::Aiming {
            Ok(self.header)
        } else {
            Err(Fault::OutOfOrder(self.at))
        }
    }

    /// Reads the whole file, its segments and weights to the two places, and answers the header. Refuses with
    /// the first fault.
    pub(crate) fn run(
        &mut self,
        bytes: &[u8],
        segments: &mut [Record],
        weights: &mut [Weight],
    ) -> Result<Header, Fault>
        requires { self.old ≡ reader_of Empty }
        ensures { Finished bytes.now result segments.old segments.new weights.old weights.new }
    {
        let mut rest = bytes;
        while !rest.is_empty() {
            rest = self.step(rest, segments, weights)?;
        }
        self.end()
    }
}
