//! A source with closed nodes.
ghost use Rattle.std.specs.Prelude.{◌≡◌, ◌≤◌, length};

use network::{Fault, Segment};
use sources::Source;

/// A closing: the source below with up to 16 nodes closed. A segment with a closed end is absent; every other
/// is the one below. The closed nodes are the first `count` of `closed`.
#[derive(Debug, Drop)]
pub struct Closing<S> {
    pub(crate) below: S,
    // Sixteen places and how many are used, and not a list that grows: no call is to fail for want of memory. Nor an
    // `ArrayVec`: the definition of the closed nodes reads both fields.
    pub(crate) closed: [usize; 16],
    pub(crate) count: usize,
    ghost short: { count ≤ 16 },
    ghost room: { length closed ≡ 16 },
}

impl<S: Source> Closing<S> {
    ghost use Rattle.std.specs.Prelude.{◌≡◌, [], ◌∷◌, ◌++◌, Decides, MatchResult, false};
    ghost use Rattle.sources.specs.Answers.{Answered};
    ghost use Rattle.closings.specs.Closings.{among, closed_nodes, closing_network, without};
    ghost use Rattle.closings.specs.Shutting.{MayClose, MayNotClose};

    /// The closing over a source, with no node closed.
    pub fn over(below: S) -> Closing<S>
        ensures below { result.below ≡ below }
        ensures closed { closed_nodes result ≡ [] }
    {
        Closing {
            below,
            closed: [0; 16],
            count: 0,
        }
    }

    /// The source below.
    pub fn into_below(self) -> S
        ensures { result ≡ self.below }
    {
        self.below
    }

    /// Whether this closing closes `v`.
    fn closes(&self, v: usize) -> bool
        ensures { result ≡ among (closed_nodes self.now) v }
    {
        self.closed[..self.count].contains(&v)
    }

    /// Whether both ends of a segment are open.
    fn spares(&self, segment: &Segment) -> bool
        ensures { Decides result ((among (closed_nodes self.now) segment.now.listed.tail ≡ false) × (among (closed_nodes self.now) segment.now.listed.head ≡ false)) }
    {
        !self.closes(segment.listed.tail) && !self.closes(segment.listed.head)
    }

    /// Closes node `v`. Refuses with 5 where there is no such node, with 25 where this closing has closed it
    /// already, and with 26 where it has closed 16 nodes. The closing is then as it was.
    pub fn close(&mut self, v: usize) -> Result<(), Fault>
        ensures answers { Answered (MayClose (S.Source.network self.old.below).nodes (closed_nodes self.old) v) (MayNotClose (S.Source.network self.old.below).nodes (closed_nodes self.old) v) result }
        ensures closed { MatchResult result (λ _. (closed_nodes self.new ≡ closed_nodes self.old ++ v ∷ []) × (self.new.below ≡ self.old.below)) (λ _. self.new ≡ self.old) }
        ensures network { MatchResult result (λ _. closing_network S.Source.network self.new ≡ without (v ∷ []) (closing_network S.Source.network self.old)) (λ _. closing_network S.Source.network self.new ≡ closing_network S.Source.network self.old) }
    {
        if v >= self.below.nodes() {
            return Err(Fault::BadNode(0));
        }
        if self.closes(v) {
            return Err(Fault::ClosedAlready);
        }
        if self.count >= 16 {
            return Err(Fault::ClosedFull);
        }
        self.closed[self.count] = v;
        self.count += 1;
        Ok(())
    }
}

impl<S: Source> Source for Closing<S> {
    ghost use Rattle.closings.specs.Closings.{closed_nodes, closing_network};
    ghost use Rattle.closings.specs.ClosingRules.{without_ruled};

    ghost network = { closing_network S.Source.network };

    ghost ruled = { λ s. without_ruled (closed_nodes s) (S.Source.network s.below) (S.Source.ruled s.below) };

    fn nodes(&self) -> usize {
        self.below.nodes()
    }

    fn segments(&self) -> usize {
        self.below.segments()
    }

    fn segment(&self, e: usize) -> Option<Segment> {
        self.below.segment(e).filter(|segment| self.spares(segment))
    }
}
