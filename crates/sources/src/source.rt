//! The interface of a source.
ghost use Rattle.std.specs.Prelude.{◌≡◌, length, MatchOption};
ghost use Rattle.std.specs.Option.{option_map};
ghost use Rattle.network.specs.Networks.{Network, Ruled, at, segment_arc};
ghost use Rattle.sources.specs.Entering.{Enters, Missing};

use network::Segment;

/// A source: something that answers what its network is, number by number. It counts as unchanged while its
/// network is the same.
pub trait Source {
    ghost network: { Self → Network };

    // Every network that a source means keeps the rules.
    ghost ruled: { (s : Self) → Ruled (network s) };

    /// How many nodes there are.
    fn nodes(&self) -> usize
        ensures { result ≡ (network self.now).nodes };

    /// How many segments are numbered, present or absent.
    fn segments(&self) -> usize
        ensures { result ≡ length (network self.now).arcs };

    /// The segment of that number; none where it is absent, as it is from `segments` on.
    fn segment(&self, e: usize) -> Option<Segment>
        ensures { option_map segment_arc result ≡ at (network self.now) e };

    /// The segment of that number, if it is present and leads into node `v`.
    fn entering(&self, e: usize, v: usize) -> Option<Segment>
        ensures { MatchOption result (Missing (network self.now) e v) (λ s. Enters (network self.now) e v s) }
    {
        self.segment(e).filter(|segment| segment.listed.head == v)
    }
}
