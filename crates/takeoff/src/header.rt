//! What a takeoff says besides its segments and weights, and taking what a field says.
use crate::values::Item;
use network::{Fault, Record, Weight};

/// The number of nodes, start and target, and how many segments and weights were read. The default is what it is
/// before anything was read.
#[derive(Clone, Copy, Debug, Default, PartialEq, Eq)]
pub struct Header {
    pub nodes: usize,
    pub start: usize,
    pub target: usize,
    // How much of the caller's two places is filled, and not lists that grow: no call is to fail for want of memory.
    pub segments: usize,
    pub weights: usize,
}

impl Header {
    ghost use Rattle.std.specs.Prelude.{◌≡◌, ◌<◌, length, MatchResult, OnOk, slice_set};
    ghost use Rattle.network.specs.declared.fault.Fault.TheVariants.{BadNode};
    ghost use Rattle.network.specs.declared.fault.Place.TheVariants.{At};
    ghost use Rattle.network.specs.Faults.{number, place as place_of};
    ghost use Rattle.takeoff.specs.Takeoff.{Counted};
    ghost use Rattle.takeoff.specs.Inner.{Admits, AdmitsSegment, AdmitsWeight, Bars, SegmentBars, WeightBars, counted, stored_segments, stored_weights};
    ghost use Rattle.takeoff.specs.declared.values.Item.TheVariants as ItemIs;

    /// Takes the number of nodes. Refuses with 5 where it is not 1 to 128.
    fn take_nodes(&mut self, nodes: usize, at: usize) -> Result<(), Fault>
        ensures answer { MatchResult result (λ _. Counted nodes) (λ f. (f ≡ BadNode at) × (Counted nodes → ⊥)) }
        ensures header { OnOk result (self.new ≡ counted self.old (ItemIs.Nodes nodes)) }
    {
        if !(1..=128).contains(&nodes) {
            return Err(Fault::BadNode(at));
        }
        self.nodes = nodes;
        Ok(())
    }

    /// Takes start and target. Refuses with 5 where one of them is no node.
    fn take_points(&mut self, start: usize, target: usize, at: usize) -> Result<(), Fault>
        ensures answer { MatchResult result (λ _. (start < self.old.nodes) × (target < self.old.nodes)) (λ f. (f ≡ BadNode at) × ((start < self.old.nodes) × (target < self.old.nodes) → ⊥)) }
        ensures header { OnOk result (self.new ≡ counted self.old (ItemIs.Points start target)) }
    {
        if start >= self.nodes || target >= self.nodes {
            return Err(Fault::BadNode(at));
        }
        self.start = start;
        self.target = target;
        Ok(())
    }

    /// Takes a segment to the next free element of its place. Refuses with 11 where there are 1,024, 10 where
    /// the place is full, and 5, 7 or 12 where the segment may not stand in the network.
    fn take_segment(&mut self, segment: Record, at: usize, room: &mut [Record]) -> Result<(), Fault>
        ensures answer { MatchResult result (λ _. AdmitsSegment (length room.old) self.old segment) (λ f. (place_of f ≡ At at) × SegmentBars (length room.old) self.old segment (number f)) }
        ensures header { OnOk result (self.new ≡ counted self.old (ItemIs.Segment segment)) }
        ensures room_after { MatchResult result (λ _. room.new ≡ slice_set room.old self.old.segments segment) (λ _. room.new ≡ room.old) }
    {
        if self.segments >= 1024 {
            return Err(Fault::TooMany(at));
        }
        if self.segments >= room.len() {
            return Err(Fault::NoRoom(at));
        }
        segment.check(self.nodes, at)?;
        room[self.segments] = segment;
        self.segments += 1;
        Ok(())
    }

    // Segments and weights are taken alike, but by other counts and other rules: one function for both would be passed
    // the rule and where to count, and be no plainer.

    /// Takes a weight to the next free element of its place. Refuses with 11 where there are 16, 10 where the
    /// place is full, and 8 where the weight is out of range.
    fn take_weight(&mut self, weight: Weight, at: usize, room: &mut [Weight]) -> Result<(), Fault>
        ensures answer { MatchResult result (λ _. AdmitsWeight (length room.old) self.old weight) (λ f. (place_of f ≡ At at) × WeightBars (length room.old) self.old weight (number f)) }
        ensures header { OnOk result (self.new ≡ counted self.old (ItemIs.Weight weight)) }
        ensures room_after { MatchResult result (λ _. room.new ≡ slice_set room.old self.old.weights weight) (λ _. room.new ≡ room.old) }
    {
        if self.weights >= 16 {
            return Err(Fault::TooMany(at));
        }
        if self.weights >= room.len() {
            return Err(Fault::NoRoom(at));
        }
        if !weight.in_range() {
            return Err(Fault::WeightRange(at));
        }
        room[self.weights] = weight;
        self.weights += 1;
        Ok(())
    }

    // The two places are given side by side here and in the reader, and not as one struct of two exclusive references,
    // which would be no plainer: each contract says of either place by itself what it holds before and after.

    /// Takes what a field says, or refuses it with the number of the first check that fails; the fault has the
    /// given place.
    pub(crate) fn take(
        &mut self,
        item: Item,
        at: usize,
        segments: &mut [Record],
        weights: &mut [Weight],
    ) -> Result<(), Fault>
        ensures answer { MatchResult result (λ _. Admits (length segments.old) (length weights.old) self.old item) (λ f. (place_of f ≡ At at) × Bars (length segments.old) (length weights.old) self.old item (number f)) }
        ensures header { OnOk result (self.new ≡ counted self.old item) }
        ensures segments_after { MatchResult result (λ _. segments.new ≡ stored_segments self.old item segments.old) (λ _. segments.new ≡ segments.old) }
        ensures weights_after { MatchResult result (λ _. weights.new ≡ stored_weights self.old item weights.old) (λ _. weights.new ≡ weights.old) }
    {
        // A match over what was read, and not a table of functions: each case has other parts.
        match item {
            Item::Nodes(nodes) => self.take_nodes(nodes, at),
            Item::Segment(segment) => self.take_segment(segment, at, segments),
            Item::Points(start, target) => self.take_points(start, target, at),
            Item::Weight(weight) => self.take_weight(weight, at, weights),
        }
    }
}
