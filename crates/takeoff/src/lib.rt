//! Takeoff files: reading what an estimator's drawing program wrote.
#![tactic(auto)]

ghost use Rattle.std.specs.Prelude.{◌≡◌, length};
ghost use Rattle.network.specs.Networks.{arc};
ghost use Rattle.takeoff.specs.Takeoff.{Contents, arcs_of, weights_of};
ghost use Rattle.takeoff.specs.Answers.{Reads, Alone, AcceptsExactly, Leaves, Answered, FrontCounted};

mod field;
mod header;
mod order;
mod reader;
mod tag;
mod theorem;
mod values;

pub use header::Header;
use network::{Fault, Record, Weight};
use reader::Reader;
pub use theorem::one_file_one_takeoff;

/// Reads a takeoff file and answers its header; the segments and weights before any fault go to the front of
/// the two places, and the rest of both places stays. Refuses with 1 where the file ends inside a field, 2 at
/// an unknown tag, 3 at a wrong length, 4 at a field out of order or where the file ends too early, 11 at more
/// than 1,024 segments or 16 weights, 10 where a place is full, 5 at a wrong node, 7 at a price or pressure
/// out of range, 12 at two equal choices and 8 at a weight out of range. The fault has the byte of the field's
/// tag, or the length of a file that ends too early.
pub fn read(bytes: &[u8], segments: &mut [Record], weights: &mut [Weight]) -> Result<Header, Fault>
    ensures reads_a_lawful_beginning { Reads (length segments.old) (length weights.old) bytes.now result }
    ensures no_other_answer_is_right { Alone (length segments.old) (length weights.old) bytes.now result }
    ensures accepts_exactly_takeoffs_that_find_room { AcceptsExactly (length segments.old) (length weights.old) bytes.now result }
    ensures writes_the_segments { Leaves (length segments.old) (length weights.old) bytes.now result arcs_of arc segments.old segments.new }
    ensures counts_the_choices_of_each { (c : Contents) → Answered (length segments.old) (length weights.old) bytes.now c result → FrontCounted c segments.new }
    ensures writes_the_weights { Leaves (length segments.old) (length weights.old) bytes.now result weights_of (λ w. w) weights.old weights.new }
    ensures keeps_both_lengths { (length segments.new ≡ length segments.old) × (length weights.new ≡ length weights.old) }
{
    Reader::default().run(bytes, segments, weights)
}
