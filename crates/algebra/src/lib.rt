//! Semirings and the joins over routes: definitions, proofs and what they show.
#![tactic(auto)]

ghost use Rattle.algebra.specs.Theorems.{Listed, ListedThrough, ListedExtended};

/// There is a list of all routes between two nodes, of those whose last segment is at most a given one, and of
/// those to the tail of a segment, extended by its choices. So what is said of any such list is said of one.
pub fn routes_can_be_listed() -> u8
    ensures all { Listed }
    ensures through { ListedThrough }
    ensures extended { ListedExtended }
{
    0
}
