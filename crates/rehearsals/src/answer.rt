//! What is told of a node.
use printout::Entry;

/// The corners of a node in their order, each with its cone and the route to it: the first `count` of `entries`.
#[derive(Clone, Copy, Debug, PartialEq, Eq)]
pub struct Told {
    // As many places as a node can have corners, and how many of them are used, not a list that grows: no call is to fail
    // for want of memory. An `ArrayVec` is no `Copy`, as what is told is.
    pub count: usize,
    pub entries: [Entry; 32],
}
