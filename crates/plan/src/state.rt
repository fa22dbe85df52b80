//! What a plan holds beside its source.
ghost use Rattle.std.specs.Prelude.{◌≡◌, length};

use polygons::Polygon;

/// The state of a plan: its start, if it has one, how many nodes are settled, the lowest first, and the polygon of each
/// node, whose corners are its corner list.
#[derive(Clone, Copy, Debug)]
pub struct State {
    pub(crate) start: Option<usize>,
    pub(crate) settled: usize,
    // As many lists as a network can have nodes, and not lists that grow: no call is to fail for want of memory.
    pub(crate) lists: [Polygon; 128],
    ghost room: { length lists ≡ 128 },
}
