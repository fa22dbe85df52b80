//! One node of a run.
ghost use Rattle.std.specs.Prelude.{◌≡◌, ◌≤◌, length, ◌≢◌};
ghost use Rattle.runs.specs.Runs.{NodeAnswer};
ghost use Rattle.runs.specs.Steps.{Gathers};

use crate::letters::take_segment;
use kinds::Kind;
use network::Fault;
use sources::Source;

/// What a node begins with: one at the start, zero elsewhere.
fn beginning<K: Kind>(kind: &K, start: usize, v: usize) -> K::Value
    ensures at_start { v ≡ start → K.Kind.means kind.now result ≡ (K.Kind.ring kind.now).one }
    ensures elsewhere { (v ≢ start) → K.Kind.means kind.now result ≡ (K.Kind.ring kind.now).zero }
{
    if v == start { kind.one() } else { kind.zero() }
}

/// What node `v` gathers from the segments into it, in number order.
// Kind, source and start stand side by side here and below, as at `run`: a struct would borrow the first two for one call.
fn gather<K: Kind, S: Source>(
    kind: &K,
    source: &S,
    start: usize,
    v: usize,
    held: &[K::Value],
) -> Result<K::Value, Fault>
    requires { v ≤ length held.now }
    ensures { Gathers (K.Kind.ring kind.now) (K.Kind.means kind.now) (S.Source.network source.now) start v held.now result }
{
    let mut sum = beginning(kind, start, v);
    // A source is asked number by number; no array is gone over.
    for e in 0..source.segments() {
        if let Some(segment) = source.entering(e, v) {
            sum = take_segment(kind, &segment, &held[segment.listed.tail], &sum).map_err(
                move |stage| Fault::Misfit(v, e, stage),
            )?;
        }
    }
    Ok(sum)
}

/// The value of node `v` in a run from `start`, where the cells of the nodes below it hold theirs: the join over
/// all routes from the start to `v`. Refuses with 5 where one of the two is no node, with 10 where there are fewer
/// cells than nodes below `v`, and with 24 at the first result that does not fit.
pub fn node_value<K: Kind, S: Source>(
    kind: &K,
    source: &S,
    start: usize,
    v: usize,
    held: &[K::Value],
) -> Result<K::Value, Fault>
    ensures { NodeAnswer (K.Kind.ring kind.now) (S.Source.network source.now) start (K.Kind.means kind.now) v held.now result }
{
    let nodes = source.nodes();
    if start >= nodes || v >= nodes {
        return Err(Fault::BadNode(0));
    }
    if held.len() < v {
        return Err(Fault::NoRoom(0));
    }
    gather(kind, source, start, v, held)
}
