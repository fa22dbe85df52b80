//! A whole run.
ghost use Rattle.runs.specs.Runs.{Ran};
ghost use Rattle.runs.specs.Sheets.{KeepsCells};

use crate::node::node_value;
use crate::sheet::Sheet;
use kinds::Kind;
use network::Fault;
use sources::Source;

/// Runs a kind over a source: each node's cell of the sheet then holds the join over all routes from the start to
/// it. Refuses with 5 where the start is no node and with 10 where the sheet is shorter than the nodes, and leaves
/// the sheet as it was. Ends with 24 at the first result that does not fit: the nodes before it hold their values,
/// and the rest of the sheet is as it was, as are always the cells past the nodes.
// Kind, source and start stand side by side, and not in a struct: it would borrow the first two for this one call.
pub fn run<K: Kind, S: Source>(
    kind: &K,
    source: &S,
    start: usize,
    sheet: &mut Sheet<'_, K::Value>,
) -> Result<(), Fault>
    ensures keeps_its_cells { KeepsCells sheet.old sheet.new }
    ensures holds_the_join_over_all_routes { Ran (K.Kind.ring kind.now) (S.Source.network source.now) start (K.Kind.means kind.now) sheet.old.cells.now sheet.new.cells.now result }
{
    let nodes = source.nodes();
    if start >= nodes {
        return Err(Fault::BadNode(0));
    }
    if sheet.len() < nodes {
        return Err(Fault::NoRoom(0));
    }
    // Nodes are numbers: each is asked of the source, and its cell of the sheet.
    for v in 0..nodes {
        let value = node_value(kind, source, start, v, sheet.all())?;
        sheet.put(v, value);
    }
    Ok(())
}
