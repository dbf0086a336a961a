//! The lists of a graph, compared.

ghost use Rattle.std.specs.Prelude.{◌≡◌, ◌↔◌, IsTrue};

use txn_core::Graph;
use txn_types::GrowingList;

/// Whether these are the graph's lists.
pub fn has_lists(graph: &Graph, lists: &[GrowingList<u16>]) -> bool
    ensures { IsTrue result ↔ (lists.now ≡ graph.now.preds) }
{
    if lists.len() != graph.len() as usize {
        return false;
    }
    for t in 0..graph.len() {
        if *lists[t as usize].as_slice() != *graph.preds(t) {
            return false;
        }
    }
    true
}
