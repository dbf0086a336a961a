// The graph of a block, found by the records that its transactions share.

ghost use Rattle.std.specs.Prelude.{◌≡◌, ◌≤◌, length, IfOk};
ghost use Rattle.oxii_defs.specs.Dependency.{graph_of};

use std::alloc::Global;
use txn_core::{Earlier, Graph, PredsOf};
use txn_types::{Block, GrowingList, Kind, OutOfMemory, Preds};

/// The dependency graph of a block. One without transactions has the graph without positions.
pub fn build(alloc: Global, block: &Block, kind: Kind) -> Result<Graph, OutOfMemory>
    requires { length block.now.txns ≤ 256 }
    ensures kind { IfOk result (λ graph. graph.kind ≡ kind) }
    ensures lists { IfOk result (λ graph. graph.preds ≡ graph_of kind block.now.txns) }
{
    let txns = block.txns.as_slice();
    let mut lists = Preds::new(alloc);
    let mut earlier = Earlier::new(txns);
    for _ in 0..txns.len() {
        lists.push(list_of(alloc, earlier.preds(kind))?)?;
        earlier.step();
    }
    Ok(Graph::new(kind, lists))
}

fn list_of(alloc: Global, preds: PredsOf) -> Result<GrowingList<u16>, OutOfMemory>
    ensures { IfOk result (λ list. list ≡ preds.entry) }
{
    let mut list = GrowingList::new(alloc);
    for place in preds {
        list.push(place)?;
    }
    Ok(list)
}
