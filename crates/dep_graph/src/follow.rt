// Who depends on a position.

ghost use Rattle.std.specs.Prelude.{◌≡◌, ◌<◌, length};
ghost use Rattle.known_defs.specs.Known.{txn_at};
ghost use Rattle.node_defs.specs.Sent.{other_app_follows};
ghost use Rattle.txn_core.specs.Graphs.{IsGraphOf};
ghost use Rattle.dep_graph.specs.Successors.{successors_of};

use crate::walk::{Successors, is_after};
use txn_core::Graph;
use txn_types::{Block, Txn};

/// The positions that depend on `t`. A number that is no position has none.
pub fn successors<'a>(graph: &'a Graph, t: u16) -> Successors<'a>
    ensures { result ≡ successors_of graph.now t }
{
    Successors::new(graph, t)
}

/// Whether a transaction of another application depends on the one at `t`.
pub fn other_app_follows(block: &Block, graph: &Graph, t: u16) -> bool
    requires position { t < length graph.now.preds }
    requires graph { IsGraphOf block.now.txns graph.now }
    ensures { result ≡ other_app_follows t (txn_at block.now.txns t).app graph.now.preds block.now.txns }
{
    let txns = block.txns.as_slice();
    another_follows(txns, graph, t, txns[t as usize].app)
}

// Whether one of another application depends on `t`. Only those after it may.
#[tactic(auto, using(crate::proofs::FollowLemmas::another_more))]
fn another_follows(txns: &[Txn], graph: &Graph, t: u16, app: u8) -> bool
    requires position { t < length graph.now.preds }
    requires places { length graph.now.preds ≡ length txns.now }
    requires graph { IsGraphOf txns.now graph.now }
    ensures { result ≡ other_app_follows t app graph.now.preds txns.now }
{
    let count = graph.len();
    for j in t + 1..count {
        if is_after(graph, t, j) && txns[j as usize].app != app {
            return true;
        }
    }
    false
}
