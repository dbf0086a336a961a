//! The dependent pairs of blocks.

ghost use Rattle.std.specs.Prelude.{◌≡◌, ◌≤◌, length, sum_by, IfOk};
ghost use Rattle.std.specs.List.{All};
ghost use Rattle.soak_text.specs.Summary.{dependent_pairs, edges};

use dep_graph::build;
use std::alloc::Global;
use txn_core::Graph;
use txn_types::{Block, Kind, OutOfMemory};

// How many pairs a graph has.
fn pairs_of(graph: &Graph) -> u32
    requires { sum_by length graph.now.preds ≤ 65536 }
    ensures { result ≡ sum_by length graph.now.preds }
{
    let mut pairs = 0u32;
    for t in 0..graph.len() {
        pairs += graph.preds(t).len() as u32;
    }
    pairs
}

// How many pairs of a block's transactions are dependent.
fn dependent_pairs(alloc: Global, kind: Kind, block: &Block) -> Result<u32, OutOfMemory>
    requires { length block.now.txns ≤ 256 }
    ensures { IfOk result (λ pairs. pairs ≡ dependent_pairs kind block.now) }
{
    let graph = build(alloc, block, kind)?;
    Ok(pairs_of(&graph))
}

/// How many there are in all blocks.
pub fn edges(alloc: Global, kind: Kind, blocks: &[Block]) -> Result<u128, OutOfMemory>
    requires { All (λ b. length b.txns ≤ 256) blocks.now }
    ensures { IfOk result (λ count. count ≡ edges kind blocks.now) }
{
    let mut count = 0u128;
    for block in blocks {
        count += u128::from(dependent_pairs(alloc, kind, block)?);
    }
    Ok(count)
}
