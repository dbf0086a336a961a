//! The messages before the first event.

ghost use Rattle.std.specs.Prelude.{◌≡◌, ◌≤◌, ◌++◌, [], length, IfOk, OnOk};
ghost use Rattle.std.specs.List.{All};
ghost use Rattle.oxii_defs.specs.Dependency.{graph_of};
ghost use Rattle.oxii_defs.specs.Lawful.{IsLawfulBlock, IsLawfulTable};
ghost use Rattle.txn_core.specs.MeantTable.{table_of};
ghost use Rattle.node_defs.specs.World.{count_from, first_pool, newblock_of, newblocks_of};
ghost use Rattle.world_laws.specs.Starts.{nodes_of};

use crate::letter::Letter;
use crate::named::is_named;
use dep_graph::build;
use std::alloc::Global;
use txn_core::{Graph, Table};
use txn_types::{
    Block, Blocks, Copies, GrowingList, Message, NewBlock, Node, NodeSet, OutOfMemory,
};

fn newblock(
    alloc: Global,
    table: &Table,
    block: &Block,
    graph: &Graph,
    orderer: u8,
) -> Result<Letter, OutOfMemory>
    requires { graph.now.preds ≡ graph_of table.now.kind block.now.txns }
    ensures { IfOk result (λ r. r ≡ newblock_of (nodes_of table.now []) block.now orderer) }
{
    let preds = graph.lists(alloc)?;
    let block = block.copy(alloc)?;
    Ok(Letter::new(
        Node::Orderer(orderer),
        Message::NewBlock(NewBlock { block, preds }),
    ))
}

/// A block's NEWBLOCK, once of each orderer that isn't faulty.
fn send_block(
    alloc: Global,
    table: &Table,
    faulty: &NodeSet,
    block: &Block,
    pool: &mut GrowingList<Letter>,
) -> Result<(), OutOfMemory>
    requires table { IsLawfulTable (table_of table.now) }
    requires block { length block.now.txns ≤ 256 }
    ensures { OnOk result (pool.new ≡ pool.old ++ newblocks_of (nodes_of table.now faulty.now) block.now (count_from 0 (length table.now.orderers))) }
{
    let graph = build(alloc, block, table.kind)?;
    let n = table.orderers.as_slice().len() as u8;
    for o in 0..n {
        if !is_named(faulty, Node::Orderer(o)) {
            let letter = newblock(alloc, table, block, &graph, o)?;
            pool.push(letter)?;
        }
    }
    Ok(())
}

/// The NEWBLOCKs of agreed blocks, by number and then by orderer.
pub fn first_pool(
    alloc: Global,
    table: &Table,
    faulty: &NodeSet,
    blocks: &Blocks,
) -> Result<GrowingList<Letter>, OutOfMemory>
    requires table { IsLawfulTable (table_of table.now) }
    requires blocks { All (IsLawfulBlock (table_of table.now)) blocks.now }
    ensures { IfOk result (λ r. r ≡ first_pool (nodes_of table.now faulty.now) blocks.now) }
{
    let mut pool = GrowingList::new(alloc);
    for block in blocks.as_slice() {
        send_block(alloc, table, faulty, block, &mut pool)?;
    }
    Ok(pool)
}
