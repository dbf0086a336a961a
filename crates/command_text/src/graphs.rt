//! The agreed blocks with their graphs, as printed.

ghost use Rattle.std.specs.Prelude.{◌≡◌, ◌≤◌, ◌++◌, length, OnOk};
ghost use Rattle.std.specs.List.{All, flat_map};
ghost use Rattle.oxii_defs.specs.Lawful.{IsLawfulBlock};
ghost use Rattle.node_defs.specs.GraphText.{graph_block_lines, graph_text};
ghost use Rattle.txn_core.specs.MeantTable.{table_of};

use crate::agreed::Agreed;
use dep_graph::build;
use report_text::{head, push_graph_block};
use std::alloc::Global;
use txn_core::Table;
use txn_types::{Block, OutOfMemory, Text};

#[tactic(auto, using(crate::proofs::LawfulBlocks::txns_few))]
fn push_graphs(
    alloc: Global,
    text: &mut Text,
    table: &Table,
    blocks: &[Block],
) -> Result<(), OutOfMemory>
    requires { All (IsLawfulBlock (table_of table.now)) blocks.now }
    ensures { OnOk result (text.new ≡ text.old ++ flat_map (graph_block_lines (table_of table.now)) blocks.now) }
{
    for block in blocks {
        let graph = build(alloc, block, table.kind)?;
        push_graph_block(text, table, block, &graph)?;
    }
    Ok(())
}

/// The text of the command `graph`: the rejected requests, the count of blocks, and each block with its graph.
pub fn push_graph_text(
    alloc: Global,
    text: &mut Text,
    table: &Table,
    agreed: &Agreed,
) -> Result<(), OutOfMemory>
    requires { All (IsLawfulBlock (table_of table.now)) agreed.now.blocks }
    ensures { OnOk result (text.new ≡ text.old ++ graph_text (table_of table.now) agreed.now.rejected agreed.now.blocks) }
{
    let blocks = agreed.blocks.as_slice();
    head(alloc, text, &agreed.rejected, blocks.len() as u64)?;
    push_graphs(alloc, text, table, blocks)
}
