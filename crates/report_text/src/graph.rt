//! The rejected requests, and the blocks with what each transaction depends on.

ghost use Rattle.std.specs.Prelude.{◌≡◌, ◌≤◌, ◌<◌, ◌++◌, ◌+◌, [], ℕ, List, Option, Some, None, length, codes, decimal, OnOk};
ghost use Rattle.std.specs.List.{All, flat_map};
ghost use Rattle.oxii_defs.specs.Lawful.{IsLawfulTxn, IsLawfulBlock};
ghost use Rattle.oxii_defs.specs.Dependency.{graph_of};
ghost use Rattle.node_defs.specs.Text.{reject_word, rejected_line};
ghost use Rattle.node_defs.specs.GraphText.{preds_text, after_line, after_lines, graph_block_lines};
ghost use Rattle.txn_core.specs.MeantTable.{table_of};

use crate::lines::{push_block, push_config, push_number};
use txn_core::{Graph, Table};
use txn_types::{Block, OutOfMemory, Reject, Rejected, Text, Txn};

fn reject_word(why: Reject) -> &'static [u8]
    ensures { result.now ≡ reject_word why }
{
    match why {
        Reject::UnknownApp => b"unknown_app",
        Reject::ClientNotAllowed => b"client_not_allowed",
        Reject::UnknownOp => b"unknown_op",
        Reject::ArgCount => b"arg_count",
        Reject::ArgKind => b"arg_kind",
        Reject::SetTooLarge => b"set_too_large",
    }
}

// The line `rejected I WORD`, with items numbered from 1.
fn push_rejected(text: &mut Text, rejected: Rejected) -> Result<(), OutOfMemory>
    ensures { OnOk result (text.new ≡ text.old ++ rejected_line rejected) }
{
    text.append(b"rejected ")?;
    push_number(text, u64::from(rejected.item) + 1)?;
    text.append(b" ")?;
    text.append(reject_word(rejected.why))?;
    text.append(b"\n")
}

/// A line for each rejected request.
pub fn push_rejects(text: &mut Text, rejects: &[Rejected]) -> Result<(), OutOfMemory>
    ensures { OnOk result (text.new ≡ text.old ++ flat_map rejected_line rejects.now) }
{
    for rejected in rejects {
        push_rejected(text, *rejected)?;
    }
    Ok(())
}

fn push_numbers(text: &mut Text, preds: &[u16]) -> Result<(), OutOfMemory>
    ensures { OnOk result (text.new ≡ text.old ++ flat_map (λ q. codes " " ++ decimal (q + 1)) preds.now) }
{
    for pred in preds {
        text.append(b" ")?;
        push_number(text, u64::from(*pred) + 1)?;
    }
    Ok(())
}

// The numbers of the predecessors, or `none`.
fn push_preds(text: &mut Text, preds: &[u16]) -> Result<(), OutOfMemory>
    ensures { OnOk result (text.new ≡ text.old ++ preds_text preds.now) }
{
    match preds {
        [] => text.append(b" none"),
        preds => push_numbers(text, preds),
    }
}

// The line of the transaction with this number, counted from 1, and what it depends on.
#[tactic(auto, unfolding(node_defs::specs::GraphText::after_line))]
fn push_after(
    text: &mut Text,
    table: &Table,
    number: u64,
    txn: &Txn,
    preds: &[u16],
) -> Result<(), OutOfMemory>
    requires { IsLawfulTxn (table_of table.now) txn.now }
    ensures { OnOk result (text.new ≡ text.old ++ after_line (table_of table.now) number txn.now preds.now) }
{
    text.append(b"txn ")?;
    push_number(text, number)?;
    text.append(b" ")?;
    text.append(table.app_name(txn.app).as_slice())?;
    text.append(b" ")?;
    text.append(table.op_name(txn.app, txn.op).as_slice())?;
    text.append(b" after")?;
    push_preds(text, preds)?;
    text.append(b"\n")
}

fn push_afters(
    text: &mut Text,
    table: &Table,
    txns: &[Txn],
    graph: &Graph,
) -> Result<(), OutOfMemory>
    requires lawful { All (IsLawfulTxn (table_of table.now)) txns.now }
    requires whole { length graph.now.preds ≡ length txns.now }
    requires short { length txns.now ≤ 256 }
    ensures { OnOk result (text.new ≡ text.old ++ after_lines (table_of table.now) 1 txns.now graph.now.preds) }
{
    for i in 0..txns.len() {
        push_after(text, table, i as u64 + 1, &txns[i], graph.preds(i as u16))?;
    }
    Ok(())
}

/// The lines of a block with its graph.
pub fn push_graph_block(
    text: &mut Text,
    table: &Table,
    block: &Block,
    graph: &Graph,
) -> Result<(), OutOfMemory>
    requires lawful { IsLawfulBlock (table_of table.now) block.now }
    requires graph { graph.now.preds ≡ graph_of table.now.kind block.now.txns }
    ensures { OnOk result (text.new ≡ text.old ++ graph_block_lines (table_of table.now) block.now) }
{
    push_block(text, table, block)?;
    match &block.config {
        None => push_afters(text, table, block.txns.as_slice(), graph),
        Some(config) => push_config(text, table, config),
    }
}
