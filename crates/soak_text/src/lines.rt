//! The lines of a summary.

ghost use Rattle.std.specs.Prelude.{◌≡◌, ◌≤◌, ◌++◌, length, codes, OnOk};
ghost use Rattle.std.specs.List.{All};
ghost use Rattle.hash_ledger.specs.Ledgers.{completed_of};
ghost use Rattle.soak_text.specs.Summary.{count_line, soak_line, chain_lines, ledger_lines, tip_line};

use crate::edges::edges;
use crate::ledger_counts::{aborts, commits};
use hash_ledger::Ledger;
use itoa::Buffer;
use report_text::{push_blocks_line, push_number};
use std::alloc::Global;
use txn_types::{Block, Kind, OutOfMemory, Text};

/// A word and a number.
pub fn push_count(text: &mut Text, word: &[u8], n: u128) -> Result<(), OutOfMemory>
    ensures { OnOk result (text.new ≡ text.old ++ count_line word.now n) }
{
    let mut buffer = Buffer::new();
    text.append(word)?;
    text.append(b" ")?;
    text.append(buffer.format(n).as_bytes())?;
    text.append(b"\n")
}

/// The options.
pub fn push_options(text: &mut Text, seed: u16, txns: u16) -> Result<(), OutOfMemory>
    ensures { OnOk result (text.new ≡ text.old ++ soak_line seed txns) }
{
    text.append(b"soak ")?;
    push_number(text, u64::from(seed))?;
    text.append(b" ")?;
    push_number(text, u64::from(txns))?;
    text.append(b"\n")
}

/// How many blocks are agreed, and their dependent pairs.
pub fn push_chain(
    alloc: Global,
    text: &mut Text,
    kind: Kind,
    blocks: &[Block],
) -> Result<(), OutOfMemory>
    requires { All (λ b. length b.txns ≤ 256) blocks.now }
    ensures { OnOk result (text.new ≡ text.old ++ chain_lines kind blocks.now) }
{
    push_blocks_line(text, blocks.len() as u64)?;
    push_count(text, b"edges", edges(alloc, kind, blocks)?)
}

/// The counts of a ledger.
pub fn push_ledger(text: &mut Text, ledger: &Ledger) -> Result<(), OutOfMemory>
    ensures { OnOk result (text.new ≡ text.old ++ ledger_lines (completed_of ledger.now)) }
{
    push_count(text, b"commits", commits(ledger))?;
    push_count(text, b"aborts", aborts(ledger))
}

/// The hash of a last block.
pub fn push_tip(text: &mut Text, hash: &[u8; 32]) -> Result<(), OutOfMemory>
    ensures { OnOk result (text.new ≡ text.old ++ tip_line hash.now) }
{
    let mut digits = [0u8; 64];
    hex::encode_to_slice(hash.as_slice(), &mut digits).unwrap();
    text.append(b"tip ")?;
    text.append(&digits)?;
    text.append(b"\n")
}
