//! The printed lines of a peer, and what is around them.

ghost use Rattle.std.specs.Prelude.{◌≡◌, ◌≤◌, ◌<◌, ◌++◌, ◌+◌, ◌^◌, [], ◌∷◌, ℕ, Option, Some, None, List, length, codes, decimal, OnOk};
ghost use Rattle.std.specs.List.{All, AllByRecursion, flat_map};
ghost use Rattle.oxii_defs.specs.Lawful.{IsLawfulTxn, IsRecord, IsLawfulConfig, IsLawfulBlock};
ghost use Rattle.oxii_defs.specs.BlockBytes.{peer_name};
ghost use Rattle.oxii_defs.specs.Lines.{reason_word, entry_text, entry_part, entries_text, outcome_text, block_line, txn_line, txn_lines, config_line, body_lines, entry_lines, peer_line, blocks_line, tail_lines};
ghost use Rattle.node_defs.specs.Text.{written_text};
ghost use Rattle.hex.specs.Hex.{encode_lower};
ghost use Rattle.txn_core.specs.MeantTable.{table_of};

use hash_ledger::block_hash;
use itoa::Buffer;
use txn_core::Table;
use txn_types::{Block, Config, OutOfMemory, Outcome, Reason, Text, Txn};

/// A number in decimal.
pub fn push_number(text: &mut Text, n: u64) -> Result<(), OutOfMemory>
    ensures { OnOk result (text.new ≡ text.old ++ decimal n) }
{
    let mut buffer = Buffer::new();
    text.append(buffer.format(n).as_bytes())
}

fn reason_word(reason: Reason) -> &'static [u8]
    ensures { result.now ≡ reason_word reason }
{
    match reason {
        Reason::Require => b"require",
        Reason::Overflow => b"overflow",
        Reason::Underflow => b"underflow",
        Reason::ZeroDivisor => b"zero_divisor",
        Reason::Undeclared => b"undeclared",
    }
}

fn push_entry_value(text: &mut Text, entry: Option<u64>) -> Result<(), OutOfMemory>
    ensures { OnOk result (text.new ≡ text.old ++ entry_text entry) }
{
    match entry {
        None => text.append(b"-"),
        Some(value) => push_number(text, value),
    }
}

// The new value of one record of the write set.
fn push_entry(
    text: &mut Text,
    table: &Table,
    record_number: u16,
    entry: Option<u64>,
) -> Result<(), OutOfMemory>
    requires { record_number < length table.now.records }
    ensures { OnOk result (text.new ≡ text.old ++ entry_part (table_of table.now) record_number entry) }
{
    text.append(b" ")?;
    text.append(table.record_name(record_number).as_slice())?;
    text.append(b"=")?;
    push_entry_value(text, entry)
}

fn push_entries(
    text: &mut Text,
    table: &Table,
    records: &[u16],
    entries: &[Option<u64>],
) -> Result<(), OutOfMemory>
    requires { AllByRecursion (IsRecord (table_of table.now)) records.now }
    ensures { OnOk result (text.new ≡ text.old ++ entries_text (table_of table.now) records.entry.now entries.entry.now) }
{
    let mut records = records;
    let mut entries = entries;
    while let [record_number, records_after @ ..] = records {
        let [entry, entries_after @ ..] = entries else {
            return Ok(());
        };
        push_entry(text, table, *record_number, *entry)?;
        records = records_after;
        entries = entries_after;
    }
    Ok(())
}

/// An outcome of a transaction that writes these records.
pub fn push_written(
    text: &mut Text,
    table: &Table,
    writes: &[u16],
    outcome: &Outcome,
) -> Result<(), OutOfMemory>
    requires { AllByRecursion (IsRecord (table_of table.now)) writes.now }
    ensures { OnOk result (text.new ≡ text.old ++ written_text (table_of table.now) writes.now outcome.now) }
{
    match outcome {
        Outcome::Commit(entries) => {
            text.append(b"commit")?;
            push_entries(text, table, writes, entries.as_slice())
        }
        Outcome::Abort(reason) => {
            text.append(b"abort ")?;
            text.append(reason_word(*reason))
        }
    }
}

#[tactic(auto, using(crate::proofs::Outcomes::outcome_is_written))]
fn push_outcome(
    text: &mut Text,
    table: &Table,
    txn: &Txn,
    outcome: &Outcome,
) -> Result<(), OutOfMemory>
    requires { IsLawfulTxn (table_of table.now) txn.now }
    ensures { OnOk result (text.new ≡ text.old ++ outcome_text (table_of table.now) txn.now outcome.now) }
{
    push_written(text, table, txn.writes.as_slice(), outcome)
}

// The line of the transaction with this number, counted from 1.
#[tactic(auto, unfolding(oxii_defs::specs::Lines::txn_line))]
fn push_txn(
    text: &mut Text,
    table: &Table,
    number: u64,
    txn: &Txn,
    outcome: &Outcome,
) -> Result<(), OutOfMemory>
    requires { IsLawfulTxn (table_of table.now) txn.now }
    ensures { OnOk result (text.new ≡ text.old ++ txn_line (table_of table.now) number txn.now outcome.now) }
{
    text.append(b"txn ")?;
    push_number(text, number)?;
    text.append(b" ")?;
    text.append(table.app_name(txn.app).as_slice())?;
    text.append(b" ")?;
    text.append(table.op_name(txn.app, txn.op).as_slice())?;
    text.append(b" ")?;
    push_outcome(text, table, txn, outcome)?;
    text.append(b"\n")
}

fn push_txns(
    text: &mut Text,
    table: &Table,
    txns: &[Txn],
    outcomes: &[Outcome],
) -> Result<(), OutOfMemory>
    requires lawful { All (IsLawfulTxn (table_of table.now)) txns.now }
    requires whole { length outcomes.now ≡ length txns.now }
    ensures { OnOk result (text.new ≡ text.old ++ txn_lines (table_of table.now) 1 txns.now outcomes.now) }
{
    for i in 0..txns.len() {
        push_txn(text, table, i as u64 + 1, &txns[i], &outcomes[i])?;
    }
    Ok(())
}

fn push_agents(text: &mut Text, table: &Table, agents: &[u8]) -> Result<(), OutOfMemory>
    requires { All (λ p. p < length table.now.peers) agents.now }
    ensures { OnOk result (text.new ≡ text.old ++ flat_map (λ p. codes " " ++ peer_name (table_of table.now) p) agents.now) }
{
    for agent in agents {
        text.append(b" ")?;
        text.append(table.peer_name(*agent).as_slice())?;
    }
    Ok(())
}

/// The line of a configuration.
pub fn push_config(text: &mut Text, table: &Table, config: &Config) -> Result<(), OutOfMemory>
    requires { IsLawfulConfig (table_of table.now) config.now }
    ensures { OnOk result (text.new ≡ text.old ++ config_line (table_of table.now) config.now) }
{
    text.append(b"config ")?;
    text.append(table.app_name(config.app).as_slice())?;
    text.append(b" tau ")?;
    push_number(text, u64::from(config.tau))?;
    text.append(b" agents")?;
    push_agents(text, table, config.agents.as_slice())?;
    text.append(b"\n")
}

fn push_hash(text: &mut Text, hash: &[u8; 32]) -> Result<(), OutOfMemory>
    ensures { OnOk result (text.new ≡ text.old ++ encode_lower hash.now) }
{
    let mut digits = [0u8; 64];
    hex::encode_to_slice(hash.as_slice(), &mut digits).unwrap();
    text.append(&digits)
}

/// The line `block N HASH`.
pub fn push_block(text: &mut Text, table: &Table, block: &Block) -> Result<(), OutOfMemory>
    requires { IsLawfulBlock (table_of table.now) block.now }
    ensures { OnOk result (text.new ≡ text.old ++ block_line (table_of table.now) block.now) }
{
    text.append(b"block ")?;
    push_number(text, block.number)?;
    text.append(b" ")?;
    push_hash(text, &block_hash(table, block))?;
    text.append(b"\n")
}

/// The lines of a completed block, with the outcomes of its transactions.
pub fn push_entry_lines(
    text: &mut Text,
    table: &Table,
    block: &Block,
    outcomes: &[Outcome],
) -> Result<(), OutOfMemory>
    requires lawful { IsLawfulBlock (table_of table.now) block.now }
    requires whole { length outcomes.now ≡ length block.now.txns }
    ensures { OnOk result (text.new ≡ text.old ++ entry_lines (table_of table.now) (record { block = block.now; outcomes = outcomes.now })) }
{
    push_block(text, table, block)?;
    match &block.config {
        None => push_txns(text, table, block.txns.as_slice(), outcomes),
        Some(config) => push_config(text, table, config),
    }
}

/// The line `peer NAME completed C`.
#[tactic(auto, unfolding(oxii_defs::specs::Lines::peer_line))]
pub fn push_peer_line(
    text: &mut Text,
    table: &Table,
    peer: u8,
    count: u64,
) -> Result<(), OutOfMemory>
    requires { peer < length table.now.peers }
    ensures { OnOk result (text.new ≡ text.old ++ peer_line (table_of table.now) peer count) }
{
    text.append(b"peer ")?;
    text.append(table.peer_name(peer).as_slice())?;
    text.append(b" completed ")?;
    push_number(text, count)?;
    text.append(b"\n")
}

/// The line `blocks K`.
pub fn push_blocks_line(text: &mut Text, count: u64) -> Result<(), OutOfMemory>
    ensures { OnOk result (text.new ≡ text.old ++ blocks_line count) }
{
    text.append(b"blocks ")?;
    push_number(text, count)?;
    text.append(b"\n")
}

/// The lines `messages P` and `idle D`.
pub fn push_tail(text: &mut Text, messages: u64, idle: u64) -> Result<(), OutOfMemory>
    ensures { OnOk result (text.new ≡ text.old ++ tail_lines messages idle) }
{
    text.append(b"messages ")?;
    push_number(text, messages)?;
    text.append(b"\nidle ")?;
    push_number(text, idle)?;
    text.append(b"\n")
}
