//! The lines of a peer: its ledger, its state and its halt.

ghost use Rattle.std.specs.Prelude.{◌≡◌, ◌≤◌, ◌<◌, ◌++◌, ◌+◌, length, Some, OnOk, IfSome};
ghost use Rattle.std.specs.List.{All, flat_map};
ghost use Rattle.oxii_defs.specs.Lines.{entry_lines, peer_lines};
ghost use Rattle.node_defs.specs.Text.{halted_line};
ghost use Rattle.txn_core.specs.MeantTable.{table_of};
ghost use Rattle.txn_core.specs.States.{state_of};
ghost use Rattle.hash_ledger.specs.Halts.{halt_of, halted_of, IsLawfulSplit};
ghost use Rattle.hash_ledger.specs.Ledgers.{entries_of, IsLawfulEntry};

use crate::lines::{push_entry_lines, push_number, push_peer_line, push_written};
use crate::state::push_state;
use hash_ledger::Ledger;
use txn_core::Table;
use txn_types::{OutOfMemory, Split, Text, Values};

// The lines of each completed block.
fn push_ledger(text: &mut Text, table: &Table, ledger: &Ledger) -> Result<(), OutOfMemory>
    requires { All (IsLawfulEntry (table_of table.now)) ledger.now }
    ensures { OnOk result (text.new ≡ text.old ++ flat_map (entry_lines (table_of table.now)) (entries_of ledger.now)) }
{
    for i in 0..ledger.len() {
        let outcomes = ledger.outcomes(i);
        push_entry_lines(text, table, ledger.block(i), outcomes.as_slice())?;
    }
    Ok(())
}

// The line `halted N I ran OUT voted OUT`, with transactions numbered from 1.
fn push_split(text: &mut Text, table: &Table, split: &Split) -> Result<(), OutOfMemory>
    requires { IsLawfulSplit (table_of table.now) split.now }
    ensures { OnOk result (text.new ≡ text.old ++ halted_line (table_of table.now) (Some (halt_of split.now))) }
{
    let writes = split.writes.as_slice();
    text.append(b"halted ")?;
    push_number(text, split.n)?;
    text.append(b" ")?;
    push_number(text, u64::from(split.t) + 1)?;
    text.append(b" ran ")?;
    push_written(text, table, writes, &split.ran)?;
    text.append(b" voted ")?;
    push_written(text, table, writes, &split.voted)?;
    text.append(b"\n")
}

fn push_halted(text: &mut Text, table: &Table, halted: Option<&Split>) -> Result<(), OutOfMemory>
    requires { IfSome halted (λ split. IsLawfulSplit (table_of table.now) split.now) }
    ensures { OnOk result (text.new ≡ text.old ++ halted_line (table_of table.now) (halted_of halted.entry)) }
{
    match halted {
        None => Ok(()),
        Some(split) => push_split(text, table, split),
    }
}

/// All lines of a peer.
pub fn push_peer(
    text: &mut Text,
    table: &Table,
    peer: u8,
    ledger: &Ledger,
    state: &Values,
    halted: Option<&Split>,
) -> Result<(), OutOfMemory>
    requires peer { peer < length table.now.peers }
    requires ledger { All (IsLawfulEntry (table_of table.now)) ledger.now }
    requires state { length state.now ≡ length table.now.records }
    requires halted { IfSome halted (λ split. IsLawfulSplit (table_of table.now) split.now) }
    ensures { OnOk result (text.new ≡ text.old ++ (peer_lines (table_of table.now) peer (entries_of ledger.now) (state_of state.now) ++ halted_line (table_of table.now) (halted_of halted.entry))) }
{
    push_peer_line(text, table, peer, ledger.len())?;
    push_ledger(text, table, ledger)?;
    push_state(text, table, state)?;
    push_halted(text, table, halted)
}
