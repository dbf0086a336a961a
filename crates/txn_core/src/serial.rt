// Transactions in a state of values, one after another.

ghost use Rattle.std.specs.Prelude.{◌≡◌, ◌≤◌, ◌<◌, ℕ, true, Some, OnOk, IfOk, IfSome, length, map, take, slice_index};
ghost use Rattle.std.specs.List.{All};
ghost use Rattle.oxii_defs.specs.Lawful.{IsLawfulTable, IsLawfulTxn};
ghost use Rattle.oxii_defs.specs.Outcomes.{outcome_in};
ghost use Rattle.oxii_defs.specs.Effects.{apply, put_entry, put_all};
ghost use Rattle.oxii_defs.specs.SerialPart.{after_txn, serial_state, serial_outcomes};
ghost use Rattle.txn_types.specs.Fitting.{Fits, fit_entries};
ghost use Rattle.txn_types.specs.Values.{IsValue, max_value};
ghost use Rattle.txn_core.specs.MeantTable.{table_of};
ghost use Rattle.txn_core.specs.States.{state_of};

use crate::{Gate, Scratch, Table, op_named, run_txn};
use std::alloc::Global;
use txn_types::{OutOfMemory, Outcome, Outcomes, Recs, Txn, Values};

/// The values of these records, and 0 past them.
fn values_at(reads: &Recs, values: &[u64]) -> [u64; 16]
    requires { (i : ℕ) → i < length reads.now → slice_index reads.now i < length values.now }
    ensures { take (length reads.now) result ≡ map (slice_index values.now) reads.now }
{
    let reads = reads.as_slice();
    let mut inputs = [0; 16];
    for i in 0..reads.len() {
        inputs[i] = values[reads[i] as usize];
    }
    inputs
}

/// The values of the records that a transaction reads, and 0 past them.
pub fn inputs_of(txn: &Txn, values: &Values) -> [u64; 16]
    requires { (i : ℕ) → i < length txn.now.reads → slice_index txn.now.reads i < length values.now }
    ensures inputs { take (length txn.now.reads) result ≡ map (slice_index values.now) txn.now.reads }
    ensures range { (i : ℕ) → i < length txn.now.reads → slice_index result i ≤ max_value }
{
    values_at(&txn.reads, values.as_slice())
}

/// What a transaction means in the state of these values.
pub fn outcome_at(table: &Table, txn: &Txn, values: &Values, scratch: &mut Scratch) -> Outcome
    requires table { IsLawfulTable (table_of table.now) }
    requires lawful { IsLawfulTxn (table_of table.now) txn.now }
    requires records { length values.now ≡ length table.now.records }
    ensures outcome { result ≡ outcome_in (table_of table.now) (state_of values.now) txn.now }
    ensures fits { Fits txn.now result }
{
    let op = op_named(table, txn);
    let inputs = inputs_of(txn, values);
    run_txn(op, txn, &inputs, scratch)
}

/// Puts an entry of an outcome.
fn put(values: &mut Values, number: u16, entry: Option<u64>)
    requires place { number < length values.old }
    requires value { IfSome entry IsValue }
    ensures length { length values.new ≡ length values.old }
    ensures state { state_of values.new ≡ put_entry (state_of values.old) number entry }
{
    if let Some(value) = entry {
        values.set(number as usize, value);
    }
}

/// Puts the entries of an outcome.
#[tactic(auto, using(crate::proofs::StateLemmas::fit_length, crate::proofs::StateLemmas::fit_entry))]
fn put_all(values: &mut Values, writes: &[u16], entries: &[Option<u64>])
    requires entries { fit_entries writes.now entries.now ≡ true }
    requires records { (i : ℕ) → i < length writes.now → slice_index writes.now i < length values.old }
    ensures length { length values.new ≡ length values.old }
    ensures state { state_of values.new ≡ put_all (state_of values.old) writes.now entries.now }
{
    for i in 0..writes.len() {
        put(values, writes[i], entries[i]);
    }
}

/// Puts what a transaction's outcome wrote.
pub fn apply_to(values: &mut Values, txn: &Txn, outcome: &Outcome)
    requires fits { Fits txn.now outcome.now }
    requires records { (i : ℕ) → i < length txn.now.writes → slice_index txn.now.writes i < length values.old }
    ensures length { length values.new ≡ length values.old }
    ensures state { state_of values.new ≡ apply (state_of values.old) txn.now outcome.now }
{
    if let Outcome::Commit(entries) = outcome {
        put_all(values, txn.writes.as_slice(), entries.as_slice());
    }
}

/// What a transaction means, put into the values.
pub fn run_one(table: &Table, txn: &Txn, values: &mut Values, scratch: &mut Scratch) -> Outcome
    requires table { IsLawfulTable (table_of table.now) }
    requires lawful { IsLawfulTxn (table_of table.now) txn.now }
    requires records { length values.old ≡ length table.now.records }
    ensures outcome { result ≡ outcome_in (table_of table.now) (state_of values.old) txn.now }
    ensures fits { Fits txn.now result }
    ensures state { state_of values.new ≡ after_txn (table_of table.now) (state_of values.old) txn.now }
    ensures length { length values.new ≡ length values.old }
{
    let outcome = outcome_at(table, txn, values, scratch);
    apply_to(values, txn, &outcome);
    outcome
}

/// The serial run of block `number`: what each transaction means in the state that those before it leave; the gate is called at each begin and end. After an `Err` the values are of no use.
pub fn run_serial<G: Gate>(
    alloc: Global,
    table: &Table,
    number: u64,
    txns: &[Txn],
    values: &mut Values,
    scratch: &mut Scratch,
    gate: &G,
) -> Result<Outcomes, OutOfMemory>
    requires table { IsLawfulTable (table_of table.now) }
    requires lawful { All (IsLawfulTxn (table_of table.now)) txns.now }
    requires few { length txns.now ≤ 256 }
    requires records { length values.old ≡ length table.now.records }
    ensures outcomes { IfOk result (λ outcomes. outcomes ≡ serial_outcomes (table_of table.now) (state_of values.old) txns.now) }
    ensures state { OnOk result (state_of values.new ≡ serial_state (table_of table.now) (state_of values.old) txns.now) }
    ensures length { OnOk result (length values.new ≡ length values.old) }
{
    let mut outcomes = Outcomes::new(alloc);
    let mut t = 0u16;
    for txn in txns {
        gate.begin(number, t);
        let outcome = run_one(table, txn, values, scratch);
        gate.end(number, t);
        outcomes.push(outcome)?;
        t += 1;
    }
    Ok(outcomes)
}
