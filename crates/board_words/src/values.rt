//! The value words: the state before the block with the known outcomes.
ghost use Rattle.std.specs.Prelude.{◌≡◌, ◌≢◌, ◌<◌, ◌≤◌, ◌*◌, ◌+◌, ℕ, length, Some, IfOk, slice_index, take};
ghost use Rattle.std.specs.List.{slice_index_or};
ghost use Rattle.std.specs.Prelude.{None};
ghost use Rattle.txn_types.specs.Fitting.{Fits};
ghost use Rattle.txn_types.specs.declared.txn.Outcome.{Outcome};
ghost use Rattle.known_defs.specs.Known.{txn_at, after_known};
ghost use Rattle.board_work.specs.Scripts.{apply_known};
ghost use Rattle.txn_core.specs.States.{state_of};
ghost use Rattle.board_core.specs.Words.{value, value_place};
ghost use Rattle.oxii_defs.specs.State.{value_in};

use std::alloc::Global;
use txn_core::apply_to;
use txn_types::{Copies, OutOfMemory, Outcome, Txn, Values};

// One more known outcome, where there is one.
fn apply_one(values: &mut Values, txn: &Txn, known: &Option<Outcome>)
    requires fits { (o : Outcome) → known.now ≡ Some o → Fits txn.now o }
    requires records { (i : ℕ) → i < length txn.now.writes → slice_index txn.now.writes i < length values.old }
    ensures length { length values.new ≡ length values.old }
    ensures state { state_of values.new ≡ apply_known (state_of values.old) txn.now known.now }
{
    if let Some(outcome) = known {
        apply_to(values, txn, outcome);
    }
}

/// The values after the known outcomes.
pub(crate) fn known_values(
    alloc: Global,
    base: &Values,
    txns: &[Txn],
    known: &[Option<Outcome>],
) -> Result<Values, OutOfMemory>
    requires long { length known.now ≡ length txns.now }
    requires fits { (t : ℕ) (o : Outcome) → slice_index_or known.now t None ≡ Some o → Fits (txn_at txns.now t) o }
    requires records { (t i : ℕ) → i < length (txn_at txns.now t).writes → slice_index (txn_at txns.now t).writes i < length base.now }
    ensures { IfOk result (λ values. (length values ≡ length base.now) × (state_of values ≡ after_known (state_of base.now) txns.now known.now)) }
{
    let mut values = base.copy(alloc)?;
    for t in 0..txns.len() {
        apply_one(&mut values, &txns[t], &known[t]);
    }
    Ok(values)
}

/// Puts each value into its word.
pub(crate) fn fill_values(words: &mut Vec<u64>, values: &Values)
    requires room { 2 * length values.now < length words.old.items }
    requires few { length values.now ≤ 4096 }
    ensures same { length words.new.items ≡ length words.old.items }
    ensures values { (r : ℕ) → r < length values.now → value words.new.items r ≡ value_in (state_of values.now) r }
    ensures others { (i : ℕ) → ((r : ℕ) → i ≢ value_place r) → slice_index words.new.items i ≡ slice_index words.old.items i }
{
    let values = values.as_slice();
    for r in 0..values.len() {
        words[2 * r + 2] = values[r];
    }
}
