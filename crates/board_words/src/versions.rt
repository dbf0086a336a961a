//! The version words of what is known at the start.
ghost use Rattle.std.specs.Prelude.{◌≡◌, ◌≢◌, ◌<◌, ◌≤◌, ◌*◌, ◌+◌, ℕ, true, length, Some, None, is_some, slice_index, slice_index_or};
ghost use Rattle.txn_types.specs.Fitting.{Fits};
ghost use Rattle.txn_types.specs.declared.txn.Outcome.{Outcome};
ghost use Rattle.known_defs.specs.Known.{txn_at};
ghost use Rattle.board_core.specs.Words.{part, part_at};
ghost use Rattle.board_work.specs.Scripts.{word_of};

use board_steps::part_word;
use txn_types::{Outcome, Txn};

// Sets the versions of one outcome.
fn put_versions(words: &mut Vec<u64>, t: usize, txn: &Txn, outcome: &Outcome)
    requires room { (38 * t + 38 < length words.old.items) × (t ≤ 256) × (length txn.now.writes ≤ 16) }
    requires fits { Fits txn.now outcome.now }
    ensures same { length words.new.items ≡ length words.old.items }
    ensures put { (j : ℕ) → j < length txn.now.writes → part words.new.items t (j + 1) ≡ word_of (Some outcome.now) (j + 1) }
    ensures others { (i : ℕ) → ((j : ℕ) → j < length txn.now.writes → i ≢ part_at t (j + 1)) → slice_index words.new.items i ≡ slice_index words.old.items i }
{
    let count = txn.writes.as_slice().len();
    for j in 0..count {
        words[38 * t + 7 + 2 * j] = part_word(outcome, j + 1);
    }
}

// Sets the versions of one position, where it is known.
fn put_known(words: &mut Vec<u64>, t: usize, txn: &Txn, known: &Option<Outcome>)
    requires room { (38 * t + 38 < length words.old.items) × (t ≤ 256) × (length txn.now.writes ≤ 16) }
    requires fits { (o : Outcome) → known.now ≡ Some o → Fits txn.now o }
    ensures same { length words.new.items ≡ length words.old.items }
    ensures put { (j : ℕ) → is_some known.now ≡ true → j < length txn.now.writes → part words.new.items t (j + 1) ≡ word_of known.now (j + 1) }
    ensures others { (i : ℕ) → ((j : ℕ) → is_some known.now ≡ true → j < length txn.now.writes → i ≢ part_at t (j + 1)) → slice_index words.new.items i ≡ slice_index words.old.items i }
{
    if let Some(outcome) = known {
        put_versions(words, t, txn, outcome);
    }
}

/// Sets the versions of each known position.
pub(crate) fn fill_versions(words: &mut Vec<u64>, txns: &[Txn], known: &[Option<Outcome>])
    requires long { (length known.now ≡ length txns.now) × (38 * length txns.now < length words.old.items) × (length txns.now ≤ 256) }
    requires writes { (t : ℕ) → length (txn_at txns.now t).writes ≤ 16 }
    requires fits { (t : ℕ) (o : Outcome) → slice_index_or known.now t None ≡ Some o → Fits (txn_at txns.now t) o }
    ensures same { length words.new.items ≡ length words.old.items }
    ensures put { (t j : ℕ) → t < length txns.now → is_some (slice_index_or known.now t None) ≡ true → j < length (txn_at txns.now t).writes → part words.new.items t (j + 1) ≡ word_of (slice_index_or known.now t None) (j + 1) }
    ensures others { (i : ℕ) → ((t j : ℕ) → is_some (slice_index_or known.now t None) ≡ true → j < length (txn_at txns.now t).writes → i ≢ part_at t (j + 1)) → slice_index words.new.items i ≡ slice_index words.old.items i }
{
    for t in 0..txns.len() {
        put_known(words, t, &txns[t], &known[t]);
    }
}
