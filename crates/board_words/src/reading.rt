//! Reading the outcomes from the words of a closed table.
ghost use Rattle.std.specs.Prelude.{◌≡◌, ◌<◌, ◌*◌, ◌+◌, ◌≤◌, ℕ, length, slice_index, slice_index_or, true, Some, None, take, if◌then◌else◌};
ghost use Rattle.std.specs.Mem.Slots.{slots_items, slots_len, IsFull};
ghost use Rattle.txn_types.specs.declared.txn.Outcome.TheVariants.{Commit};
ghost use Rattle.board_defs.specs.Closure.{is_own};
ghost use Rattle.board_core.specs.Words.{part};
ghost use Rattle.board_steps.specs.Abouts.{told, HasRoom};
ghost use Rattle.board_words.specs.Filled.{AreEmpty};
ghost use Rattle.board_work.specs.Scripts.{writes_at, word_of, outcome_at};
ghost use Rattle.board_words.specs.Words.{cell_back, reason_back, cells_of};

use atomic_table::Closed;
use board_steps::About;
use std::alloc::Global;
use txn_types::{Known, Outcome, Reason, Txn, Writes};

fn word_at(closed: &Closed<u8, Global>, i: usize) -> u64
    requires { IsFull closed.now.words × (i < slots_len closed.now.words) }
    ensures { result ≡ slice_index (slots_items closed.now.words) i }
{
    closed.word(i)
}

/// What a result word or a version word says.
pub fn read_cell(word: u64) -> Option<u64>
    requires { 0 < word }
    ensures { result ≡ cell_back word }
{
    if word == 1 {
        return None;
    }
    Some(word - 2)
}

fn read_reason(word: u64) -> Reason
    ensures { result ≡ reason_back word }
{
    if word == 2 {
        Reason::Require
    } else if word == 3 {
        Reason::Overflow
    } else if word == 4 {
        Reason::Underflow
    } else if word == 5 {
        Reason::ZeroDivisor
    } else {
        Reason::Undeclared
    }
}

// The outcome of t, from its words.
fn read_one(closed: &Closed<u8, Global>, about: &About, writes: usize, t: usize) -> Option<Outcome>
    requires full { IsFull closed.now.words × (t < length (told about.now).txns) × HasRoom (told about.now) (slots_len closed.now.words) }
    requires writes { writes ≤ 16 }
    requires long { (cells : _) → outcome_at (told about.now) t ≡ Some (Commit cells) → length cells ≡ writes }
    requires words { (k : ℕ) → k < 1 + writes → part (slots_items closed.now.words) t k ≡ word_of (outcome_at (told about.now) t) k }
    ensures { result ≡ outcome_at (told about.now) t }
{
    let first = word_at(closed, 38 * t + 5);
    if first == 0 {
        return None;
    }
    if first != 1 {
        return Some(Outcome::Abort(read_reason(first)));
    }
    let mut cells = Writes::empty();
    for k in 0..writes {
        cells.add(read_cell(word_at(closed, 38 * t + 5 + 2 * (k + 1))));
    }
    Some(Outcome::Commit(cells))
}

/// The outcome of each own position.
pub fn read_all(
    closed: &Closed<u8, Global>,
    about: &About,
    txns: &[Txn],
    own: &[bool],
    outcomes: &mut Known,
)
    requires full { IsFull closed.now.words × HasRoom (told about.now) (slots_len closed.now.words) }
    requires txns { (txns.now ≡ (told about.now).txns) × (own.now ≡ (told about.now).own) × (length own.now ≡ length txns.now) }
    requires long { (t : ℕ) (cells : _) → is_own (told about.now) t ≡ true → outcome_at (told about.now) t ≡ Some (Commit cells) → length cells ≡ length (writes_at (told about.now) t) }
    requires words { (t k : ℕ) → is_own (told about.now) t ≡ true → k < 1 + length (writes_at (told about.now) t) → part (slots_items closed.now.words) t k ≡ word_of (outcome_at (told about.now) t) k }
    requires room { AreEmpty (told about.now) outcomes.old }
    ensures long { length outcomes.new ≡ length (told about.now).txns }
    ensures each { (t : ℕ) → t < length (told about.now).txns → slice_index_or outcomes.new t None ≡ (if is_own (told about.now) t then outcome_at (told about.now) t else None) }
{
    for t in 0..own.len() {
        if own[t] {
            let writes = txns[t].writes.as_slice().len();
            outcomes.set(t, read_one(closed, about, writes, t));
        }
    }
}
