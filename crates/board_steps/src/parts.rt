//! The parts of a finish: publish each word, write each value, count each edge.
ghost use Rattle.std.specs.Prelude.{◌≡◌, ◌≢◌, ◌<◌, ◌*◌, ◌+◌, ◌≤◌, ℕ, [], ◌∷◌, length, take, slice_index, slice_index_or, true, false, Some, None};
ghost use Rattle.txn_types.specs.Fitting.{fit_entries, Fits};
ghost use Rattle.txn_types.specs.Rising.{IsRising};
ghost use Rattle.txn_types.specs.declared.txn.Outcome.TheVariants.{Commit};
ghost use Rattle.known_defs.specs.Known.{txn_at};
ghost use Rattle.board_core.specs.Counts.{times_first, times_pair, times};
ghost use Rattle.board_core.specs.Script.{Gives, Uses, IsSound, serial_value};
ghost use Rattle.board_core.specs.Rule.{IsLive};
ghost use Rattle.board_core.specs.Parts.{Counts, Published, Entered, Wrote};
ghost use Rattle.board_core.specs.Passes.{AreFlags};
ghost use Rattle.board_work.specs.Scripts.{script, word_of, outcome_at, writes_at, reason_word, cell_word};
ghost use Rattle.board_work.specs.declared.layout.Layout.TheVariants.{Values};
ghost use Rattle.board_steps.specs.Abouts.{told, scripted, IsLaidOut, HasRoom};

use crate::step::{Words, count_down, load_value, publish, write_value};
use atomic_table::Seat;
use board_core::View;
use board_work::{Layout, Made};
use std::marker::Brand;
use txn_types::{Outcome, Reason, Txn};

/// Loads the value of each record of the row.
pub fn load_all(
    words: &Words,
    row: &[u16],
    seat: &mut Seat<u8, View>,
    t: usize,
    out: &mut [u64; 16],
)
    requires seat { (seat.old.table_id ≡ words.now.table_id) × IsLive seat.old.me.0 }
    requires place { HasRoom (told words.now.key) words.now.table_id.words × (length row.now ≤ 16) }
    requires held { (0 < times_first t seat.old.me.0.begins) × (times_first t seat.old.me.0.finishes ≡ 0) × (times_first t seat.old.me.0.written ≡ 0) }
    requires layout { IsLaidOut Values words.now.key }
    requires records { (k : ℕ) → k < length row.now → (slice_index row.now k < length (told words.now.key).table.records) × Uses (script (told words.now.key)) t (slice_index row.now k) }
    ensures same { (seat.new.table_id ≡ seat.old.table_id) × (seat.new.id ≡ seat.old.id) × (seat.new.me ≡ seat.old.me) }
    ensures values { (k : ℕ) → k < length row.now → slice_index out.new k ≡ serial_value (script (told words.now.key)) t (slice_index row.now k) }
{
    for k in 0..row.len() {
        out[k] = load_value::<Brand>(words, seat, t, row[k] as usize);
    }
}

fn reason_word(reason: Reason) -> u64
    ensures { result ≡ reason_word reason }
{
    match reason {
        Reason::Require => 2,
        Reason::Overflow => 3,
        Reason::Underflow => 4,
        Reason::ZeroDivisor => 5,
        Reason::Undeclared => 6,
    }
}

fn cell_at(cells: &[Option<u64>], k: usize) -> Option<u64>
    ensures { result ≡ slice_index_or cells.now k None }
{
    if k < cells.len() { cells[k] } else { None }
}

fn cell_word(cell: Option<u64>) -> u64
    requires { (x : ℕ) → cell ≡ Some x → x < 4611686018427387904 }
    ensures { result ≡ cell_word cell }
{
    match cell {
        Some(x) => x + 2,
        None => 1,
    }
}

/// The outcome word, and after it the word of each entry.
pub fn part_word(outcome: &Outcome, k: usize) -> u64
    requires { (cells : _) → outcome.now ≡ Commit cells → (j x : ℕ) → slice_index_or cells j None ≡ Some x → x < 4611686018427387904 }
    ensures { result ≡ word_of (Some outcome.now) k }
{
    match outcome {
        Outcome::Abort(reason) => { if k == 0 { reason_word(*reason) } else { 1 } }
        Outcome::Commit(entries) => {
            if k == 0 {
                return 1;
            }
            cell_word(cell_at(entries.as_slice(), k - 1))
        }
    }
}

/// Publishes the outcome word and each result word of t, once each.
pub fn publish_all(
    words: &Words,
    count: usize,
    seat: &mut Seat<u8, View>,
    t: usize,
    outcome: &Outcome,
)
    requires seat { (seat.old.table_id ≡ words.now.table_id) × IsLive seat.old.me.0 }
    requires place { (t < length (told words.now.key).txns) × HasRoom (told words.now.key) words.now.table_id.words }
    requires count { (count ≡ length (writes_at (told words.now.key) t)) × (count ≤ 16) }
    requires held { (0 < times_first t seat.old.me.0.begins) × (times_first t seat.old.me.0.finishes ≡ 0) }
    requires unset { times_first t seat.old.me.0.published ≡ 0 }
    requires meant { outcome_at (told words.now.key) t ≡ Some outcome.now }
    requires small { (cells : _) → outcome.now ≡ Commit cells → (j x : ℕ) → slice_index_or cells j None ≡ Some x → x < 4611686018427387904 }
    ensures same { (seat.new.table_id ≡ seat.old.table_id) × (seat.new.id ≡ seat.old.id) × (seat.new.me.1 ≡ seat.old.me.1) }
    ensures published { Published ((script (told words.now.key)).parts t) t seat.old.me.0 seat.new.me.0 }
{
    for k in 0..count + 1 {
        let _ = publish::<Brand>(words, seat, t, k, part_word(outcome, k));
    }
}

// Writes one value, where there is one.
fn write_entry(words: &Words, seat: &mut Seat<u8, View>, t: usize, r: usize, cell: Option<u64>)
    requires seat { (seat.old.table_id ≡ words.now.table_id) × IsLive seat.old.me.0 }
    requires place { (r < length (told words.now.key).table.records) × HasRoom (told words.now.key) words.now.table_id.words }
    requires held { (0 < times_first t seat.old.me.0.begins) × (times_first t seat.old.me.0.finishes ≡ 0) }
    requires published { (k : ℕ) → k < (script (told words.now.key)).parts t → 0 < times_pair t k seat.old.me.0.published }
    requires layout { IsLaidOut Values words.now.key }
    requires meant { (x : ℕ) → cell ≡ Some x → (script (told words.now.key)).effect t r ≡ Some x }
    ensures same { (seat.new.table_id ≡ seat.old.table_id) × (seat.new.id ≡ seat.old.id) × (seat.new.me.1 ≡ seat.old.me.1) }
    ensures entered { Entered cell t r seat.old.me.0 seat.new.me.0 }
{
    let Some(value) = cell else {
        return;
    };
    write_value::<Brand>(words, seat, t, r, value);
}

// Writes each value that t gives, once all its words are published.
fn write_entries(
    words: &Words,
    records: &[u16],
    cells: &[Option<u64>],
    seat: &mut Seat<u8, View>,
    t: usize,
)
    requires seat { (seat.old.table_id ≡ words.now.table_id) × IsLive seat.old.me.0 }
    requires place { HasRoom (told words.now.key) words.now.table_id.words × (t < length (told words.now.key).txns) }
    requires held { (0 < times_first t seat.old.me.0.begins) × (times_first t seat.old.me.0.finishes ≡ 0) }
    requires published { (k : ℕ) → k < (script (told words.now.key)).parts t → 0 < times_pair t k seat.old.me.0.published }
    requires records { (k : ℕ) → k < length records.now → slice_index records.now k < length (told words.now.key).table.records }
    requires layout { IsLaidOut Values words.now.key }
    requires meant { (k x : ℕ) → k < length records.now → slice_index_or cells.now k None ≡ Some x → (script (told words.now.key)).effect t (slice_index records.now k) ≡ Some x }
    ensures same { (seat.new.table_id ≡ seat.old.table_id) × (seat.new.id ≡ seat.old.id) × (seat.new.me.1 ≡ seat.old.me.1) }
    ensures wrote { Wrote (length records.now) t records.now cells.now seat.old.me.0 seat.new.me.0 }
{
    for k in 0..records.len() {
        write_entry(words, seat, t, records[k] as usize, cell_at(cells, k));
    }
}

// Writes each value that t gives, once all its words are published.
fn write_all(words: &Words, records: &[u16], seat: &mut Seat<u8, View>, t: usize, outcome: &Outcome)
    requires seat { (seat.old.table_id ≡ words.now.table_id) × IsLive seat.old.me.0 }
    requires place { HasRoom (told words.now.key) words.now.table_id.words × (t < length (told words.now.key).txns) }
    requires records { (records.now ≡ writes_at (told words.now.key) t) × IsRising records.now × ((k : ℕ) → k < length records.now → slice_index records.now k < length (told words.now.key).table.records) }
    requires held { (0 < times_first t seat.old.me.0.begins) × (times_first t seat.old.me.0.finishes ≡ 0) }
    requires published { (k : ℕ) → k < (script (told words.now.key)).parts t → 0 < times_pair t k seat.old.me.0.published }
    requires layout { IsLaidOut Values words.now.key }
    requires meant { outcome_at (told words.now.key) t ≡ Some outcome.now }
    ensures same { (seat.new.table_id ≡ seat.old.table_id) × (seat.new.id ≡ seat.old.id) × (seat.new.me.1 ≡ seat.old.me.1) }
    ensures view { (seat.new.me.0 ≡ record seat.old.me.0 { written = seat.new.me.0.written }) × ((x : ℕ) → x ≢ t → times_first x seat.new.me.0.written ≡ times_first x seat.old.me.0.written) }
    ensures written { (r : ℕ) → Gives (script (told words.now.key)) t r → 0 < times_pair t r seat.new.me.0.written }
{
    match outcome {
        Outcome::Abort(_) => {}
        Outcome::Commit(entries) => {
            write_entries(words, records, entries.as_slice(), seat, t);
        }
    }
}

/// Writes each value that t gives, where the words keep values.
pub fn write_kept(
    words: &Words,
    layout: Layout,
    records: &[u16],
    seat: &mut Seat<u8, View>,
    t: usize,
    outcome: &Outcome,
)
    requires seat { (seat.old.table_id ≡ words.now.table_id) × IsLive seat.old.me.0 }
    requires place { HasRoom (told words.now.key) words.now.table_id.words × (t < length (told words.now.key).txns) }
    requires records { (records.now ≡ writes_at (told words.now.key) t) × IsRising records.now × ((k : ℕ) → k < length records.now → slice_index records.now k < length (told words.now.key).table.records) }
    requires held { (0 < times_first t seat.old.me.0.begins) × (times_first t seat.old.me.0.finishes ≡ 0) }
    requires published { (k : ℕ) → k < (script (told words.now.key)).parts t → 0 < times_pair t k seat.old.me.0.published }
    requires layout { IsLaidOut layout words.now.key }
    requires meant { outcome_at (told words.now.key) t ≡ Some outcome.now }
    ensures same { (seat.new.table_id ≡ seat.old.table_id) × (seat.new.id ≡ seat.old.id) × (seat.new.me.1 ≡ seat.old.me.1) }
    ensures view { (seat.new.me.0 ≡ record seat.old.me.0 { written = seat.new.me.0.written }) × ((x : ℕ) → x ≢ t → times_first x seat.new.me.0.written ≡ times_first x seat.old.me.0.written) }
    ensures written { (r : ℕ) → Gives (scripted words.now.key) t r → 0 < times_pair t r seat.new.me.0.written }
{
    match layout {
        Layout::Values => write_all(words, records, seat, t, outcome),
        Layout::Versions => {}
    }
}

// Counts one edge down. Where the need reaches 0, the position becomes a duty.
fn count_one(
    words: &Words,
    seat: &mut Seat<u8, View>,
    duty: &mut Vec<bool>,
    s: usize,
    t: u16,
    made: &mut Made,
)
    requires seat { (seat.old.table_id ≡ words.now.table_id) × IsLive seat.old.me.0 }
    requires place { (t < length (told words.now.key).txns) × HasRoom (told words.now.key) words.now.table_id.words × (length duty.old.items ≡ length (told words.now.key).txns) }
    requires edge { (0 < times_first s seat.old.me.0.finishes) × (0 < (script (told words.now.key)).edge s t) × (times_pair s t seat.old.me.0.counted ≡ 0) }
    requires room { length made.old < 256 }
    requires duties { AreFlags seat.old.me.0.duties duty.old.items }
    ensures same { (seat.new.table_id ≡ seat.old.table_id) × (seat.new.me.1 ≡ seat.old.me.1) × (length duty.new.items ≡ length duty.old.items) }
    ensures counts { Counts (t ∷ []) s seat.old.me.0 seat.new.me.0 made.old made.new }
    ensures room { length made.new ≤ length made.old + 1 }
    ensures duties { AreFlags seat.new.me.0.duties duty.new.items }
{
    let need = count_down::<Brand>(words, seat, s, t as usize);
    if need != 1 {
        return;
    }
    duty[t as usize] = true;
    made.push(t);
}

/// Counts down the edges from s to own positions.
pub fn count_all(
    words: &Words,
    row: &[u16],
    seat: &mut Seat<u8, View>,
    duty: &mut Vec<bool>,
    s: usize,
    made: &mut Made,
)
    requires seat { (seat.old.table_id ≡ words.now.table_id) × IsLive seat.old.me.0 }
    requires place { HasRoom (told words.now.key) words.now.table_id.words × (length duty.old.items ≡ length (told words.now.key).txns) }
    requires sound { IsSound (scripted words.now.key) }
    requires row { (length row.now ≤ 256) × ((y : ℕ) → times y row.now ≡ (script (told words.now.key)).edge s y) }
    requires done { 0 < times_first s seat.old.me.0.finishes }
    requires new { (y : ℕ) → times_pair s y seat.old.me.0.counted ≡ 0 }
    requires room { made.old ≡ [] }
    requires duties { AreFlags seat.old.me.0.duties duty.old.items }
    ensures same { (seat.new.table_id ≡ seat.old.table_id) × (seat.new.me.1 ≡ seat.old.me.1) × (length duty.new.items ≡ length duty.old.items) }
    ensures counts { Counts row.now s seat.old.me.0 seat.new.me.0 made.old made.new }
    ensures duties { AreFlags seat.new.me.0.duties duty.new.items }
{
    for i in 0..row.len() {
        count_one(words, seat, duty, s, row[i], made);
    }
}
