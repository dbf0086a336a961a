//! One function for each kind of step on a word.
ghost use Rattle.std.specs.Prelude.{◌≡◌, ◌≢◌, ◌<◌, ◌*◌, ◌+◌, ◌≤◌, ℕ, ◌⊎◌, length, true, Some};
ghost use Rattle.board_core.specs.Counts.{times_first, times_pair, times};
ghost use Rattle.board_core.specs.Script.{Runs, Uses, Gives, serial_value};
ghost use Rattle.board_core.specs.Rule.{IsLive};
ghost use Rattle.board_core.specs.Steps.{loaded, swapped, begun, finished, counted_down, publishing, writing};
ghost use Rattle.board_defs.specs.Closure.{is_own};
ghost use Rattle.board_work.specs.Scripts.{script, word_of, outcome_at, writes_at};
ghost use Rattle.board_work.specs.declared.layout.Layout.TheVariants.{Values};
ghost use Rattle.board_steps.specs.Abouts.{told, scripted, IsLaidOut, HasRoom};

use crate::about::About;
use crate::plays::{
    BeginStamp, CountDown, FinishStamp, Found, LoadNeed, LoadWord, Pair, Position, Publish, Rule,
    SwapTurn, WriteValue,
};
use atomic_table::{Seat, Shared};
use board_core::View;

/// The words of a board, under its rule.
pub type Words = Shared<u8, View, About, Rule>;

/// Loads the need of t. That of a duty is 0.
pub fn load_need<J: Position>(words: &Words, seat: &mut Seat<u8, View>, t: usize) -> u64
    requires seat { (seat.old.table_id ≡ words.now.table_id) × IsLive seat.old.me.0 }
    requires place { (t ≡ J.position) × (t < length (told words.now.key).txns) × HasRoom (told words.now.key) words.now.table_id.words }
    requires own { is_own (told words.now.key) t ≡ true }
    ensures same { (seat.new.table_id ≡ seat.old.table_id) × (seat.new.id ≡ seat.old.id) }
    ensures view { seat.new.me ≡ (loaded t result seat.old.me.0, seat.old.me.1) }
    ensures duty { 0 < times t seat.old.me.0.duties → result ≡ 0 }
{
    words.load::<LoadNeed<J>>(seat, 38 * t + 1)
}

/// Swaps the turn of t to 1. The pass takes t where it was 0.
pub fn swap_turn<J: Position>(words: &Words, seat: &mut Seat<u8, View>, t: usize) -> u64
    requires seat { (seat.old.table_id ≡ words.now.table_id) × IsLive seat.old.me.0 }
    requires place { (t ≡ J.position) × (t < length (told words.now.key).txns) × HasRoom (told words.now.key) words.now.table_id.words }
    requires ready { 0 < times t seat.old.me.0.ready }
    ensures same { (seat.new.table_id ≡ seat.old.table_id) × (seat.new.id ≡ seat.old.id) }
    ensures view { seat.new.me ≡ (swapped t result seat.old.me.0, seat.old.me.1) }
    ensures fresh { result ≡ 0 → (times_first t seat.old.me.0.begins ≡ 0) × (times_first t seat.old.me.0.finishes ≡ 0) }
{
    words.swap::<SwapTurn<J>>(seat, 38 * t + 3, 1)
}

/// The begin stamp of t.
pub fn begin_stamp<J: Position>(words: &Words, seat: &mut Seat<u8, View>, t: usize) -> u64
    requires seat { (seat.old.table_id ≡ words.now.table_id) × IsLive seat.old.me.0 }
    requires place { (t ≡ J.position) × (J.script ≡ scripted words.now.key) × HasRoom (told words.now.key) words.now.table_id.words }
    requires taken { (0 < times t seat.old.me.0.taken) × (times_first t seat.old.me.0.begins ≡ 0) }
    ensures same { (seat.new.table_id ≡ seat.old.table_id) × (seat.new.id ≡ seat.old.id) }
    ensures view { seat.new.me ≡ (begun t result seat.old.me.0, seat.old.me.1) }
    ensures small { result ≤ 512 }
    ensures runs { Runs (script (told words.now.key)) t }
{
    words.fetch_add::<BeginStamp<J>>(seat, 0, 1)
}

/// Loads the value of a record that a held position uses, which is its serial value.
pub fn load_value<J: Found>(words: &Words, seat: &mut Seat<u8, View>, t: usize, r: usize) -> u64
    requires seat { (seat.old.table_id ≡ words.now.table_id) × IsLive seat.old.me.0 }
    requires place { (J.found ≡ serial_value (script (told words.now.key)) t r) × (r < length (told words.now.key).table.records) × HasRoom (told words.now.key) words.now.table_id.words }
    requires held { (0 < times_first t seat.old.me.0.begins) × (times_first t seat.old.me.0.finishes ≡ 0) × (times_first t seat.old.me.0.written ≡ 0) }
    requires uses { Uses (script (told words.now.key)) t r }
    requires layout { IsLaidOut Values words.now.key }
    ensures same { (seat.new.table_id ≡ seat.old.table_id) × (seat.new.id ≡ seat.old.id) × (seat.new.me ≡ seat.old.me) }
    ensures value { result ≡ serial_value (script (told words.now.key)) t r }
{
    words.load::<LoadWord<J>>(seat, 2 * r + 2)
}

/// Loads a word of x that is set at the start, or that x published before t, which waited for it, was taken.
pub fn load_part<J: Found>(
    words: &Words,
    seat: &mut Seat<u8, View>,
    t: usize,
    x: usize,
    k: usize,
) -> u64
    requires seat { (seat.old.table_id ≡ words.now.table_id) × IsLive seat.old.me.0 }
    requires place { (J.found ≡ word_of (outcome_at (told words.now.key) x) k) × (x < length (told words.now.key).txns) × HasRoom (told words.now.key) words.now.table_id.words }
    requires part { (k < 1 + length (writes_at (told words.now.key) x)) × (k < 17) }
    requires held { 0 < times_first t seat.old.me.0.begins }
    requires set { ((scripted words.now.key).fixed x k ≡ true) ⊎ (0 < (script (told words.now.key)).edge x t) }
    ensures same { (seat.new.table_id ≡ seat.old.table_id) × (seat.new.id ≡ seat.old.id) × (seat.new.me ≡ seat.old.me) }
    ensures value { result ≡ word_of (outcome_at (told words.now.key) x) k }
{
    words.load::<LoadWord<J>>(seat, 38 * x + 5 + 2 * k)
}

/// Publishes one word of t, as meant, where nothing was published, and returns the word that it replaced, which is 0.
pub fn publish<J: Pair>(
    words: &Words,
    seat: &mut Seat<u8, View>,
    t: usize,
    k: usize,
    word: u64,
) -> u64
    requires seat { (seat.old.table_id ≡ words.now.table_id) × IsLive seat.old.me.0 }
    requires place { (t ≡ J.from) × (k ≡ J.to) × (t < length (told words.now.key).txns) × HasRoom (told words.now.key) words.now.table_id.words }
    requires part { (k < (script (told words.now.key)).parts t) × (k < 17) × (word ≡ (script (told words.now.key)).meant t k) }
    requires held { (0 < times_first t seat.old.me.0.begins) × (times_first t seat.old.me.0.finishes ≡ 0) }
    requires unset { times_pair t k seat.old.me.0.published ≡ 0 }
    ensures same { (seat.new.table_id ≡ seat.old.table_id) × (seat.new.id ≡ seat.old.id) }
    ensures view { seat.new.me ≡ (publishing t k seat.old.me.0, seat.old.me.1) }
    ensures empty { result ≡ 0 }
{
    words.swap::<Publish<J>>(seat, 38 * t + 5 + 2 * k, word)
}

/// Writes a value that the outcome of t gives, once all words of t are published.
pub fn write_value<J: Pair>(
    words: &Words,
    seat: &mut Seat<u8, View>,
    t: usize,
    r: usize,
    value: u64,
)
    requires seat { (seat.old.table_id ≡ words.now.table_id) × IsLive seat.old.me.0 }
    requires place { (t ≡ J.from) × (r ≡ J.to) × (r < length (told words.now.key).table.records) × HasRoom (told words.now.key) words.now.table_id.words }
    requires held { (0 < times_first t seat.old.me.0.begins) × (times_first t seat.old.me.0.finishes ≡ 0) }
    requires published { (k : ℕ) → k < (script (told words.now.key)).parts t → 0 < times_pair t k seat.old.me.0.published }
    requires meant { (script (told words.now.key)).effect t r ≡ Some value }
    requires layout { IsLaidOut Values words.now.key }
    ensures same { (seat.new.table_id ≡ seat.old.table_id) × (seat.new.id ≡ seat.old.id) }
    ensures view { seat.new.me ≡ (writing t r seat.old.me.0, seat.old.me.1) }
{
    words.swap::<WriteValue<J>>(seat, 2 * r + 2, value);
}

/// The finish stamp of t, which began at `begin`. The pass has the run of t then.
pub fn finish_stamp<J: Pair>(words: &Words, seat: &mut Seat<u8, View>, t: usize, begin: u64) -> u64
    requires seat { (seat.old.table_id ≡ words.now.table_id) × IsLive seat.old.me.0 }
    requires place { (t ≡ J.from) × (begin ≡ J.to) × HasRoom (told words.now.key) words.now.table_id.words }
    requires held { (0 < times_pair t begin seat.old.me.0.begins) × (0 < times_first t seat.old.me.0.begins) × (times_first t seat.old.me.0.finishes ≡ 0) }
    requires published { (k : ℕ) → k < (script (told words.now.key)).parts t → 0 < times_pair t k seat.old.me.0.published }
    requires written { (r : ℕ) → Gives (scripted words.now.key) t r → 0 < times_pair t r seat.old.me.0.written }
    ensures same { (seat.new.table_id ≡ seat.old.table_id) × (seat.new.id ≡ seat.old.id) }
    ensures view { seat.new.me ≡ (finished t begin result seat.old.me.0, seat.old.me.1) }
    ensures small { result ≤ 512 }
    ensures uncounted { (u : ℕ) → times_pair t u seat.old.me.0.counted ≡ 0 }
{
    words.fetch_add::<FinishStamp<J>>(seat, 0, 1)
}

/// Counts the edge from s to t. Where the need was 1, t becomes a duty.
pub fn count_down<J: Pair>(words: &Words, seat: &mut Seat<u8, View>, s: usize, t: usize) -> u64
    requires seat { (seat.old.table_id ≡ words.now.table_id) × IsLive seat.old.me.0 }
    requires place { (s ≡ J.from) × (t ≡ J.to) × (t < length (told words.now.key).txns) × HasRoom (told words.now.key) words.now.table_id.words }
    requires edge { (0 < times_first s seat.old.me.0.finishes) × (0 < (script (told words.now.key)).edge s t) × (times_pair s t seat.old.me.0.counted ≡ 0) }
    ensures same { (seat.new.table_id ≡ seat.old.table_id) × (seat.new.id ≡ seat.old.id) }
    ensures view { seat.new.me ≡ (counted_down s t result seat.old.me.0, seat.old.me.1) }
{
    words.fetch_sub::<CountDown<J>>(seat, 38 * t + 1, 1)
}
