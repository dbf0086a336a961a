//! A pass: what one worker knows and has in hand.
ghost use Rattle.board_words.specs.Runs.{run_at};
ghost use Rattle.std.specs.Prelude.{◌≡◌, ◌≢◌, ◌==◌, ◌||◌, ◌<◌, ℕ, false, Some, None, is_some, length, replicate, slice_index, slice_index_or, IfOk, if◌then◌else◌};

use atomic_table::Seat;
use board_core::View;
use board_steps::About;
use board_work::Span;
use std::alloc::Global;
use std::marker::Model;
use std::snapshot::Snapshot;
use txn_types::OutOfMemory;

/// What one worker knows. Its lists have an entry for each position, so that no call of a pass takes memory.
#[derive(Drop)]
pub struct Pass {
    pub(crate) seat: Seat<u8, View>,
    pub(crate) about: Snapshot<About>,
    pub(crate) number: u8,
    // its count of passes
    pub(crate) passes: u8,
    pub(crate) duty: Vec<bool>,
    pub(crate) tried: Vec<bool>,
    // with 1 added, and 0 for none
    pub(crate) begins: Vec<u64>,
    pub(crate) runs: Vec<Option<Span>>,
}

impl Model for Pass {
    ghost use Rattle.std.specs.Prelude.{◌≡◌, ◌≤◌, ◌<◌, [], length};
    ghost use Rattle.board_core.specs.Passes.{Fits, IsSettled};
    ghost use Rattle.board_work.specs.Scripts.{script};
    ghost use Rattle.board_steps.specs.Abouts.{told};
    ghost use Rattle.board_words.specs.Runs.{run_at};
    ghost use Rattle.board_frame.specs.Seen.{Seen, seen};
    ghost use Rattle.std.specs.Coded.{codes};
    // a table holds statements, which hold themselves
    ghost use Rattle.txn_core.specs.contracts.syntax.Stmt as e;

    ghost Value = { Seen };

    ghost coded = { Prim.hlevel (codes, e.the_row.coded) };

    ghost view = { λ p. seen p.seat.table_id p.about.value p.seat.me.0 };

    ghost invariant = { λ p. Fits p.seat.me.0 p.duty.items p.tried.items p.begins.items (run_at p.runs.items) × (p.seat.me.1 ≡ []) × (length p.duty.items ≡ length (told p.about.value).txns) × IsSettled (script (told p.about.value)) p.seat.me.0 × (length p.runs.items ≡ length p.duty.items) × (p.number ≡ p.seat.me.0.number) × (p.passes ≡ p.seat.me.0.passes) × (p.passes ≤ 16) × (length (told p.about.value).txns ≤ 256) × (length (told p.about.value).own ≡ length (told p.about.value).txns) };
}

impl Pass {
    ghost use Rattle.board_core.specs.Counts.{times_pair};
    ghost use Rattle.board_core.specs.Passes.{IsHeld, IsSettled};
    ghost use Rattle.board_work.specs.Scripts.{script};
    ghost use Rattle.board_steps.specs.Abouts.{told};

    // What each pass keeps.
    pub(crate) fn stands(&self)
        ensures settled { IsSettled (script (told self.now.about)) self.now.view }
    {
        let _ = &self.duty;
    }

    // The begin stamp of a position that it holds.
    pub(crate) fn begin_of(&self, t: usize) -> u64
        requires held { IsHeld self.now.view t }
        ensures begun { 0 < times_pair t result self.now.view.begins }
    {
        self.begins[t] - 1
    }
}

/// The marks, the begins and the runs of a pass that has done nothing.
#[derive(Drop)]
pub(crate) struct Marks {
    pub(crate) tried: Vec<bool>,
    pub(crate) begins: Vec<u64>,
    pub(crate) runs: Vec<Option<Span>>,
}

pub(crate) fn no_marks(alloc: Global, size: usize) -> Result<Marks, OutOfMemory>
    ensures tried { IfOk result (λ b. b.tried.items ≡ replicate size false) }
    ensures begins { IfOk result (λ b. b.begins.items ≡ replicate size 0) }
    ensures runs { IfOk result (λ b. b.runs.items ≡ replicate size None) }
{
    let tried = Vec::from_elem(alloc, false, size)?;
    let begins = Vec::from_elem(alloc, 0u64, size)?;
    let runs = Vec::from_elem(alloc, None, size)?;
    Ok(Marks {
        tried,
        begins,
        runs,
    })
}

// Sets each flag that is set in the other list.
pub(crate) fn merge_flags(keep: &mut Vec<bool>, other: &[bool])
    requires { length keep.old.items ≡ length other.now }
    ensures same { length keep.new.items ≡ length keep.old.items }
    ensures each { (k : ℕ) → k < length keep.new.items → slice_index_or keep.new.items k false ≡ slice_index_or keep.old.items k false || slice_index_or other.now k false }
{
    for t in 0..other.len() {
        let both = keep[t] || other[t];
        keep[t] = both;
    }
}

// Takes each stamp that the other list has.
pub(crate) fn merge_stamps(keep: &mut Vec<u64>, other: &[u64])
    requires { length keep.old.items ≡ length other.now }
    ensures same { length keep.new.items ≡ length keep.old.items }
    ensures each { (k : ℕ) → k < length keep.new.items → slice_index keep.new.items k ≡ (if slice_index other.now k == 0 then slice_index keep.old.items k else slice_index other.now k) }
{
    for t in 0..other.len() {
        let stamp = if other[t] == 0 { keep[t] } else { other[t] };
        keep[t] = stamp;
    }
}

// Takes each run that the other list has.
pub(crate) fn merge_runs(keep: &mut Vec<Option<Span>>, other: &[Option<Span>])
    requires { length keep.old.items ≡ length other.now }
    ensures same { length keep.new.items ≡ length keep.old.items }
    ensures each { (k : ℕ) → k < length keep.new.items → slice_index_or keep.new.items k None ≡ (if is_some (slice_index_or other.now k None) then slice_index_or other.now k None else slice_index_or keep.old.items k None) }
{
    for t in 0..other.len() {
        let run = if other[t].is_some() {
            other[t]
        } else {
            keep[t]
        };
        keep[t] = run;
    }
}

// Puts the run of t in its place.
pub(crate) fn put_run(runs: &mut Vec<Option<Span>>, t: usize, worker: u8, begin: u64, finish: u64)
    requires { (t < length runs.old.items) × (t < 256) }
    ensures same { length runs.new.items ≡ length runs.old.items }
    ensures put { run_at runs.new.items t ≡ Some (t, worker, begin, finish) }
    ensures others { (k : ℕ) → k ≢ t → run_at runs.new.items k ≡ run_at runs.old.items k }
{
    runs[t] = Some(Span {
        t: t as u16,
        worker,
        begin,
        finish,
    });
}
