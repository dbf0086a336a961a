//! The start: the rows, the needs, the duties and the values.
ghost use Rattle.std.specs.Prelude.{◌≡◌, ◌≢◌, ◌<◌, ◌≤◌, ◌*◌, ◌+◌, ℕ, length, slice_index, slice_index_or, true, false, [], ◌∷◌, ◌++◌, IfOk, OnOk, if◌then◌else◌};
ghost use Rattle.atomic_table.specs.Table.{opening};
ghost use Rattle.txn_types.specs.Rising.{IsRising};
ghost use Rattle.known_defs.specs.Known.{txn_at};
ghost use Rattle.board_core.specs.Counts.{below, hit, times};
ghost use Rattle.board_core.specs.Words.{need, need_at};
ghost use Rattle.board_core.specs.Steps.{ready_below, first_view};
ghost use Rattle.board_core.specs.Rule.{Holds};
ghost use Rattle.board_core.specs.Passes.{AreFlags};
ghost use Rattle.board_work.specs.Scripts.{AreHeld, script, script_of, waits};
ghost use Rattle.board_work.specs.Plans.{plan_of};
ghost use Rattle.board_steps.specs.Abouts.{HasRoom};
ghost use Rattle.board_words.specs.Filled.{AreRows, IsGraphed, IsBoardPlan};

use crate::early::fill_known;
use board_work::{Layout, Plan};
use std::alloc::Global;
use txn_types::{GrowingList, OutOfMemory, Preds, Txn};

// Whether t is to be run, and waits for s.
fn waits_for(plan: &Plan<'_>, s: usize, t: usize) -> bool
    requires planned { IsGraphed plan.now }
    requires places { (s < length plan.now.block.now.txns) × (t < length plan.now.block.now.txns) }
    ensures { result ≡ waits (plan_of plan.now) s t }
{
    if !plan.own.as_slice()[t] {
        return false;
    }
    if plan.known.as_slice()[s].is_some() {
        return false;
    }
    plan.graph.has_pred(t as u16, s as u16)
}

// Puts a position at the end, where it waits.
fn add_where(row: &mut GrowingList<u16>, waits: bool, t: u16) -> Result<(), OutOfMemory>
    ensures { OnOk result (row.new ≡ (if waits then row.old ++ t ∷ [] else row.old)) }
{
    if waits {
        row.push(t)?;
    }
    Ok(())
}

// The own positions that wait for s. Only those after it may.
fn row_of(alloc: Global, plan: &Plan<'_>, s: usize) -> Result<GrowingList<u16>, OutOfMemory>
    requires planned { IsGraphed plan.now }
    requires place { s < length plan.now.block.now.txns }
    ensures short { IfOk result (λ row. length row ≤ 256) }
    ensures edges { IfOk result (λ row. (y : ℕ) → times y row ≡ (script (plan_of plan.now)).edge s y) }
{
    let mut row = GrowingList::new(alloc);
    let count = plan.block.txns.len();
    for t in s + 1..count {
        let waits = waits_for(plan, s, t);
        add_where(&mut row, waits, t as u16)?;
    }
    Ok(row)
}

// For each position those that wait for it.
fn rows_of(alloc: Global, plan: &Plan<'_>) -> Result<Preds, OutOfMemory>
    requires planned { IsGraphed plan.now }
    ensures { IfOk result (AreRows (plan_of plan.now)) }
{
    let mut rows = Preds::new(alloc);
    for s in 0..plan.block.txns.len() {
        let row = row_of(alloc, plan, s)?;
        rows.push(row)?;
    }
    Ok(rows)
}

// One more need of a position.
fn add_need(words: &mut Vec<u64>, t: usize)
    requires room { (38 * t + 38 < length words.old.items) × (t ≤ 256) }
    requires small { need words.old.items t ≤ 65536 }
    ensures same { length words.new.items ≡ length words.old.items }
    ensures needs { (x : ℕ) → need words.new.items x ≡ hit x t + need words.old.items x }
    ensures others { (i : ℕ) → i ≢ need_at t → slice_index words.new.items i ≡ slice_index words.old.items i }
{
    words[38 * t + 1] += 1;
}

// Counts what waits for one position.
fn add_needs(words: &mut Vec<u64>, row: &[u16])
    requires room { (k : ℕ) → k < length row.now → (38 * slice_index row.now k + 38 < length words.old.items) × (slice_index row.now k ≤ 256) }
    requires once { (x : ℕ) → times x row.now ≤ 1 }
    requires small { (x : ℕ) → need words.old.items x ≤ 65535 }
    ensures same { length words.new.items ≡ length words.old.items }
    ensures needs { (x : ℕ) → need words.new.items x ≡ times x row.now + need words.old.items x }
    ensures others { (i : ℕ) → ((t : ℕ) → i ≢ need_at t) → slice_index words.new.items i ≡ slice_index words.old.items i }
{
    for i in 0..row.len() {
        add_need(words, row[i] as usize);
    }
}

// The sets of a transaction are as their types say.
fn sets_are_held(txn: &Txn)
    ensures { (length txn.now.reads ≤ 16) × (length txn.now.writes ≤ 16) × IsRising txn.now.writes }
{
    let _ = txn.reads.as_slice();
    let _ = txn.writes.as_slice();
}

fn all_sets_are_held(txns: &[Txn])
    ensures { (t : ℕ) → (length (txn_at txns.now t).reads ≤ 16) × (length (txn_at txns.now t).writes ≤ 16) × IsRising (txn_at txns.now t).writes }
{
    for t in 0..txns.len() {
        sets_are_held(&txns[t]);
    }
}

// Counts each need: the positions that are waited for.
fn count_needs(words: &mut Vec<u64>, rows: &[GrowingList<u16>])
    requires room { (38 * length rows.now < length words.old.items) × (length rows.now ≤ 256) }
    requires low { (s y : ℕ) → 0 < times y (slice_index_or rows.now s []) → y < length rows.now }
    requires once { (s y : ℕ) → times y (slice_index_or rows.now s []) ≤ 1 }
    requires none { (t : ℕ) → need words.old.items t ≡ 0 }
    ensures same { length words.new.items ≡ length words.old.items }
    ensures needs { (t : ℕ) → need words.new.items t ≡ below (length rows.now) (λ s. times t (slice_index_or rows.now s [])) }
    ensures others { (i : ℕ) → ((t : ℕ) → i ≢ need_at t) → slice_index words.new.items i ≡ slice_index words.old.items i }
{
    for s in 0..rows.len() {
        let row = rows[s].as_slice();
        add_needs(words, row);
    }
}

// The own positions that need none.
fn first_duties(alloc: Global, own: &[bool], words: &[u64]) -> Result<Vec<bool>, OutOfMemory>
    requires room { (38 * length own.now < length words.now) × (length own.now ≤ 256) }
    ensures long { IfOk result (λ v. length v.items ≡ length own.now) }
    ensures each { IfOk result (λ v. (t : ℕ) → t < length own.now → (slice_index_or v.items t false ≡ true → (slice_index_or own.now t false ≡ true) × (need words.now t ≡ 0)) × (slice_index_or own.now t false ≡ true → need words.now t ≡ 0 → slice_index_or v.items t false ≡ true)) }
{
    let mut duty = Vec::from_elem(alloc, false, own.len())?;
    for t in 0..own.len() {
        let ready = own[t] && words[38 * t + 1] == 0;
        duty[t] = ready;
    }
    Ok(duty)
}

/// What a plan fills in: the own positions that wait for each position, the words, and the first duties.
#[derive(Drop)]
pub struct Opening {
    pub rows: Preds,
    pub words: Vec<u64>,
    pub duty: Vec<bool>,
}

/// The rows, the words and the duties with which a board begins.
pub fn opening_of(alloc: Global, plan: &Plan<'_>, layout: Layout) -> Result<Opening, OutOfMemory>
    requires planned { IsBoardPlan layout plan.now }
    ensures held { AreHeld (plan_of plan.now) }
    ensures rows { IfOk result (λ o. AreRows (plan_of plan.now) o.rows) }
    ensures room { IfOk result (λ o. HasRoom (plan_of plan.now) (length o.words.items)) }
    ensures words { IfOk result (λ o. Holds (script_of layout (plan_of plan.now)) (opening o.words.items [] (first_view (script_of layout (plan_of plan.now))))) }
    ensures duty { IfOk result (λ o. (length o.duty.items ≡ length plan.now.block.now.txns) × AreFlags (ready_below (length plan.now.block.now.txns) (script_of layout (plan_of plan.now))) o.duty.items) }
{
    let size = plan.block.txns.len();
    let records = plan.table.records.len();
    all_sets_are_held(plan.block.txns.as_slice());
    let rows = rows_of(alloc, plan)?;
    let mut words = Vec::from_elem(alloc, 0u64, 38 * size + 2 * records + 1)?;
    count_needs(&mut words, rows.as_slice());
    fill_known(alloc, &mut words, plan, layout)?;
    let duty = first_duties(alloc, plan.own.as_slice(), words.as_slice())?;
    Ok(Opening { rows, words, duty })
}
