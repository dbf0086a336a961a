// Plans of a block, and their runs.

ghost use Rattle.std.specs.Prelude.{◌≡◌, ◌<◌, ◌≤◌, ℕ, length, IsTrue};
ghost use Rattle.oxii_defs.specs.Lawful.{IsLawfulTable, IsLawfulBlock};
ghost use Rattle.txn_core.specs.MeantTable.{table_of};
ghost use Rattle.txn_core.specs.Graphs.{IsGraphOf};
ghost use Rattle.burst_rows.specs.Standing.{CanStand};

use super::setting::Setting;
use board_work::{Own, Plan, Ran, Work};
use dep_graph::{build, knows_preds};
use std::alloc::Global;
use std::test::Fail;
use std::thread::Threads;
use steal_pool::{Gate, burst};
use txn_types::{Kind, Known, OutOfMemory, Outcome, Writes};

fn wrote(value: u64) -> Outcome {
    let mut entries = Writes::empty();
    entries.add(Some(value));
    Outcome::Commit(entries)
}

/// For each position nothing, or that it wrote this value.
pub fn outcomes(alloc: Global, values: &[Option<u64>]) -> Result<Known, OutOfMemory> {
    let mut outcomes = Known::new(alloc);
    for value in values {
        outcomes.push(value.map(wrote))?;
    }
    Ok(outcomes)
}

fn own(alloc: Global, positions: &[bool]) -> Result<Own, OutOfMemory> {
    let mut own = Own::new(alloc);
    for position in positions {
        own.push(*position)?;
    }
    Ok(own)
}

// Whether a position isn't known, or can be: it isn't to be run, its outcome fits, and what it depends on is known.
fn can_stand(plan: &Plan, t: u16) -> bool
    requires graph { IsGraphOf plan.now.block.now.txns plan.now.graph.now }
    requires known { length plan.now.known.now ≡ length plan.now.block.now.txns }
    requires own { length plan.now.own.now ≡ length plan.now.block.now.txns }
    requires place { t < length plan.now.block.now.txns }
    ensures { IsTrue result → CanStand plan.now t }
{
    let Some(outcome) = &plan.known.as_slice()[t as usize] else {
        return true;
    };
    t < plan.graph.len()
        && !plan.own.as_slice()[t as usize]
        && outcome.fits(&plan.block.txns.as_slice()[t as usize])
        && knows_preds(plan.block, plan.graph, t, plan.known.as_slice())
}

fn all_can_stand(plan: &Plan) -> bool
    requires few { length plan.now.block.now.txns < 65536 }
    requires graph { IsGraphOf plan.now.block.now.txns plan.now.graph.now }
    requires known { length plan.now.known.now ≡ length plan.now.block.now.txns }
    requires own { length plan.now.own.now ≡ length plan.now.block.now.txns }
    ensures { IsTrue result → (t : ℕ) → t < length plan.now.block.now.txns → CanStand plan.now t }
{
    for t in 0..plan.block.txns.len() {
        if !can_stand(plan, t as u16) {
            return false;
        }
    }
    true
}

/// Runs the block on such a board by so many workers, where these positions are to be run and these values are known.
pub fn run<W: Work, G: Gate, R: Threads + Sync>(
    rt: &R,
    alloc: Global,
    setting: &Setting,
    positions: &[bool],
    values: &[Option<u64>],
    workers: u8,
    gate: &G,
) -> Result<Ran, Fail>
    requires table { IsLawfulTable (table_of setting.now.table) }
    requires base { length setting.now.base ≡ length setting.now.table.records }
    requires block { IsLawfulBlock (table_of setting.now.table) setting.now.block }
    requires workers { (1 ≤ workers) × (workers ≤ 16) }
{
    let block = &setting.block;
    if block.txns.len() > 256 {
        return Err("a long block".into());
    }
    let graph = build(alloc, block, setting.table.kind)?;
    let plan = Plan {
        table: &setting.table,
        block,
        graph: &graph,
        known: &outcomes(alloc, values)?,
        own: &own(alloc, positions)?,
        base: &setting.base,
    };
    if setting.table.kind != Kind::Full
        || plan.known.len() != block.txns.len()
        || plan.own.len() != block.txns.len()
        || !all_can_stand(&plan)
    {
        return Err("no lawful plan".into());
    }
    // Reading the values tells that each is in its range.
    let _ = setting.base.as_slice();
    Ok(burst::<W, G, R>(rt, alloc, &plan, workers, gate)?)
}
