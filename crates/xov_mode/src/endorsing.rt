//! The outcome of each transaction in the state at the block's start.

ghost use Rattle.std.specs.Prelude.{◌≡◌, ◌≤◌, ◌++◌, length, OnOk, IfOk};
ghost use Rattle.std.specs.List.{All};
ghost use Rattle.oxii_defs.specs.Lawful.{IsLawfulTable, IsLawfulTxn, IsLawfulBlock};
ghost use Rattle.oxii_defs.specs.SerialRuns.{RunsSerially};
ghost use Rattle.txn_types.specs.Fitting.{Fits};
ghost use Rattle.txn_core.specs.MeantTable.{table_of};
ghost use Rattle.txn_core.specs.States.{state_of};
ghost use Rattle.xov_mode.specs.Endorsed.{AreEndorsed, AllFit, endorsed};

use std::alloc::Global;
use std::thread;
use std::thread::Threads;
use txn_core::{Scratch, Table, outcome_at};
use txn_types::{Block, OutOfMemory, Outcomes, Txn, Values};

// The transactions of a part, one after another.
fn endorse_part(
    alloc: Global,
    table: &Table,
    txns: &[Txn],
    base: &Values,
) -> Result<Outcomes, OutOfMemory>
    requires table { IsLawfulTable (table_of table.now) }
    requires lawful { All (IsLawfulTxn (table_of table.now)) txns.now }
    requires records { length base.now ≡ length table.now.records }
    ensures { IfOk result (λ os. os ≡ endorsed (table_of table.now) (state_of base.now) txns.now) }
{
    let mut scratch = Scratch::new();
    let mut outcomes = Outcomes::new(alloc);
    for txn in txns {
        outcomes.push(outcome_at(table, txn, base, &mut scratch))?;
    }
    Ok(outcomes)
}

// These outcomes, and those behind them.
fn joined(mut front: Outcomes, back: &Outcomes) -> Result<Outcomes, OutOfMemory>
    ensures { IfOk result (λ os. os ≡ front ++ back.now) }
{
    for outcome in back.as_slice() {
        front.push(outcome.copy())?;
    }
    Ok(front)
}

// Two halves, beside one another.
#[tactic(auto, using(crate::proofs::Halves::endorsed_halves))]
fn endorse_halves<R: Threads + Sync>(
    rt: &R,
    alloc: Global,
    table: &Table,
    txns: &[Txn],
    base: &Values,
) -> Result<Outcomes, OutOfMemory>
    requires table { IsLawfulTable (table_of table.now) }
    requires lawful { All (IsLawfulTxn (table_of table.now)) txns.now }
    requires records { length base.now ≡ length table.now.records }
    ensures { IfOk result (λ os. os ≡ endorsed (table_of table.now) (state_of base.now) txns.now) }
{
    let (front, back) = txns.split_at(txns.len() / 2);
    let (front, back) = thread::join(
        rt,
        move || -> Result<Outcomes, OutOfMemory>
            requires { IsLawfulTable (table_of table.now) × All (IsLawfulTxn (table_of table.now)) front.now × (length base.now ≡ length table.now.records) }
            ensures { IfOk result (λ os. os ≡ endorsed (table_of table.entry.now) (state_of base.entry.now) front.entry.now) }
        { endorse_part(alloc, table, front, base) },
        move || -> Result<Outcomes, OutOfMemory>
            requires { IsLawfulTable (table_of table.now) × All (IsLawfulTxn (table_of table.now)) back.now × (length base.now ≡ length table.now.records) }
            ensures { IfOk result (λ os. os ≡ endorsed (table_of table.entry.now) (state_of base.entry.now) back.entry.now) }
        { endorse_part(alloc, table, back, base) },
    );
    joined(front?, &back?)
}

/// What each transaction of a block comes to in the state at its start, in two threads.
pub fn endorse<R: Threads + Sync>(
    rt: &R,
    alloc: Global,
    table: &Table,
    block: &Block,
    base: &Values,
) -> Result<Outcomes, OutOfMemory>
    requires table { IsLawfulTable (table_of table.now) }
    requires block { IsLawfulBlock (table_of table.now) block.now }
    requires records { length base.now ≡ length table.now.records }
    ensures endorsed { IfOk result (AreEndorsed (table_of table.now) (state_of base.now) block.now.txns) }
    ensures same { IfOk result (λ os. os ≡ endorsed (table_of table.now) (state_of base.now) block.now.txns) }
    ensures fit { IfOk result (AllFit block.now.txns) }
{
    let _known = base.as_slice();
    endorse_halves(rt, alloc, table, block.txns.as_slice(), base)
}
