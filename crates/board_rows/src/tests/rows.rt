//! The rows on one thread, over any value that several workers run a plan on.

ghost use Rattle.std.specs.Prelude.{◌≡◌, ◌<◌, ℕ, length, true, Ok};
ghost use Rattle.board_defs.specs.Closure.{is_own};
ghost use Rattle.board_work.specs.Plans.{IsRunnable, plan_of};

use board_settings::{Task, Want, misses, runs, takes};
use board_work::{Plan, Ran, Work};
use row_trouble::Trouble;
use std::alloc::Global;
use std::process::Abort;
use txn_types::Kind;

// A call answered as the row says.
fn said<T, E>(rt: &impl Abort, answer: Result<T, E>) -> T
    ensures { answer ≡ Ok result }
{
    match answer {
        Ok(answer) => answer,
        Err(_other) => panic!(rt; "not as the row says"),
    }
}

/// Three positions in a chain, run by one of two passes.
#[tactic(auto, using(board_settings::proofs::PassLemmas::two_passes))]
pub fn relay<W: Work, T: Task>(
    rt: &impl Abort,
    alloc: Global,
    plan: &Plan<'_>,
    task: &T,
    wanted: &[Want; 3],
) -> Result<Ran, Trouble>
    requires runnable { IsRunnable plan.now }
    requires task { T.plan task.now ≡ plan_of plan.now }
    requires own { (t : ℕ) → t < length plan.now.block.now.txns → is_own (plan_of plan.now) t ≡ true }
{
    assert!(rt; plan.table.kind == Kind::Full);
    assert_eq!(rt; plan.block.txns.len(), 3);
    let (work, mut first) = W::plan(alloc, plan)?;
    let mut second = work.split(alloc, &mut first)?;
    let held_0 = said(rt, takes(&work, &mut first, 0));
    assert_eq!(rt; said(rt, misses(&work, &mut second, 0)), None);
    assert_eq!(rt; said(rt, misses(&work, &mut second, 1)), Some(1));
    said(rt, runs(&work, task, &mut first, 0, held_0, &wanted[0]));
    let held_1 = said(rt, takes(&work, &mut first, 1));
    assert_eq!(rt; said(rt, misses(&work, &mut first, 2)), Some(1));
    said(rt, runs(&work, task, &mut first, 1, held_1, &wanted[1]));
    let held_2 = said(rt, takes(&work, &mut first, 2));
    said(rt, runs(&work, task, &mut first, 2, held_2, &wanted[2]));
    let both = work.join(first, second);
    assert!(rt; W::untried(&both).is_none());
    Ok(work.close(both))
}

/// A position that writes what an earlier one reads.
pub fn anti_dependency<W: Work, T: Task>(
    rt: &impl Abort,
    alloc: Global,
    plan: &Plan<'_>,
    task: &T,
    wanted: &[Want; 2],
) -> Result<(), Trouble>
    requires runnable { IsRunnable plan.now }
    requires task { T.plan task.now ≡ plan_of plan.now }
    requires own { (t : ℕ) → t < length plan.now.block.now.txns → is_own (plan_of plan.now) t ≡ true }
{
    assert!(rt; plan.table.kind == Kind::Full);
    assert_eq!(rt; plan.block.txns.len(), 2);
    let (work, mut first) = W::plan(alloc, plan)?;
    let mut second = work.split(alloc, &mut first)?;
    let held_0 = said(rt, takes(&work, &mut first, 0));
    assert_eq!(rt; said(rt, misses(&work, &mut second, 1)), Some(1));
    said(rt, runs(&work, task, &mut first, 0, held_0, &wanted[0]));
    Ok(())
}

/// A position that writes what an earlier one reads, by a pass of its own, and before it.
#[tactic(auto, using(board_settings::proofs::PassLemmas::two_passes))]
pub fn beside<W: Work, T: Task>(
    rt: &impl Abort,
    alloc: Global,
    plan: &Plan<'_>,
    task: &T,
    wanted: &[Want; 2],
) -> Result<Ran, Trouble>
    requires raw { W.RAW ≡ true }
    requires runnable { IsRunnable plan.now }
    requires task { T.plan task.now ≡ plan_of plan.now }
    requires own { (t : ℕ) → t < length plan.now.block.now.txns → is_own (plan_of plan.now) t ≡ true }
{
    assert_eq!(rt; plan.block.txns.len(), 2);
    let (work, mut first) = W::plan(alloc, plan)?;
    let mut second = work.split(alloc, &mut first)?;
    let held_0 = said(rt, takes(&work, &mut first, 0));
    let held_1 = said(rt, takes(&work, &mut second, 1));
    said(rt, runs(&work, task, &mut second, 1, held_1, &wanted[1]));
    said(rt, runs(&work, task, &mut first, 0, held_0, &wanted[0]));
    let both = work.join(first, second);
    assert!(rt; W::untried(&both).is_none());
    Ok(work.close(both))
}

/// Two writers of one record side by side, then one that waits for both, then a reader.
#[tactic(auto, using(board_settings::proofs::PassLemmas::two_passes))]
pub fn writers<W: Work, T: Task>(
    rt: &impl Abort,
    alloc: Global,
    plan: &Plan<'_>,
    task: &T,
    wanted: &[Want; 4],
) -> Result<Ran, Trouble>
    requires raw { W.RAW ≡ true }
    requires runnable { IsRunnable plan.now }
    requires task { T.plan task.now ≡ plan_of plan.now }
    requires own { (t : ℕ) → t < length plan.now.block.now.txns → is_own (plan_of plan.now) t ≡ true }
{
    assert_eq!(rt; plan.block.txns.len(), 4);
    let (work, mut first) = W::plan(alloc, plan)?;
    let mut second = work.split(alloc, &mut first)?;
    let held_0 = said(rt, takes(&work, &mut first, 0));
    let held_1 = said(rt, takes(&work, &mut second, 1));
    assert_eq!(rt; said(rt, misses(&work, &mut second, 2)), Some(2));
    said(rt, runs(&work, task, &mut second, 1, held_1, &wanted[1]));
    said(rt, runs(&work, task, &mut first, 0, held_0, &wanted[0]));
    let held_2 = said(rt, takes(&work, &mut first, 2));
    said(rt, runs(&work, task, &mut first, 2, held_2, &wanted[2]));
    let held_3 = said(rt, takes(&work, &mut second, 3));
    said(rt, runs(&work, task, &mut second, 3, held_3, &wanted[3]));
    let both = work.join(first, second);
    assert!(rt; W::untried(&both).is_none());
    Ok(work.close(both))
}
