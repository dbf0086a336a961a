//! One burst: a plan, its passes, the workers, and what ran.
ghost use Rattle.std.specs.Prelude.{◌≡◌, ◌≤◌, ◌<◌, ℕ, All, IfOk, length, map, max, min, take, false};
ghost use Rattle.std.specs.List.{count_by};
ghost use Rattle.txn_types.specs.declared.txn.Kind.TheVariants.{Full};
ghost use Rattle.board_defs.specs.Closure.{can_run, ran_positions, run_outcomes};
ghost use Rattle.board_work.specs.PassStates.{IsFirst};
ghost use Rattle.board_work.specs.Plans.{IsRunnable, plan_of};
ghost use Rattle.board_work.specs.Spans.{span_of};
ghost use Rattle.steal_pool.specs.Fitting.{AllFitAt};
ghost use Rattle.steal_pool.specs.Tasks.{IsTask};

use crate::deques::{Deques, open_deques};
use crate::evaluates::Evaluates;
use crate::hints::HintRule;
use crate::own_flags::OwnFlags;
use crate::passes::split_all;
use crate::threads::run_all;
use crate::txn_list::TxnList;
use board_work::{Plan, Ran, Work};
use dep_graph::knows_preds;
use std::alloc::Global;
use std::marker::Brand;
use std::thread::Threads;
use txn_core::{Gate, Table};
use txn_types::{Block, OutOfMemory};

// How many workers are hired: one for each position that is to be run, at least one, and no more than are given.
fn hired(own: &[bool], workers: u8) -> usize
    ensures { result ≡ max 1 (min (count_by (λ is_own. is_own) own.now) workers) }
{
    let positions = own.iter().filter(|is_own| **is_own).count();
    positions.min(workers as usize).max(1)
}

// Whether a position is to be run, and all that it depends on is known.
fn is_ready(plan: &Plan<'_>, t: u16) -> bool
    requires plan { IsRunnable plan.now }
    requires place { t < length plan.now.block.now.txns }
    ensures { result ≡ can_run (plan_of plan.now) t (take t plan.now.known.now) }
{
    plan.own.as_slice()[t as usize] && knows_preds(plan.block, plan.graph, t, plan.known.as_slice())
}

// Pushes hints to the first duties.
fn push_first<F: OwnFlags>(plan: &Plan<'_>, deques: &mut Deques<F>)
    requires plan { IsRunnable plan.now }
    requires flags { plan.now.own.now ≡ F.own }
{
    for t in 0..plan.block.txns.len() {
        if is_ready(plan, t as u16) {
            let _ = deques.own.push_as::<HintRule<F>>(t as u16);
        }
    }
}

// Opens a deque and a pass for each worker, and then runs them.
fn run_hired<
    F: OwnFlags + Send + Sync,
    W: Work,
    A: Evaluates,
    B: TxnList,
    G: Gate,
    R: Threads + Sync,
>(
    rt: &R,
    alloc: Global,
    work: W,
    mut first: W::Pass,
    plan: &Plan<'_>,
    table: &A,
    block: &B,
    workers: usize,
    gate: &G,
) -> Result<Ran, OutOfMemory>
    requires runnable { IsRunnable plan.now }
    requires task { IsTask (W.home work).plan (A.table table.now) (B.txns block.now) }
    requires flags { ((W.home work).plan.own ≡ F.own) × (plan.now.own.now ≡ F.own) }
    requires first { IsFirst (W.home work) (W.state first) }
    requires workers { (1 ≤ workers) × (workers ≤ 16) }
    ensures closed { IfOk result (λ ran. W.closed (W.home work).plan ran.outcomes (map span_of ran.trace)) }
    ensures outcomes { IfOk result (λ ran. ran.outcomes ≡ run_outcomes (W.home work).plan) }
    ensures positions { IfOk result (λ ran. map (λ s. s.t) ran.trace ≡ ran_positions (W.home work).plan) }
    ensures workers { IfOk result (λ ran. All (λ s. s.worker < workers) ran.trace) }
    ensures fit { IfOk result (λ ran. AllFitAt (W.home work).plan.txns ran.outcomes) }
{
    let mut deques = open_deques::<F>(alloc, workers)?;
    let rest = split_all::<W>(alloc, &work, &mut first, workers)?;
    let mut own = deques.pop().unwrap();
    push_first(plan, &mut own);
    let last = run_all::<F, W, A, B, G, R>(rt, &work, table, block, gate, first, own, rest, deques);
    Ok(work.close(last))
}

/// Runs the positions of a plan that can run, by at most so many workers. All memory whose want is answered is taken before the first position is.
pub fn burst<W: Work, G: Gate, R: Threads + Sync>(
    rt: &R,
    alloc: Global,
    plan: &Plan<'_>,
    workers: u8,
    gate: &G,
) -> Result<Ran, OutOfMemory>
    requires runnable { IsRunnable plan.now }
    requires kind { W.RAW ≡ false → plan.now.table.now.kind ≡ Full }
    requires workers { (1 ≤ workers) × (workers ≤ 16) }
    ensures closed { IfOk result (λ ran. W.closed (plan_of plan.now) ran.outcomes (map span_of ran.trace)) }
    ensures outcomes { IfOk result (λ ran. ran.outcomes ≡ run_outcomes (plan_of plan.now)) }
    ensures positions { IfOk result (λ ran. map (λ s. s.t) ran.trace ≡ ran_positions (plan_of plan.now)) }
    ensures workers { IfOk result (λ ran. All (λ s. s.worker < workers) ran.trace) }
    ensures fit { IfOk result (λ ran. AllFitAt plan.now.block.now.txns ran.outcomes) }
{
    let (work, first) = W::plan(alloc, plan)?;
    let count = hired(plan.own.as_slice(), workers);
    run_hired::<Brand, W, Table, Block, G, R>(
        rt, alloc, work, first, plan, plan.table, plan.block, count, gate,
    )
}
