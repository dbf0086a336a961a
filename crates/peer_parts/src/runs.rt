//! What this peer runs: a burst over the positions that are ready.

ghost use Rattle.std.specs.Prelude.{◌≡◌, ◌<◌, ◌≤◌, ◌&&◌, not, is_some, ℕ, List, Option, true, false, length, get_or, map, None, IfOk, OnOk, MatchOption};
ghost use Rattle.std.specs.Option.{option_or};
ghost use Rattle.txn_types.specs.declared.txn.Outcome.{Outcome};
ghost use Rattle.board_defs.specs.Closure.{IsClosed, IsKnownClosed};
ghost use Rattle.board_defs.specs.Trace.{IsLawfulTrace};
ghost use Rattle.board_work.specs.Plans.{IsRunnable, plan_of};
ghost use Rattle.board_work.specs.Spans.{span_of};
ghost use Rattle.steal_pool.specs.Fitting.{AllFitAt};
ghost use Rattle.peer_parts.specs.Found.{IsKept, IsSound, unknown};
ghost use Rattle.peer_parts.specs.Joining.{IsShort};
ghost use Rattle.peer_parts.specs.Ready.{NoneReady, is_ready, left_of, round_plan};
ghost use Rattle.peer_parts.specs.Tasks.{IsTask, IsTraceOf, frame_of};

use crate::joining::join;
use crate::known::{copy_of, learn};
use crate::rounds::Task;
use board_work::{Own, Plan, Ran, Spans};
use dep_graph::knows_preds;
use std::alloc::Global;
use std::thread::Threads;
use steal_pool::{Gate, burst};
use txn_types::{Known, OutOfMemory, Outcome};
use version_slots::Slots;

/// Whether position `t` is ready: it is this peer's, it isn't known, and all that it depends on is.
fn is_ready(task: &Task, known: &Known, t: u16) -> bool
    requires task { IsTask task.now }
    requires long { length known.now ≡ length task.now.block.now.txns }
    requires place { t < length task.now.block.now.txns }
    ensures { result ≡ is_ready (frame_of task.now) known.now t }
{
    task.own.as_slice()[t as usize]
        && known.as_slice()[t as usize].is_none()
        && knows_preds(task.block, task.graph, t, known.as_slice())
}

/// The first position that is ready.
fn first_ready(task: &Task, known: &Known) -> Option<u16>
    requires task { IsTask task.now }
    requires long { length known.now ≡ length task.now.block.now.txns }
    ensures { MatchOption result (NoneReady (frame_of task.now) known.now (length task.now.block.now.txns)) (λ t. (t < length task.now.block.now.txns) × (is_ready (frame_of task.now) known.now t ≡ true)) }
{
    for t in 0..task.block.txns.len() {
        if is_ready(task, known, t as u16) {
            return Some(t as u16);
        }
    }
    None
}

fn is_left(own: bool, known: &Option<Outcome>) -> bool
    ensures { result ≡ (own && not (is_some known.now)) }
{
    own && known.is_none()
}

/// This peer's positions that aren't known.
fn own_left(alloc: Global, own: &Own, known: &Known) -> Result<Own, OutOfMemory>
    requires { length known.now ≡ length own.now }
    ensures { IfOk result (λ left. left ≡ left_of own.now known.now) }
{
    let mut left = Own::new(alloc);
    for t in 0..own.len() {
        left.push(is_left(own.as_slice()[t], &known.as_slice()[t]))?;
    }
    Ok(left)
}

/// Takes over what has just run.
fn merge(known: &mut Known, ran: &Known)
    requires long { length ran.now ≡ length known.old }
    requires few { length ran.now ≤ 256 }
    ensures long { length known.new ≡ length known.old }
    ensures merged { (t : ℕ) → get_or known.new t None ≡ option_or (get_or known.old t None) (get_or ran.now t None) }
{
    for t in 0..ran.len() {
        let found = copy_of(&ran.as_slice()[t]);
        learn(known, t as u16, found);
    }
}

/// Runs a plan with so many workers.
fn run_plan<R: Threads + Sync, G: Gate>(
    rt: &R,
    alloc: Global,
    plan: &Plan,
    workers: u8,
    gate: &G,
) -> Result<Ran, OutOfMemory>
    requires runnable { IsRunnable plan.now }
    requires workers { (1 ≤ workers) × (workers ≤ 16) }
    ensures closed { IfOk result (λ ran. IsClosed (plan_of plan.now) workers ran.outcomes (map span_of ran.trace)) }
    ensures fit { IfOk result (λ ran. AllFitAt plan.now.block.now.txns ran.outcomes) }
{
    let ran = burst::<Slots, G, R>(rt, alloc, plan, workers, gate)?;
    Ok(ran)
}

/// Runs what is ready, and what becomes ready by that. Says whether anything was.
pub fn run_ready<R: Threads + Sync, G: Gate>(
    rt: &R,
    alloc: Global,
    task: &Task,
    known: &mut Known,
    spans: &mut Spans,
    workers: u8,
    gate: &G,
) -> Result<bool, OutOfMemory>
    requires workers { (1 ≤ workers) × (workers ≤ 16) }
    requires task { IsTask task.now }
    requires long { length known.old ≡ length task.now.block.now.txns }
    requires fit { AllFitAt task.now.block.now.txns known.old }
    requires closed { IsKnownClosed task.now.table.now.kind task.now.block.now.txns known.old }
    requires short { IsShort spans.old }
    ensures long { OnOk result (length known.new ≡ length known.old) }
    ensures fit { OnOk result (AllFitAt task.now.block.now.txns known.new) }
    ensures closed { OnOk result (IsKnownClosed task.now.table.now.kind task.now.block.now.txns known.new) }
    ensures kept { OnOk result (IsKept known.old known.new) }
    ensures sound { OnOk result (IsSound (frame_of task.now) task.now.agreed.now known.old → IsSound (frame_of task.now) task.now.agreed.now known.new) }
    ensures few { IfOk result (λ more. more ≡ true → unknown known.new < unknown known.old) }
    ensures none { IfOk result (λ more. more ≡ false → (known.new ≡ known.old) × NoneReady (frame_of task.now) known.old (length task.now.block.now.txns)) }
    ensures trace { OnOk result ((begun : List (Option Outcome)) → IsKept begun known.old → IsTraceOf task.now workers begun known.old spans.old → IsTraceOf task.now workers begun known.new spans.new) }
{
    let Some(_ready) = first_ready(task, known) else {
        return Ok(false);
    };
    let own = own_left(alloc, task.own, known)?;
    // reading the values tells that each is in its range
    let _ = task.base.as_slice();
    let plan = Plan {
        table: task.table,
        block: task.block,
        graph: task.graph,
        known: &*known,
        own: &own,
        base: task.base,
    };
    let Ran { outcomes, trace } = run_plan(rt, alloc, &plan, workers, gate)?;
    merge(known, &outcomes);
    join(alloc, spans, trace)?;
    Ok(true)
}
