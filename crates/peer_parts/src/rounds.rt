//! All that a block's runs and votes give, in rounds.

ghost use Rattle.std.specs.Prelude.{◌≡◌, ◌<◌, ◌≤◌, List, Option, true, false, length, IfOk, OnOk};
ghost use Rattle.txn_types.specs.declared.txn.Outcome.{Outcome};
ghost use Rattle.board_defs.specs.Closure.{IsKnownClosed};
ghost use Rattle.steal_pool.specs.Fitting.{AllFitAt};
ghost use Rattle.peer_parts.specs.Found.{IsKept, IsSound, found_by, unknown};
ghost use Rattle.peer_parts.specs.Joining.{IsShort};
ghost use Rattle.peer_parts.specs.Tasks.{HasAllGiven, IsTask, IsTraceOf, frame_of};

use crate::adopt::adopt;
use crate::runs::run_ready;
use board_work::{Own, Spans};
use std::alloc::Global;
use std::thread::Threads;
use steal_pool::Gate;
use txn_core::{Graph, Table};
use txn_types::{Block, Known, OutOfMemory, Values};

/// What stays the same while a block is worked on for one message: the block with its graph, which positions are this peer's, the values before it, and what votes agree on the others' positions.
#[derive(Clone, Copy)]
pub struct Task<'a> {
    pub table: &'a Table,
    pub block: &'a Block,
    pub graph: &'a Graph,
    pub own: &'a Own,
    pub base: &'a Values,
    pub agreed: &'a Known,
}

/// What is known once nothing more can be found, and the spans of what has run for it.
#[derive(Drop)]
pub struct Settled {
    pub known: Known,
    pub spans: Spans,
}

/// One round: what others' votes offer, and a burst. Says whether anything ran.
fn round<R: Threads + Sync, G: Gate>(
    rt: &R,
    alloc: Global,
    task: &Task,
    known: &mut Known,
    spans: &mut Spans,
    workers: u8,
    gate: &G,
) -> Result<bool, OutOfMemory>
    requires workers { (1 ≤ workers) × (workers ≤ 16) }
    requires task { IsTask task.now }
    requires long { length known.old ≡ length task.now.block.now.txns }
    requires fit { AllFitAt task.now.block.now.txns known.old }
    requires closed { IsKnownClosed task.now.table.now.kind task.now.block.now.txns known.old }
    requires short { IsShort spans.old }
    ensures long { OnOk result (length known.new ≡ length known.old) }
    ensures fit { OnOk result (AllFitAt task.now.block.now.txns known.new) }
    ensures closed { OnOk result (IsKnownClosed task.now.table.now.kind task.now.block.now.txns known.new) }
    ensures kept { OnOk result (IsKept known.old known.new) }
    ensures sound { OnOk result (IsSound (frame_of task.now) task.now.agreed.now known.old → IsSound (frame_of task.now) task.now.agreed.now known.new) }
    ensures few { IfOk result (λ more. more ≡ true → unknown known.new < unknown known.old) }
    ensures all { IfOk result (λ more. more ≡ false → IsSound (frame_of task.now) task.now.agreed.now known.old → HasAllGiven task.now known.new) }
    ensures trace { OnOk result ((begun : List (Option Outcome)) → IsKept begun known.old → IsTraceOf task.now workers begun known.old spans.old → IsTraceOf task.now workers begun known.new spans.new) }
{
    adopt(task, known);
    let more = run_ready(rt, alloc, task, known, spans, workers, gate)?;
    Ok(more)
}

/// All that runs and votes give, each round run with so many workers.
pub fn settle<R: Threads + Sync, G: Gate>(
    rt: &R,
    alloc: Global,
    task: &Task,
    mut known: Known,
    workers: u8,
    gate: &G,
) -> Result<Settled, OutOfMemory>
    requires workers { (1 ≤ workers) × (workers ≤ 16) }
    requires task { IsTask task.now }
    requires long { length known ≡ length task.now.block.now.txns }
    requires fit { AllFitAt task.now.block.now.txns known }
    requires closed { IsKnownClosed task.now.table.now.kind task.now.block.now.txns known }
    ensures long { IfOk result (λ r. length r.known ≡ length task.now.block.now.txns) }
    ensures found { IsSound (frame_of task.now) task.now.agreed.now known → IfOk result (λ r. r.known ≡ found_by (frame_of task.now) task.now.agreed.now (length task.now.block.now.txns)) }
    ensures fit { IfOk result (λ r. AllFitAt task.now.block.now.txns r.known) }
    ensures closed { IfOk result (λ r. IsKnownClosed task.now.table.now.kind task.now.block.now.txns r.known) }
    ensures trace { IfOk result (λ r. IsTraceOf task.now workers known r.known r.spans) }
{
    let mut spans = Spans::new(alloc);
    while round(rt, alloc, task, &mut known, &mut spans, workers, gate)? {}
    Ok(Settled { known, spans })
}
