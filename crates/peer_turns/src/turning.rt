//! The turns of one delivery.

ghost use Rattle.std.specs.Prelude.{◌≡◌, ◌<◌, ◌≤◌, ◌+◌, ◌^◌, ℕ, true, length, IfOk, OnOk};
ghost use Rattle.oxii_defs.specs.State.{State};
ghost use Rattle.node_defs.specs.Log.{Letter, Log};
ghost use Rattle.peer_turns.specs.Peers.{IsWellKept, peer_of};
ghost use Rattle.peer_turns.specs.Relation.{EndedAt, MidwayAt, TurnsOf};

use crate::desk::Desk;
use crate::judging::judge;
use crate::listing::{BlockSpansList, list};
use peer_work::{next_work, work_on};
use std::alloc::Global;
use std::thread::Threads;
use steal_pool::Gate;
use txn_core::Table;
use txn_types::{Commits, OutOfMemory};

/// One turn, with so many workers. Says whether a block is completed.
fn turn<R: Threads + Sync, G: Gate>(
    rt: &R,
    alloc: Global,
    table: &Table,
    desk: &mut Desk,
    sent: &mut Commits,
    spans: &mut BlockSpansList,
    workers: u8,
    gate: &G,
) -> Result<bool, OutOfMemory>
    requires kept { IsWellKept (peer_of table.now desk.old) }
    requires workers { (1 ≤ workers) × (workers ≤ 16) }
    ensures kept { OnOk result (IsWellKept (peer_of table.now desk.new)) }
    ensures me { OnOk result (desk.new.me ≡ desk.old.me) }
    ensures room { OnOk result (length desk.old.ledger < 2 ^ 63) }
    ensures longer { IfOk result (λ more. more ≡ true → length desk.new.ledger ≡ length desk.old.ledger + 1) }
    ensures turned { IfOk result (λ more. TurnsOf workers more (peer_of table.now desk.old) sent.old spans.old (peer_of table.now desk.new) sent.new spans.new) }
{
    let _room = desk.ledger.len();
    let work = desk.work.take();
    let Some(opened) = next_work(
        alloc,
        table,
        &desk.force,
        desk.me,
        &desk.inbox,
        &desk.ledger,
        work,
    )?
    else {
        return Ok(false);
    };
    let n = opened.block.number;
    let worked = work_on(
        rt,
        alloc,
        table,
        &desk.force,
        desk.me,
        &mut desk.book,
        &desk.state,
        opened,
        sent,
        workers,
        gate,
    )?;
    list(spans, n, worked.spans)?;
    let more = judge(alloc, table, desk, worked.opened, &worked.agreed)?;
    Ok(more)
}

/// Turns with so many workers until nothing more is completed.
pub fn turns<R: Threads + Sync, G: Gate>(
    rt: &R,
    alloc: Global,
    table: &Table,
    desk: &mut Desk,
    sent: &mut Commits,
    spans: &mut BlockSpansList,
    workers: u8,
    gate: &G,
) -> Result<(), OutOfMemory>
    requires kept { IsWellKept (peer_of table.now desk.old) }
    requires workers { (1 ≤ workers) × (workers ≤ 16) }
    ensures kept { OnOk result (IsWellKept (peer_of table.now desk.new)) }
    ensures me { OnOk result (desk.new.me ≡ desk.old.me) }
    ensures ended { OnOk result ((genesis : State) (me m : ℕ) (e : Letter) (K : Log) → MidwayAt workers genesis me m e K (peer_of table.now desk.old) sent.old spans.old → EndedAt workers genesis me e K (peer_of table.now desk.new) sent.new spans.new) }
{
    loop {
        let more = turn(rt, alloc, table, desk, sent, spans, workers, gate)?;
        if !more {
            return Ok(());
        }
    }
}
