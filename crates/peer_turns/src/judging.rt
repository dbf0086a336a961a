//! What becomes of the block in work.

ghost use Rattle.std.specs.Prelude.{◌≡◌, ◌+◌, true, length, None, IfOk, OnOk};
ghost use Rattle.txn_core.specs.MeantTable.{table_of};
ghost use Rattle.steal_pool.specs.Fitting.{AllFitAt};
ghost use Rattle.peer_work.specs.Openings.{IsWellOpened};
ghost use Rattle.peer_turns.specs.Peers.{IsWellKept, Judged, peer_of};

use crate::desk::Desk;
use peer_parts::{is_done, split_of};
use peer_work::{Opened, complete};
use std::alloc::Global;
use txn_core::Table;
use txn_types::{Known, OutOfMemory};

/// Halts, waits, or completes the block. Says whether it is completed.
pub fn judge(
    alloc: Global,
    table: &Table,
    desk: &mut Desk,
    worked: Opened,
    agreed: &Known,
) -> Result<bool, OutOfMemory>
    requires none { desk.old.work ≡ None }
    requires kept { IsWellKept (peer_of table.now desk.old) }
    requires well { IsWellOpened (table_of table.now) desk.old.ledger worked }
    requires long { length agreed.now ≡ length worked.block.txns }
    requires fit { AllFitAt worked.block.txns agreed.now }
    ensures kept { OnOk result (IsWellKept (peer_of table.now desk.new)) }
    ensures me { OnOk result (desk.new.me ≡ desk.old.me) }
    ensures longer { IfOk result (λ more. more ≡ true → length desk.new.ledger ≡ length desk.old.ledger + 1) }
    ensures judged { IfOk result (λ more. Judged worked agreed.now more (peer_of table.now desk.old) (peer_of table.now desk.new)) }
{
    let n = worked.block.number;
    let split = split_of(n, &worked.block, &worked.own, &worked.known, agreed);
    if split.is_some() {
        desk.halted = split;
        return Ok(false);
    }
    if !is_done(&worked.own, &worked.known, agreed) {
        desk.work = Some(worked);
        return Ok(false);
    }
    complete(
        alloc,
        table,
        &mut desk.ledger,
        &mut desk.state,
        &mut desk.force,
        worked.block,
        agreed,
    )?;
    Ok(true)
}
