//! What others' votes give.

ghost use Rattle.std.specs.Prelude.{◌≡◌, ◌<◌, ◌≤◌, ℕ, true, length, get_or, None};
ghost use Rattle.board_defs.specs.Closure.{IsKnownClosed, is_own};
ghost use Rattle.steal_pool.specs.Fitting.{AllFitAt};
ghost use Rattle.peer_parts.specs.Found.{IsKept, IsSound, offered, unknown};
ghost use Rattle.peer_parts.specs.Tasks.{IsTask, HasOthers, frame_of};

use crate::known::{copy_of, learn};
use crate::rounds::Task;
use dep_graph::knows_preds;
use txn_types::{Known, Outcome};

/// What others' votes offer to position `t`.
fn offer(task: &Task, known: &Known, t: u16) -> Option<Outcome>
    requires task { IsTask task.now }
    requires long { length known.now ≡ length task.now.block.now.txns }
    requires place { t < length task.now.block.now.txns }
    ensures offered { result ≡ offered (frame_of task.now) task.now.agreed.now t known.now }
{
    if task.own.as_slice()[t as usize]
        || !knows_preds(task.block, task.graph, t, known.as_slice())
    {
        return None;
    }
    copy_of(&task.agreed.as_slice()[t as usize])
}

/// Takes over what others' votes offer, in block order.
pub fn adopt(task: &Task, known: &mut Known)
    requires task { IsTask task.now }
    requires long { length known.old ≡ length task.now.block.now.txns }
    requires fit { AllFitAt task.now.block.now.txns known.old }
    requires closed { IsKnownClosed task.now.table.now.kind task.now.block.now.txns known.old }
    ensures long { length known.new ≡ length known.old }
    ensures fit { AllFitAt task.now.block.now.txns known.new }
    ensures closed { IsKnownClosed task.now.table.now.kind task.now.block.now.txns known.new }
    ensures kept { IsKept known.old known.new }
    ensures own { (t : ℕ) → is_own (frame_of task.now) t ≡ true → get_or known.new t None ≡ get_or known.old t None }
    ensures sound { IsSound (frame_of task.now) task.now.agreed.now known.old → IsSound (frame_of task.now) task.now.agreed.now known.new }
    ensures few { unknown known.new ≤ unknown known.old }
    ensures others { IsSound (frame_of task.now) task.now.agreed.now known.old → HasOthers task.now known.new }
{
    for t in 0..task.block.txns.len() {
        let place = t as u16;
        let offered = offer(task, known, place);
        learn(known, place, offered);
    }
}
