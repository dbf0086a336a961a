//! The workers of one burst, in threads that join one after another.
ghost use Rattle.std.specs.Prelude.{◌≡◌, ◌≤◌, ◌<◌, ◌⊎◌, ◌↔◌, ◌+◌, ℕ, [], All, Any, length};
ghost use Rattle.std.specs.Thread.{IsSync};
ghost use Rattle.board_core.specs.Counts.{times};
ghost use Rattle.board_work.specs.PassStates.{HasTried};
ghost use Rattle.steal_pool.specs.Passes.{IsIdle};
ghost use Rattle.steal_pool.specs.Tasks.{IsTask};

use crate::deques::Deques;
use crate::evaluates::Evaluates;
use crate::own_flags::OwnFlags;
use crate::passes::next_pass;
use crate::txn_list::TxnList;
use crate::worker::work_on;
use board_work::Work;
use std::thread;
use std::thread::Threads;
use txn_core::Gate;

/// Each pass is worked on in a thread of its own, with a deque of its own, the first in the caller's. What comes back has taken in all passes.
pub(crate) fn run_all<
    F: OwnFlags + Send + Sync,
    W: Work,
    A: Evaluates,
    B: TxnList,
    G: Gate,
    R: Threads + Sync,
>(
    rt: &R,
    work: &W,
    table: &A,
    block: &B,
    gate: &G,
    first: W::Pass,
    own: Deques<F>,
    mut rest: Vec<W::Pass>,
    mut deques: Vec<Deques<F>>,
) -> W::Pass
    requires idle { IsIdle (W.home work.now) (W.state first) }
    requires all { All (λ p. IsIdle (W.home work.now) (W.state p)) rest.items }
    requires deques { length deques.items ≡ length rest.items }
    requires task { IsTask (W.home work.now).plan (A.table table.now) (B.txns block.now) }
    requires flags { (W.home work.now).plan.own ≡ F.own }
    ensures idle { IsIdle (W.home work.now) (W.state result) }
    ensures tried { HasTried (W.state result) }
    ensures passes { (W.state result).passes ≤ (W.state first).passes }
    ensures numbers { (n : ℕ) → 0 < times n (W.state result).numbers ↔ ((0 < times n (W.state first).numbers) ⊎ Any (λ p. 0 < times n (W.state p).numbers) rest.items) }
{
    let Some(next) = next_pass::<W>(work, &mut rest) else {
        return work_on(work, table, block, gate, first, own);
    };
    let next_own = deques.pop().unwrap();
    let (keep, other) = thread::join(
        rt,
        move || -> W::Pass
            requires { IsIdle (W.home work.now) (W.state first) × IsTask (W.home work.now).plan (A.table table.now) (B.txns block.now) × ((W.home work.now).plan.own ≡ F.own) }
            ensures { IsIdle (W.home work.entry.now) (W.state result) × ((W.state result).numbers ≡ (W.state first).numbers) × ((W.state result).passes ≡ (W.state first).passes) × HasTried (W.state result) }
        { work_on(work, table, block, gate, first, own) },
        move || -> W::Pass
            requires { IsSync R.row × IsIdle (W.home work.now) (W.state next) × All (λ p. IsIdle (W.home work.now) (W.state p)) rest.items × (length deques.items ≡ length rest.items) × IsTask (W.home work.now).plan (A.table table.now) (B.txns block.now) × ((W.home work.now).plan.own ≡ F.own) }
            ensures { IsIdle (W.home work.entry.now) (W.state result) × HasTried (W.state result) × ((n : ℕ) → 0 < times n (W.state result).numbers ↔ ((0 < times n (W.state next).numbers) ⊎ Any (λ p. 0 < times n (W.state p).numbers) rest.items)) }
        { run_all::<F, W, A, B, G, R>(rt, work, table, block, gate, next, next_own, rest, deques) },
    );
    work.join(keep, other)
}
