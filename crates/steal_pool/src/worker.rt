//! The work of one worker.
ghost use Rattle.std.specs.Prelude.{◌≡◌, ◌<◌, ℕ, [], ◌∷◌, true};
ghost use Rattle.board_defs.specs.Closure.{is_own};
ghost use Rattle.board_core.specs.Counts.{times};
ghost use Rattle.board_work.specs.PassStates.{HasTried, IsOf};
ghost use Rattle.steal_pool.specs.Passes.{GoesOn, IsIdle};
ghost use Rattle.steal_pool.specs.Tasks.{IsTask};

use crate::deques::{Deques, next_hint, push_hints};
use crate::evaluates::Evaluates;
use crate::own_flags::OwnFlags;
use crate::txn_list::TxnList;
use board_work::{Made, Take, Work};
use txn_core::Gate;

const MOST_HINTS: u32 = 256;

// Runs a position that the pass has taken: what is taken is evaluated, and what is evaluated finishes.
fn run_one<W: Work, A: Evaluates, B: TxnList, G: Gate>(
    work: &W,
    table: &A,
    block: &B,
    gate: &G,
    pass: &mut W::Pass,
    t: u16,
    taken: W::Taken,
    made: &mut Made,
)
    requires of { IsOf (W.home work.now) (W.state pass.old) }
    requires taken { W.position taken ≡ t }
    requires task { IsTask (W.home work.now).plan (A.table table.now) (B.txns block.now) }
    requires held { (W.state pass.old).held ≡ t ∷ [] }
    requires own { is_own (W.home work.now).plan t ≡ true }
    requires empty { made.old ≡ [] }
    ensures idle { IsIdle (W.home work.now) (W.state pass.new) }
    ensures goes_on { GoesOn (W.state pass.old) (W.state pass.new) }
    ensures made { (x : ℕ) → 0 < times x made.new → is_own (W.home work.now).plan x ≡ true }
{
    gate.begin(block.number(), t);
    let mut inputs = [0; 16];
    work.inputs(pass, t, &mut inputs);
    let evaluated = table.run::<W>(block.txn(t), &inputs, taken);
    gate.end(block.number(), t);
    work.finish(pass, evaluated, made);
}

// Tries a position, and runs it where it is taken. What this makes ready is left in the list.
fn try_one<W: Work, A: Evaluates, B: TxnList, G: Gate>(
    work: &W,
    table: &A,
    block: &B,
    gate: &G,
    pass: &mut W::Pass,
    t: u16,
    made: &mut Made,
)
    requires idle { IsIdle (W.home work.now) (W.state pass.old) }
    requires task { IsTask (W.home work.now).plan (A.table table.now) (B.txns block.now) }
    requires own { is_own (W.home work.now).plan t ≡ true }
    requires empty { made.old ≡ [] }
    ensures idle { IsIdle (W.home work.now) (W.state pass.new) }
    ensures goes_on { GoesOn (W.state pass.old) (W.state pass.new) }
    ensures duty { 0 < times t (W.state pass.old).duties → 0 < times t (W.state pass.new).tried }
    ensures made { (x : ℕ) → 0 < times x made.new → is_own (W.home work.now).plan x ≡ true }
{
    match work.take(pass, t) {
        Take::Taken(taken) => run_one(work, table, block, gate, pass, t, taken, made),
        Take::NotReady(_) => {}
        Take::Gone => {}
    }
}

// Tries a position, and pushes hints to what this makes ready.
fn try_and_hint<F: OwnFlags, W: Work, A: Evaluates, B: TxnList, G: Gate>(
    work: &W,
    table: &A,
    block: &B,
    gate: &G,
    pass: &mut W::Pass,
    deques: &mut Deques<F>,
    t: u16,
    made: &mut Made,
)
    requires idle { IsIdle (W.home work.now) (W.state pass.old) }
    requires task { IsTask (W.home work.now).plan (A.table table.now) (B.txns block.now) }
    requires flags { (W.home work.now).plan.own ≡ F.own }
    requires own { is_own (W.home work.now).plan t ≡ true }
    requires empty { made.old ≡ [] }
    ensures idle { IsIdle (W.home work.now) (W.state pass.new) }
    ensures goes_on { GoesOn (W.state pass.old) (W.state pass.new) }
    ensures duty { 0 < times t (W.state pass.old).duties → 0 < times t (W.state pass.new).tried }
    ensures pushed { made.new ≡ [] }
{
    try_one(work, table, block, gate, pass, t, made);
    push_hints(deques, made);
}

// Tries the positions of hints. Those that a finish makes are pushed before the next position is tried.
fn follow_hints<F: OwnFlags, W: Work, A: Evaluates, B: TxnList, G: Gate>(
    work: &W,
    table: &A,
    block: &B,
    gate: &G,
    pass: &mut W::Pass,
    deques: &mut Deques<F>,
)
    requires idle { IsIdle (W.home work.now) (W.state pass.old) }
    requires task { IsTask (W.home work.now).plan (A.table table.now) (B.txns block.now) }
    requires flags { (W.home work.now).plan.own ≡ F.own }
    ensures idle { IsIdle (W.home work.now) (W.state pass.new) }
    ensures goes_on { GoesOn (W.state pass.old) (W.state pass.new) }
{
    let mut made = Made::new();
    for _ in 0..MOST_HINTS {
        let Some(t) = next_hint(deques) else {
            break;
        };
        try_and_hint(work, table, block, gate, pass, deques, t, &mut made);
    }
}

// Tries each duty, till none is left.
fn try_duties<F: OwnFlags, W: Work, A: Evaluates, B: TxnList, G: Gate>(
    work: &W,
    table: &A,
    block: &B,
    gate: &G,
    pass: &mut W::Pass,
    deques: &mut Deques<F>,
)
    requires idle { IsIdle (W.home work.now) (W.state pass.old) }
    requires task { IsTask (W.home work.now).plan (A.table table.now) (B.txns block.now) }
    requires flags { (W.home work.now).plan.own ≡ F.own }
    ensures idle { IsIdle (W.home work.now) (W.state pass.new) }
    ensures goes_on { GoesOn (W.state pass.old) (W.state pass.new) }
    ensures tried { HasTried (W.state pass.new) }
{
    let mut made = Made::new();
    'duties: while let Some(t) = W::untried(pass) {
        try_and_hint(work, table, block, gate, pass, deques, t, &mut made);
    }
}

/// The work of one worker: hints first, and then each of its duties.
pub(crate) fn work_on<F: OwnFlags, W: Work, A: Evaluates, B: TxnList, G: Gate>(
    work: &W,
    table: &A,
    block: &B,
    gate: &G,
    mut pass: W::Pass,
    mut deques: Deques<F>,
) -> W::Pass
    requires idle { IsIdle (W.home work.now) (W.state pass) }
    requires task { IsTask (W.home work.now).plan (A.table table.now) (B.txns block.now) }
    requires flags { (W.home work.now).plan.own ≡ F.own }
    ensures idle { IsIdle (W.home work.now) (W.state result) }
    ensures goes_on { GoesOn (W.state pass) (W.state result) }
    ensures tried { HasTried (W.state result) }
{
    follow_hints(work, table, block, gate, &mut pass, &mut deques);
    try_duties(work, table, block, gate, &mut pass, &mut deques);
    pass
}
