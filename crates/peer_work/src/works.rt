//! All that a message brings to the block in work.

ghost use Rattle.std.specs.Prelude.{◌≡◌, ◌<◌, ◌≤◌, ℕ, List, true, length, IfOk};
ghost use Rattle.oxii_defs.specs.State.{State, contains};
ghost use Rattle.oxii_defs.specs.Lawful.{IsLawfulTable};
ghost use Rattle.txn_types.specs.declared.block.Block.{Block as Chained};
ghost use Rattle.txn_core.specs.MeantTable.{table_of};
ghost use Rattle.txn_core.specs.States.{state_of};
ghost use Rattle.node_defs.specs.Rules.{in_force_behind};
ghost use Rattle.node_defs.specs.Programs.{rules_of};
ghost use Rattle.vote_book.specs.Puts.{Cast, BookStandsFor};
ghost use Rattle.board_defs.specs.Closure.{IsKnownClosed};
ghost use Rattle.steal_pool.specs.Fitting.{AllFitAt};
ghost use Rattle.peer_parts.specs.Owning.{IsOwn};
ghost use Rattle.peer_parts.specs.InForce.{IsForce};
ghost use Rattle.peer_work.specs.Openings.{IsFound, IsFoundAs, IsTraced, IsWhole, WorkDone};

use crate::opened::Opened;
use board_work::Spans;
use peer_parts::{Force, Settled, Task, agreed_of, hold, settle, vote};
use std::alloc::Global;
use std::thread::Threads;
use steal_pool::Gate;
use txn_core::Table;
use txn_types::{Commits, Copies, Known, OutOfMemory, Values};
use vote_book::Book;

/// A block on which all is done for a message, with what votes agree on it then, and the spans of what has run.
#[derive(Drop)]
pub struct WorkedOn {
    pub opened: Opened,
    pub agreed: Known,
    pub spans: Spans,
}

/// Finds what runs with so many workers and votes give.
fn find<R: Threads + Sync, G: Gate>(
    rt: &R,
    alloc: Global,
    table: &Table,
    force: &Force,
    book: &Book,
    state: &Values,
    opened: &Opened,
    workers: u8,
    gate: &G,
) -> Result<Settled, OutOfMemory>
    requires table { IsLawfulTable (table_of table.now) }
    requires workers { (1 ≤ workers) × (workers ≤ 16) }
    requires force { length force.now ≡ length table.now.apps }
    requires state { length state.now ≡ length table.now.records }
    requires whole { IsWhole (table_of table.now) opened.now }
    ensures long { IfOk result (λ r. length r.known ≡ length opened.now.block.txns) }
    ensures fit { IfOk result (λ r. AllFitAt opened.now.block.txns r.known) }
    ensures closed { IfOk result (λ r. IsKnownClosed table.now.kind opened.now.block.txns r.known) }
    ensures trace { IfOk result (λ r. IsTraced (table_of table.now) workers opened.now (record opened.now { known = r.known }) r.spans) }
    ensures found { IfOk result (λ r. (genesis : State) (behind : List Chained) (me : ℕ) (voters : List ℕ) (puts : List Cast) →
        BookStandsFor book.now voters puts → IsForce (in_force_behind (rules_of (table_of table.now) genesis) behind) force.now → IsOwn (in_force_behind (rules_of (table_of table.now) genesis) behind) me opened.now.block.txns opened.now.own
        → IsFound (in_force_behind (rules_of (table_of table.now) genesis) behind) me opened.now.block.number voters puts (state_of state.now) opened.now
        → IsFoundAs (in_force_behind (rules_of (table_of table.now) genesis) behind) me opened.now.block.number voters puts (state_of state.now) opened.now r.known) }
{
    let block = &opened.block;
    let agreed = agreed_of(alloc, book, force, block.number, block)?;
    let task = Task {
        table,
        block,
        graph: &opened.graph,
        own: &opened.own,
        base: state,
        agreed: &agreed,
    };
    let known = opened.known.copy(alloc)?;
    let settled = settle(rt, alloc, &task, known, workers, gate)?;
    Ok(settled)
}

/// Finds, with so many workers, votes, holds and cuts. Hands out the block with what votes agree then.
pub fn work_on<R: Threads + Sync, G: Gate>(
    rt: &R,
    alloc: Global,
    table: &Table,
    force: &Force,
    me: u8,
    book: &mut Book,
    state: &Values,
    mut opened: Opened,
    sent: &mut Commits,
    workers: u8,
    gate: &G,
) -> Result<WorkedOn, OutOfMemory>
    requires table { IsLawfulTable (table_of table.now) }
    requires workers { (1 ≤ workers) × (workers ≤ 16) }
    requires force { length force.now ≡ length table.now.apps }
    requires state { length state.now ≡ length table.now.records }
    requires whole { IsWhole (table_of table.now) opened }
    ensures whole { IfOk result (λ r. IsWhole (table_of table.now) r.opened) }
    ensures block { IfOk result (λ r. r.opened.block ≡ opened.block) }
    ensures own { IfOk result (λ r. r.opened.own ≡ opened.own) }
    ensures long { IfOk result (λ r. length r.agreed ≡ length opened.block.txns) }
    ensures fit { IfOk result (λ r. AllFitAt opened.block.txns r.agreed) }
    ensures trace { IfOk result (λ r. IsTraced (table_of table.now) workers opened r.opened r.spans) }
    ensures done { IfOk result (λ r. (genesis : State) (behind : List Chained) (voters : List ℕ) (puts : List Cast) →
        BookStandsFor book.old voters puts → contains voters me ≡ true → IsForce (in_force_behind (rules_of (table_of table.now) genesis) behind) force.now → IsOwn (in_force_behind (rules_of (table_of table.now) genesis) behind) me opened.block.txns opened.own
        → IsFound (in_force_behind (rules_of (table_of table.now) genesis) behind) me opened.block.number voters puts (state_of state.now) opened
        → WorkDone (in_force_behind (rules_of (table_of table.now) genesis) behind) me opened.block.number voters puts (state_of state.now) opened r.opened book.new sent.old sent.new r.agreed) }
{
    let n = opened.block.number;
    let found = find(rt, alloc, table, force, book, state, &opened, workers, gate)?;
    vote(alloc, book, me, n, &opened.own, &opened.known, &found.known)?;
    hold(
        alloc,
        n,
        &opened.block,
        &opened.graph,
        &opened.own,
        &opened.known,
        &found.known,
        &mut opened.held,
        sent,
    )?;
    let agreed = agreed_of(alloc, book, force, n, &opened.block)?;
    opened.known = found.known;
    Ok(WorkedOn {
        opened,
        agreed,
        spans: found.spans,
    })
}
