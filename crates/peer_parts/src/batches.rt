//! What is held back, and what is cut.

ghost use Rattle.std.specs.Prelude.{◌≡◌, ◌<◌, ◌≤◌, ◌&&◌, ◌||◌, not, ℕ, List, Bool, is_some, length, get_or, None, false, OnOk, if◌then◌else◌};
ghost use Rattle.txn_core.specs.Graphs.{IsGraphOf};
ghost use Rattle.commit_batches.specs.Held.{IsFor};
ghost use Rattle.node_defs.specs.Rules.{Rules};
ghost use Rattle.peer_laws.specs.Turns.{Cut, vote_of};
ghost use Rattle.peer_parts.specs.Owning.{IsOwn};
ghost use Rattle.peer_parts.specs.Holding.{none_left, cut_behind, has_just, held_if, sent_if};

use board_work::Own;
use commit_batches::Holder;
use dep_graph::other_app_follows;
use std::alloc::Global;
use txn_core::Graph;
use txn_types::{Block, Commits, Known, OutOfMemory, Outcome, Vote};

fn is_not_left(own: bool, before: &Option<Outcome>, after: &Option<Outcome>, later: bool) -> bool
    ensures { result ≡ (not own || (is_some before.now || (not later && is_some after.now))) }
{
    !own || before.is_some() || (!later && after.is_some())
}

/// Whether nothing is left to run, once the positions up to `t` have.
fn is_last(own: &Own, before: &Known, after: &Known, t: usize) -> bool
    requires before { length before.now ≡ length own.now }
    requires after { length after.now ≡ length own.now }
    ensures { result ≡ none_left own.now before.now after.now t (length own.now) }
{
    let mut last = true;
    for u in 0..own.len() {
        last = is_not_left(
            own.as_slice()[u],
            &before.as_slice()[u],
            &after.as_slice()[u],
            t < u,
        ) & last;
    }
    last
}

/// Holds one vote, and sends what is held if a cut follows.
fn hold_one(
    alloc: Global,
    n: u64,
    holder: &mut Holder,
    sent: &mut Commits,
    vote: Vote,
    cut: bool,
) -> Result<(), OutOfMemory>
    requires { IsFor holder.old n }
    ensures same { OnOk result (IsFor holder.new n) }
    ensures held { OnOk result (holder.new.votes ≡ held_if cut vote holder.old.votes) }
    ensures sent { OnOk result (sent.new ≡ sent_if n cut vote holder.old.votes sent.old) }
{
    if let Some(commit) = holder.add(alloc, n, vote, cut)? {
        sent.push(commit)?;
    }
    Ok(())
}

/// Whether a cut is after `t`.
fn is_cut(block: &Block, graph: &Graph, own: &Own, before: &Known, after: &Known, t: usize) -> bool
    requires few { length block.now.txns ≤ 256 }
    requires graph { IsGraphOf block.now.txns graph.now }
    requires own { length own.now ≡ length block.now.txns }
    requires before { length before.now ≡ length own.now }
    requires after { length after.now ≡ length own.now }
    requires place { t < length own.now }
    ensures { result ≡ cut_behind graph.now.kind block.now.txns own.now before.now after.now t }
{
    other_app_follows(block, graph, t as u16) || is_last(own, before, after, t)
}

/// Holds the vote on position `t`, if it has just run.
fn hold_at(
    alloc: Global,
    n: u64,
    block: &Block,
    graph: &Graph,
    own: &Own,
    before: &Known,
    after: &Known,
    holder: &mut Holder,
    sent: &mut Commits,
    t: usize,
) -> Result<(), OutOfMemory>
    requires few { length block.now.txns ≤ 256 }
    requires graph { IsGraphOf block.now.txns graph.now }
    requires own { length own.now ≡ length block.now.txns }
    requires before { length before.now ≡ length own.now }
    requires after { length after.now ≡ length own.now }
    requires place { t < length own.now }
    requires holder { IsFor holder.old n }
    ensures same { OnOk result (IsFor holder.new n) }
    ensures held { OnOk result (holder.new.votes ≡ (if has_just own.now before.now after.now t then held_if (cut_behind graph.now.kind block.now.txns own.now before.now after.now t) (vote_of after.now t) holder.old.votes else holder.old.votes)) }
    ensures sent { OnOk result (sent.new ≡ (if has_just own.now before.now after.now t then sent_if n (cut_behind graph.now.kind block.now.txns own.now before.now after.now t) (vote_of after.now t) holder.old.votes sent.old else sent.old)) }
{
    if !own.as_slice()[t] || before.as_slice()[t].is_some() {
        return Ok(());
    }
    let Some(outcome) = &after.as_slice()[t] else {
        return Ok(());
    };
    let cut = is_cut(block, graph, own, before, after, t);
    let vote = Vote {
        t: t as u16,
        outcome: outcome.copy(),
    };
    hold_one(alloc, n, holder, sent, vote, cut)?;
    Ok(())
}

/// Holds the votes on what has just run, in order of position, and sends what is cut.
pub fn hold(
    alloc: Global,
    n: u64,
    block: &Block,
    graph: &Graph,
    own: &Own,
    before: &Known,
    after: &Known,
    holder: &mut Holder,
    sent: &mut Commits,
) -> Result<(), OutOfMemory>
    requires few { length block.now.txns ≤ 256 }
    requires graph { IsGraphOf block.now.txns graph.now }
    requires own { length own.now ≡ length block.now.txns }
    requires before { length before.now ≡ length own.now }
    requires after { length after.now ≡ length own.now }
    requires holder { IsFor holder.old n }
    ensures same { OnOk result (IsFor holder.new n) }
    ensures cut { OnOk result ((r : Rules) (me : ℕ) → r.table.kind ≡ graph.now.kind → IsOwn r me block.now.txns own.now → Cut r me n block.now before.now after.now holder.old.votes holder.new.votes sent.old sent.new) }
{
    for t in 0..own.len() {
        hold_at(alloc, n, block, graph, own, before, after, holder, sent, t)?;
    }
    Ok(())
}
