//! The votes of false messages.

ghost use Rattle.std.specs.Prelude.{◌≡◌, ◌+◌, ◌≤◌, [], codes, length, IfOk};
ghost use Rattle.serde_json.specs.View.{view, items_view, members_view};
ghost use Rattle.serde_json.specs.Find.{as_null, get_member};
ghost use Rattle.doc_forms.specs.Answers.{Gives};
ghost use Rattle.doc_forms.specs.Forms.{seen, each};
ghost use Rattle.doc_schedule.specs.Votes.{reason_of, reason, written_by, next_out, outs, committed, aborted, outcome_by, vote, next_vote, votes_within, votes_of, votes_at};

use crate::places::position;
use doc_forms::{DocFault, Turn, Which, at, each, field_fault, list_in, member, object, only};
use serde_json::{Map, Value};
use std::alloc::Global;
use txn_types::{GrowingList, Outcome, Reason, Vote, Votes, Writes};

#[tactic(auto, unfolding(crate::specs::Votes::reason_of))]
fn reason_of(text: &str) -> Option<Reason>
    ensures { result ≡ reason_of text.now }
{
    if text == "require" {
        Some(Reason::Require)
    } else if text == "overflow" {
        Some(Reason::Overflow)
    } else if text == "underflow" {
        Some(Reason::Underflow)
    } else if text == "zero_divisor" {
        Some(Reason::ZeroDivisor)
    } else if text == "undeclared" {
        Some(Reason::Undeclared)
    } else {
        None
    }
}

#[tactic(auto, unfolding(crate::specs::Votes::reason))]
fn reason(alloc: Global, value: Option<&Value>) -> Result<Reason, DocFault>
    ensures { Gives (λ why. why) result (reason (seen value.entry)) }
{
    let Some(value) = value else {
        return Err(field_fault(alloc));
    };
    let Some(text) = value.as_str() else {
        return Err(field_fault(alloc));
    };
    match reason_of(text) {
        Some(reason) => Ok(reason),
        None => Err(field_fault(alloc)),
    }
}

fn written(alloc: Global, item: &Value) -> Result<Option<u64>, DocFault>
    ensures { Gives (λ out. out) result (written_by (view item.now) (as_null (view item.now))) }
{
    if item.is_null() {
        return Ok(None);
    }
    match item.as_u64() {
        Some(n) => Ok(Some(n)),
        None => Err(field_fault(alloc)),
    }
}

#[derive(Clone, Copy, Drop)]
struct NextOut;

impl Turn for NextOut {
    type State = GrowingList<Option<u64>>;

    ghost check = { λ s. next_out };

    #[tactic(auto, unfolding(crate::specs::Votes::next_out))]
    fn turn(
        &self,
        alloc: Global,
        mut done: GrowingList<Option<u64>>,
        item: &Value,
    ) -> Result<GrowingList<Option<u64>>, DocFault> {
        let out = written(alloc, item)?;
        done.push(out)?;
        Ok(done)
    }
}

fn entries(alloc: Global, list: &[Value]) -> Result<GrowingList<Option<u64>>, DocFault>
    requires { length list.now ≤ 16 }
    ensures check { Gives (λ outs. outs) result (each next_out 0 [] (items_view list.now)) }
    ensures count { IfOk result (λ outs. length outs ≡ length list.now) }
{
    each(alloc, &NextOut, GrowingList::new(alloc), list)
}

#[tactic(auto, unfolding(crate::specs::Votes::outs))]
fn outs(alloc: Global, value: Option<&Value>) -> Result<Writes, DocFault>
    ensures { Gives (λ outs. outs) result (outs (seen value.entry)) }
{
    let list = list_in(alloc, 0, 16, Which::Out, value)?;
    let outs = entries(alloc, list.as_slice())?;
    let mut writes = Writes::empty();
    writes.add_all(outs.as_slice());
    Ok(writes)
}

#[tactic(auto, unfolding(crate::specs::Votes::committed))]
fn committed(
    alloc: Global,
    members: &Map<String, Value>,
    value: &Value,
) -> Result<Outcome, DocFault>
    ensures { Gives (λ outcome. outcome) result (committed (members_view members.now.entries) (view value.now)) }
{
    let outs = at(alloc, "out", outs(alloc, Some(value)))?;
    only(alloc, &["txn", "out"], members)?;
    Ok(Outcome::Commit(outs))
}

#[tactic(auto, unfolding(crate::specs::Votes::aborted))]
fn aborted(alloc: Global, members: &Map<String, Value>) -> Result<Outcome, DocFault>
    ensures { Gives (λ outcome. outcome) result (aborted (members_view members.now.entries)) }
{
    let reason = at(alloc, "abort", reason(alloc, member(members, "abort")))?;
    only(alloc, &["txn", "abort"], members)?;
    Ok(Outcome::Abort(reason))
}

fn outcome(alloc: Global, members: &Map<String, Value>) -> Result<Outcome, DocFault>
    ensures { Gives (λ outcome. outcome) result (outcome_by (members_view members.now.entries) (get_member (codes "out") (members_view members.now.entries))) }
{
    match member(members, "out") {
        Some(value) => committed(alloc, members, value),
        None => aborted(alloc, members),
    }
}

#[tactic(auto, unfolding(crate::specs::Votes::vote))]
fn vote(alloc: Global, item: &Value) -> Result<Vote, DocFault>
    ensures { Gives (λ vote. vote) result (vote (view item.now)) }
{
    let members = object(alloc, Some(item))?;
    let t = at(
        alloc,
        "txn",
        position(alloc, Which::Txn, member(members, "txn")),
    )?;
    let outcome = outcome(alloc, members)?;
    Ok(Vote { t, outcome })
}

#[derive(Clone, Copy, Drop)]
struct NextVote;

impl Turn for NextVote {
    type State = Votes;

    ghost check = { λ s. next_vote };

    #[tactic(auto, unfolding(crate::specs::Votes::next_vote))]
    fn turn(&self, alloc: Global, mut done: Votes, item: &Value) -> Result<Votes, DocFault> {
        let vote = vote(alloc, item)?;
        done.push(vote)?;
        Ok(done)
    }
}

// As many votes as the limit of all lists together leaves room for.
#[tactic(auto, using(doc_forms::proofs::Lists::length_of_items), unfolding(crate::specs::Votes::votes_within))]
fn votes_within(alloc: Global, total: u64, list: &[Value]) -> Result<Votes, DocFault>
    requires { length list.now ≤ 256 }
    ensures check { Gives (λ votes. votes) result (votes_within total (items_view list.now)) }
    ensures bound { IfOk result (λ votes. total + length votes ≤ 16384) }
{
    if total > 16384 || list.len() as u64 > 16384 - total {
        return Err(DocFault::Limit {
            which: Which::FalseVotes,
            limit: 16384,
        });
    }
    each(alloc, &NextVote, Votes::new(alloc), list)
}

#[tactic(auto, unfolding(crate::specs::Votes::votes_of))]
fn votes(alloc: Global, total: u64, value: Option<&Value>) -> Result<Votes, DocFault>
    ensures check { Gives (λ votes. votes) result (votes_of total (seen value.entry)) }
    ensures bound { IfOk result (λ votes. total + length votes ≤ 16384) }
{
    let list = list_in(alloc, 0, 256, Which::Votes, value)?;
    votes_within(alloc, total, list.as_slice())
}

/// The votes of a `commit` event, after so many votes of the events before it.
#[tactic(auto, unfolding(crate::specs::Votes::votes_at))]
pub fn votes_at(alloc: Global, total: u64, members: &Map<String, Value>) -> Result<Votes, DocFault>
    ensures check { Gives (λ votes. votes) result (votes_at total (members_view members.now.entries)) }
    ensures bound { IfOk result (λ votes. total + length votes ≤ 16384) }
{
    at(
        alloc,
        "votes",
        votes(alloc, total, member(members, "votes")),
    )
}
