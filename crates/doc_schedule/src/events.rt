//! The events, with their counts and sums.

ghost use Rattle.std.specs.Prelude.{◌≡◌, ◌<◌};
ghost use Rattle.serde_json.specs.View.{view, members_view};
ghost use Rattle.txn_types.specs.Values.{max_false};
ghost use Rattle.doc_forms.specs.Answers.{Gives};
ghost use Rattle.doc_forms.specs.Forms.{seen};
ghost use Rattle.doc_schedule.specs.Schedule.{what_of, to_do, msg_at, deliver, all, say_block, say_commit, false_block, false_commit, by_what, next_event, schedule};

use crate::blocks::{links_at, txns_at};
use crate::tables::{ScheduleTables, faulty_at};
use crate::votes::votes_at;
use doc_forms::{
    DocFault, Turn, Which, at, field_fault, list_at, member, number_at, object, only, reference,
};
use serde_json::{Map, Value};
use std::alloc::Global;
use txn_types::{Commit, Event, Events, MAX_FALSE, MAX_NUMBER};

/// What an event asks for.
#[derive(Clone, Copy, Drop)]
pub enum What {
    Deliver,
    All,
    Block,
    Commit,
}

/// The events so far, how many are `all`, how many are false messages, and how many transactions and votes those have.
#[derive(Drop)]
pub struct Played {
    pub events: Events,
    pub alls: u64,
    pub falses: u64,
    pub false_txns: u64,
    pub false_votes: u64,
}

#[tactic(auto, unfolding(crate::specs::Schedule::what_of))]
fn what_of(text: &str) -> Option<What>
    ensures { result ≡ what_of text.now }
{
    if text == "deliver" {
        Some(What::Deliver)
    } else if text == "all" {
        Some(What::All)
    } else if text == "block" {
        Some(What::Block)
    } else if text == "commit" {
        Some(What::Commit)
    } else {
        None
    }
}

#[tactic(auto, unfolding(crate::specs::Schedule::to_do))]
fn to_do(alloc: Global, value: Option<&Value>) -> Result<What, DocFault>
    ensures { Gives (λ what. what) result (to_do (seen value.entry)) }
{
    let Some(value) = value else {
        return Err(field_fault(alloc));
    };
    let Some(text) = value.as_str() else {
        return Err(field_fault(alloc));
    };
    match what_of(text) {
        Some(what) => Ok(what),
        None => Err(field_fault(alloc)),
    }
}

// The number of a message, which 32 bits hold.
#[tactic(auto, using(doc_forms::proofs::Meant::number_at_means), unfolding(crate::specs::Schedule::msg_at))]
fn msg_at(alloc: Global, members: &Map<String, Value>) -> Result<u32, DocFault>
    ensures { Gives (λ msg. msg) result (msg_at (members_view members.now.entries)) }
{
    let msg = number_at(alloc, members, "msg", 1, 4294967295, Which::Msg)?;
    Ok(msg as u32)
}

#[tactic(auto, unfolding(crate::specs::Schedule::deliver))]
fn deliver(
    alloc: Global,
    tables: &ScheduleTables,
    mut made: Played,
    members: &Map<String, Value>,
) -> Result<Played, DocFault>
    ensures { Gives (λ made. made) result (deliver tables.now.nodes.peers.now made (members_view members.now.entries)) }
{
    let msg = msg_at(alloc, members)?;
    let to = at(
        alloc,
        "to",
        reference(alloc, tables.nodes.peers, member(members, "to")),
    )?;
    only(alloc, &["do", "msg", "to"], members)?;
    made.events.push(Event::Deliver { msg, to })?;
    Ok(made)
}

#[tactic(auto, unfolding(crate::specs::Schedule::all))]
fn all(alloc: Global, mut made: Played, members: &Map<String, Value>) -> Result<Played, DocFault>
    ensures { Gives (λ made. made) result (all made (members_view members.now.entries)) }
{
    if made.alls >= 8 {
        return Err(DocFault::Limit {
            which: Which::All,
            limit: 8,
        });
    }
    only(alloc, &["do"], members)?;
    made.events.push(Event::All)?;
    made.alls += 1;
    Ok(made)
}

#[tactic(auto, unfolding(crate::specs::Schedule::say_block))]
fn say_block(
    alloc: Global,
    tables: &ScheduleTables,
    mut made: Played,
    members: &Map<String, Value>,
) -> Result<Played, DocFault>
    requires { made.falses < max_false }
    ensures { Gives (λ made. made) result (say_block tables.now.nodes.orderers.now tables.now.nodes.peers.now tables.now.faulty.now tables.now.roles.now made (members_view members.now.entries)) }
{
    let from = faulty_at(alloc, tables, members)?;
    let number = number_at(alloc, members, "number", 1, MAX_NUMBER, Which::Number)?;
    let items = txns_at(alloc, tables.roles, made.false_txns, members)?;
    let (prev, preds) = links_at(alloc, tables.roles, items.as_slice(), members)?;
    made.falses += 1;
    made.false_txns += items.len() as u64;
    made.events.push(Event::SayBlock {
        from,
        number,
        prev,
        items,
        preds,
    })?;
    Ok(made)
}

#[tactic(auto, unfolding(crate::specs::Schedule::say_commit))]
fn say_commit(
    alloc: Global,
    tables: &ScheduleTables,
    mut made: Played,
    members: &Map<String, Value>,
) -> Result<Played, DocFault>
    requires { made.falses < max_false }
    ensures { Gives (λ made. made) result (say_commit tables.now.nodes.orderers.now tables.now.nodes.peers.now tables.now.faulty.now made (members_view members.now.entries)) }
{
    let from = faulty_at(alloc, tables, members)?;
    let n = number_at(alloc, members, "block", 1, MAX_NUMBER, Which::Block)?;
    let votes = votes_at(alloc, made.false_votes, members)?;
    only(alloc, &["do", "from", "block", "votes"], members)?;
    made.falses += 1;
    made.false_votes += votes.len() as u64;
    made.events.push(Event::SayCommit {
        from,
        commit: Commit { n, votes },
    })?;
    Ok(made)
}

#[tactic(auto, unfolding(crate::specs::Schedule::false_block))]
fn false_block(
    alloc: Global,
    tables: &ScheduleTables,
    made: Played,
    members: &Map<String, Value>,
) -> Result<Played, DocFault>
    ensures { Gives (λ made. made) result (false_block tables.now.nodes.orderers.now tables.now.nodes.peers.now tables.now.faulty.now tables.now.roles.now made (members_view members.now.entries)) }
{
    if made.falses >= u64::from(MAX_FALSE) {
        return Err(DocFault::Limit {
            which: Which::False,
            limit: u64::from(MAX_FALSE),
        });
    }
    say_block(alloc, tables, made, members)
}

#[tactic(auto, unfolding(crate::specs::Schedule::false_commit))]
fn false_commit(
    alloc: Global,
    tables: &ScheduleTables,
    made: Played,
    members: &Map<String, Value>,
) -> Result<Played, DocFault>
    ensures { Gives (λ made. made) result (false_commit tables.now.nodes.orderers.now tables.now.nodes.peers.now tables.now.faulty.now made (members_view members.now.entries)) }
{
    if made.falses >= u64::from(MAX_FALSE) {
        return Err(DocFault::Limit {
            which: Which::False,
            limit: u64::from(MAX_FALSE),
        });
    }
    say_commit(alloc, tables, made, members)
}

#[derive(Clone, Copy, Drop)]
struct NextEvent<'t> {
    tables: ScheduleTables<'t>,
}

impl<'t> Turn for NextEvent<'t> {
    type State = Played;

    ghost check = { λ s. next_event s.tables.nodes.orderers.now s.tables.nodes.peers.now s.tables.faulty.now s.tables.roles.now };

    #[tactic(auto, unfolding(crate::specs::Schedule::next_event))]
    fn turn(&self, alloc: Global, done: Played, item: &Value) -> Result<Played, DocFault> {
        let members = object(alloc, Some(item))?;
        let what = at(alloc, "do", to_do(alloc, member(members, "do")))?;
        match what {
            What::Deliver => deliver(alloc, &self.tables, done, members),
            What::All => all(alloc, done, members),
            What::Block => false_block(alloc, &self.tables, done, members),
            What::Commit => false_commit(alloc, &self.tables, done, members),
        }
    }
}

/// The events at the key `schedule` of a document's root.
#[tactic(auto, unfolding(crate::specs::Schedule::schedule))]
pub fn read_schedule(
    alloc: Global,
    tables: &ScheduleTables,
    members: &Map<String, Value>,
) -> Result<Events, DocFault>
    ensures { Gives (λ events. events) result (schedule tables.now.nodes.orderers.now tables.now.nodes.peers.now tables.now.faulty.now tables.now.roles.now (members_view members.now.entries)) }
{
    let made = list_at(
        alloc,
        members,
        "schedule",
        0,
        65536,
        Which::Schedule,
        &NextEvent { tables: *tables },
        Played {
            events: Events::new(alloc),
            alls: 0,
            falses: 0,
            false_txns: 0,
            false_votes: 0,
        },
    )?;
    Ok(made.events)
}
