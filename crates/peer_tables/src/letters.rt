//! Messages, as rows write them.
//!
//! `o1 sends 2` is a NEWBLOCK of orderer 1 with block 2 and its graph; `o1 sends 2 bare` has no lists in place of the graph,
//! and `o1 sends 2 first` has what block 2 carries as block 1.
//! `p2 votes 1 1=6,4 2=-` is a COMMIT of peer 2 for block 1: position 1 commits 6 and 4, and position 2 writes nothing.

ghost use Rattle.std.specs.Prelude.{◌≡◌, IfOk};
ghost use Rattle.std.specs.List.{All};
ghost use Rattle.oxii_defs.specs.Lawful.{IsLawfulBody, IsLawfulBlock};
ghost use Rattle.txn_core.specs.MeantTable.{table_of};
ghost use Rattle.peer_turns.specs.Peers.{IsLawfulMessage};

use crate::Trouble;
use dep_graph::build;
use row_settings::Setting;
use std::alloc::Global;
use txn_types::{
    Block, Commit, Copies, Message, NewBlock, Node, Outcome, Preds, Vote, Votes, Writes,
};

// A place, from 0, by its number, from 1.
fn place(number: &str) -> Result<u8, Trouble> {
    Ok(number.parse::<u8>()?.checked_sub(1).ok_or(Trouble::Number)?)
}

fn node(name: &str) -> Result<Node, Trouble> {
    if let Some(number) = name.strip_prefix("p") {
        return Ok(Node::Peer(place(number)?));
    }
    let number = name.strip_prefix("o").ok_or(Trouble::Row)?;
    Ok(Node::Orderer(place(number)?))
}

fn entry(word: &str) -> Result<Option<u64>, Trouble> {
    if word == "-" {
        return Ok(None);
    }
    Ok(Some(word.parse::<u64>()?))
}

fn entries(words: &str) -> Result<Writes, Trouble> {
    let mut entries = Writes::empty();
    for word in words.split(",") {
        if entries.as_slice().len() >= 16 {
            return Err(Trouble::Row);
        }
        entries.add(entry(word)?);
    }
    Ok(entries)
}

fn vote(word: &str) -> Result<Vote, Trouble> {
    let (number, words) = word.split_once("=").ok_or(Trouble::Row)?;
    Ok(Vote {
        t: u16::from(place(number)?),
        outcome: Outcome::Commit(entries(words)?),
    })
}

fn commit(alloc: Global, words: &str) -> Result<Commit, Trouble> {
    let (number, words) = words.split_once(" ").ok_or(Trouble::Row)?;
    let mut votes = Votes::new(alloc);
    for word in words.split(" ") {
        votes.push(vote(word)?)?;
    }
    Ok(Commit {
        n: number.parse::<u64>()?,
        votes,
    })
}

// What an agreed block carries, as this block or as block 1.
fn block(alloc: Global, setting: &Setting, at: usize, first: bool) -> Result<Block, Trouble>
    requires { All (λ body. IsLawfulBody (table_of setting.now.table) body.txns body.config) setting.now.bodies }
    ensures { IfOk result (IsLawfulBlock (table_of setting.now.table)) }
{
    let body = setting.bodies.as_slice().get(at).ok_or(Trouble::NotThere)?;
    let agreed = setting.blocks.as_slice().get(at).ok_or(Trouble::NotThere)?;
    Ok(Block {
        number: if first { 1 } else { agreed.number },
        prev: if first { [0; 32] } else { agreed.prev },
        txns: body.txns.copy(alloc)?,
        config: body.config.copy(alloc)?,
    })
}

fn newblock(alloc: Global, setting: &Setting, words: &str) -> Result<NewBlock, Trouble>
    requires { All (λ body. IsLawfulBody (table_of setting.now.table) body.txns body.config) setting.now.bodies }
    ensures { IfOk result (λ newblock. IsLawfulBlock (table_of setting.now.table) newblock.block) }
{
    let (number, how) = words.split_once(" ").unwrap_or((words, ""));
    let block = block(alloc, setting, usize::from(place(number)?), how == "first")?;
    if block.txns.len() > 256 {
        return Err(Trouble::NotThere);
    }
    if how == "bare" {
        let preds = Preds::new(alloc);
        return Ok(NewBlock { block, preds });
    }
    let preds = build(alloc, &block, setting.table.kind)?.lists(alloc)?;
    Ok(NewBlock { block, preds })
}

/// The sender and the message that a row names.
pub fn letter(alloc: Global, setting: &Setting, row: &str) -> Result<(Node, Message), Trouble>
    requires { All (λ body. IsLawfulBody (table_of setting.now.table) body.txns body.config) setting.now.bodies }
    ensures { IfOk result (λ letter. IsLawfulMessage (table_of setting.now.table) letter.1) }
{
    let (name, rest) = row.split_once(" ").ok_or(Trouble::Row)?;
    let from = node(name)?;
    if let Some(words) = rest.strip_prefix("sends ") {
        return Ok((from, Message::NewBlock(newblock(alloc, setting, words)?)));
    }
    let words = rest.strip_prefix("votes ").ok_or(Trouble::Row)?;
    Ok((from, Message::Commit(commit(alloc, words)?)))
}
