//! What a peer answers and holds, as rows write it.
//!
//! An answer is a note, then `; runs 1 1 3` for each block of which positions ran, then `; sends 1 1=6,4` for each COMMIT, whose
//! votes are written as in messages.
//! What it holds are the blocks of its ledger, each with its hash, its configuration and an outcome for each transaction, the value
//! of each record, `halted 1 2 writes [2] ran 3 voted 7` for position 2 of block 1, and its evidence: `evidence o3 1` where orderer 3
//! sent two blocks with number 1, `evidence p2 1 4` where peer 2 voted two outcomes for position 4 of block 1. Here applications, agents and records are numbers from 0.

use peer_core::{BlockSpans, Peer, Took};
use std::alloc::{AllocError, Global};
use std::fmt::Debug;
use txn_types::{Block, Commit, Config, Outcome, Split, Vote};

// A number in decimals, a list of numbers in brackets, or a name.
fn push_shown<T: Debug>(alloc: Global, text: &mut String, shown: &T) -> Result<(), AllocError> {
    text.push_str(format!(in alloc; "{shown:?}")?.as_str())
}

// Words, and a number behind them.
fn push_number(
    alloc: Global,
    text: &mut String,
    words: &str,
    number: u64,
) -> Result<(), AllocError> {
    text.push_str(words)?;
    push_shown(alloc, text, &number)
}

fn push_entry(alloc: Global, text: &mut String, entry: Option<u64>) -> Result<(), AllocError> {
    match entry {
        Some(value) => push_shown(alloc, text, &value),
        None => text.push_str("-"),
    }
}

fn push_entries(
    alloc: Global,
    text: &mut String,
    entries: &[Option<u64>],
) -> Result<(), AllocError> {
    let mut comma = "";
    for entry in entries {
        text.push_str(comma)?;
        push_entry(alloc, text, *entry)?;
        comma = ",";
    }
    Ok(())
}

fn push_outcome(alloc: Global, text: &mut String, outcome: &Outcome) -> Result<(), AllocError> {
    match outcome {
        Outcome::Commit(entries) => push_entries(alloc, text, entries.as_slice()),
        Outcome::Abort(reason) => push_shown(alloc, text, reason),
    }
}

fn push_vote(alloc: Global, text: &mut String, vote: &Vote) -> Result<(), AllocError> {
    push_number(alloc, text, " ", vote.t as u64 + 1)?;
    text.push_str("=")?;
    push_outcome(alloc, text, &vote.outcome)
}

fn push_commit(alloc: Global, text: &mut String, commit: &Commit) -> Result<(), AllocError> {
    push_number(alloc, text, "; sends ", commit.n)?;
    for vote in commit.votes.as_slice() {
        push_vote(alloc, text, vote)?;
    }
    Ok(())
}

fn push_spans(alloc: Global, text: &mut String, spans: &BlockSpans) -> Result<(), AllocError> {
    push_number(alloc, text, "; runs ", spans.n)?;
    for span in spans.spans.as_slice() {
        push_number(alloc, text, " ", span.t as u64 + 1)?;
    }
    Ok(())
}

/// What a peer answers to the message of a row.
pub fn push_answer(
    alloc: Global,
    text: &mut String,
    row: &str,
    took: &Took,
) -> Result<(), AllocError> {
    text.push_str(row)?;
    text.push_str(" => ")?;
    push_shown(alloc, text, &took.note)?;
    for spans in took.spans.as_slice() {
        push_spans(alloc, text, spans)?;
    }
    for commit in took.sent.as_slice() {
        push_commit(alloc, text, commit)?;
    }
    text.push_str("\n")
}

fn push_hash(alloc: Global, text: &mut String, hash: &[u8; 32]) -> Result<(), AllocError> {
    for byte in hash {
        text.push_str(format!(in alloc; "{byte:02x}")?.as_str())?;
    }
    Ok(())
}

fn push_config(alloc: Global, text: &mut String, config: &Config) -> Result<(), AllocError> {
    push_number(alloc, text, "config ", u64::from(config.app))?;
    push_number(alloc, text, " tau ", u64::from(config.tau))?;
    text.push_str(" agents ")?;
    push_shown(alloc, text, &config.agents.as_slice())?;
    text.push_str("\n")
}

fn push_outcomes(alloc: Global, text: &mut String, outcomes: &[Outcome]) -> Result<(), AllocError> {
    for (i, outcome) in outcomes.iter().enumerate() {
        push_number(alloc, text, "txn ", i as u64 + 1)?;
        text.push_str(" ")?;
        push_outcome(alloc, text, outcome)?;
        text.push_str("\n")?;
    }
    Ok(())
}

fn push_block(
    alloc: Global,
    text: &mut String,
    block: &Block,
    outcomes: &[Outcome],
    hash: &[u8; 32],
) -> Result<(), AllocError> {
    push_number(alloc, text, "block ", block.number)?;
    text.push_str(" ")?;
    push_hash(alloc, text, hash)?;
    text.push_str("\n")?;
    if let Some(config) = &block.config {
        push_config(alloc, text, config)?;
    }
    push_outcomes(alloc, text, outcomes)
}

fn push_halted(alloc: Global, text: &mut String, split: &Split) -> Result<(), AllocError> {
    push_number(alloc, text, "halted ", split.n)?;
    push_number(alloc, text, " ", split.t as u64 + 1)?;
    text.push_str(" writes ")?;
    push_shown(alloc, text, &split.writes.as_slice())?;
    text.push_str(" ran ")?;
    push_outcome(alloc, text, &split.ran)?;
    text.push_str(" voted ")?;
    push_outcome(alloc, text, &split.voted)?;
    text.push_str("\n")
}

// Who said two different things about what.
fn push_mark(
    alloc: Global,
    text: &mut String,
    kind: &str,
    who: u8,
    about: &[u64],
) -> Result<(), AllocError> {
    text.push_str("evidence ")?;
    push_number(alloc, text, kind, who as u64 + 1)?;
    for number in about {
        push_number(alloc, text, " ", *number)?;
    }
    text.push_str("\n")
}

fn push_evidence(alloc: Global, text: &mut String, peer: &Peer) -> Result<(), AllocError> {
    let evidence = peer.evidence();
    for mark in evidence.orderers.as_slice() {
        push_mark(alloc, text, "o", mark.orderer, &[mark.n])?;
    }
    for mark in evidence.agents.as_slice() {
        let position = mark.t as u64 + 1;
        push_mark(alloc, text, "p", mark.agent, &[mark.n, position])?;
    }
    Ok(())
}

/// What a peer holds.
pub fn push_peer(alloc: Global, text: &mut String, me: u8, peer: &Peer) -> Result<(), AllocError> {
    let ledger = peer.ledger();
    push_number(alloc, text, "peer p", me as u64 + 1)?;
    push_number(alloc, text, " completed ", ledger.len())?;
    text.push_str("\n")?;
    for i in 0..ledger.len() {
        let outcomes = ledger.outcomes(i).as_slice();
        push_block(alloc, text, ledger.block(i), outcomes, &ledger.hash(i))?;
    }
    text.push_str("state ")?;
    push_shown(alloc, text, &peer.state().as_slice())?;
    text.push_str("\n")?;
    if let Some(split) = peer.halted() {
        push_halted(alloc, text, split)?;
    }
    push_evidence(alloc, text, peer)
}
