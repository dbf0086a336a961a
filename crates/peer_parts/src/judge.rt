//! The state of a block: what is agreed, and whether it is split, waits or is done.

ghost use Rattle.std.specs.Prelude.{◌≡◌, ◌<◌, ◌≤◌, ◌&&◌, ◌++◌, ◌∷◌, [], not, ℕ, List, Option, Bool, true, false, is_some, length, get_or, take, drop, map, unwrap_or, option_copied, Some, None, IfOk, IfSome, OnOk};
ghost use Rattle.std.specs.List.{list_all};
ghost use Rattle.std.specs.Option.{option_map};
ghost use Rattle.known_defs.specs.Known.{txn_at, no_outcome};
ghost use Rattle.node_defs.specs.Rules.{Rules};
ghost use Rattle.node_defs.specs.Ledger.{differs, is_agreed, agreed_outcome, first_halt, halt_at};
ghost use Rattle.hash_ledger.specs.Halts.{halt_of};
ghost use Rattle.vote_book.specs.Puts.{Cast, BookStandsFor, cast_on};
ghost use Rattle.txn_types.specs.Fitting.{Fits};
ghost use Rattle.peer_laws.specs.Turns.{agreed_in};
ghost use Rattle.steal_pool.specs.Fitting.{AllFitAt};
ghost use Rattle.peer_parts.specs.InForce.{IsForce};
ghost use Rattle.peer_parts.specs.Judging.{AppsFit, AreAgreedBy, stand, stand_all};

use crate::force::Force;
use board_work::Own;
use std::alloc::Global;
use txn_types::{Block, Copies, Known, OutOfMemory, Outcome, Outcomes, Reason, Split, Txn};
use vote_book::Book;

fn copied(outcome: Option<&Outcome>) -> Option<Outcome>
    ensures { result ≡ option_copied outcome.entry }
{
    match outcome {
        Some(outcome) => Some(outcome.copy()),
        None => None,
    }
}

fn agreed_at(book: &Book, force: &Force, n: u64, t: u16, txn: &Txn) -> Option<Outcome>
    requires app { txn.now.app < length force.now }
    ensures agreed { (voters : List ℕ) (puts : List Cast) (r : Rules) → BookStandsFor book.now voters puts → IsForce r force.now → result ≡ agreed_in r txn.now (cast_on voters n t puts) }
    ensures fits { IfSome result (λ o. Fits txn.now o) }
{
    copied(book.agreed(n, t, force.agents(txn.app), force.tau(txn.app), txn))
}

/// What votes agree on each position of a block.
pub fn agreed_of(
    alloc: Global,
    book: &Book,
    force: &Force,
    n: u64,
    block: &Block,
) -> Result<Known, OutOfMemory>
    requires few { length block.now.txns ≤ 256 }
    requires apps { AppsFit block.now.txns (length force.now) }
    ensures long { IfOk result (λ all. length all ≡ length block.now.txns) }
    ensures agreed { IfOk result (λ all. (voters : List ℕ) (puts : List Cast) (r : Rules) → BookStandsFor book.now voters puts → IsForce r force.now → AreAgreedBy r n block.now.txns voters puts all) }
    ensures fit { IfOk result (λ all. AllFitAt block.now.txns all) }
{
    let mut all = Known::new(alloc);
    for t in 0..block.txns.len() {
        all.push(agreed_at(book, force, n, t as u16, &block.txns.as_slice()[t]))?;
    }
    Ok(all)
}

/// Whether a position ran and was agreed with another outcome.
fn does_differ(own: bool, known: &Option<Outcome>, agreed: &Option<Outcome>) -> bool
    ensures { result ≡ differs (stand own known.now agreed.now) }
{
    match (known, agreed) {
        (Some(ran), Some(voted)) => own && *voted != *ran,
        _ => false,
    }
}

fn outcome_or(outcome: &Option<Outcome>) -> Outcome
    ensures { result ≡ unwrap_or outcome.now no_outcome }
{
    match outcome {
        Some(outcome) => outcome.copy(),
        None => Outcome::Abort(Reason::Require),
    }
}

/// What a position is halted with, if it ran and was agreed with another outcome.
fn split_at(
    n: u64,
    t: u16,
    txn: &Txn,
    own: bool,
    known: &Option<Outcome>,
    agreed: &Option<Outcome>,
) -> Option<Split>
    ensures { option_map halt_of result ≡ halt_at n t txn.now (stand own known.now agreed.now) }
{
    if !does_differ(own, known, agreed) {
        return None;
    }
    Some(Split {
        n,
        t,
        writes: txn.writes.copy(),
        ran: outcome_or(known),
        voted: outcome_or(agreed),
    })
}

/// What the lowest position is halted with that ran and was agreed with another outcome.
pub fn split_of(n: u64, block: &Block, own: &Own, known: &Known, agreed: &Known) -> Option<Split>
    requires few { length block.now.txns ≤ 256 }
    requires own { length own.now ≡ length block.now.txns }
    requires known { length known.now ≡ length block.now.txns }
    requires agreed { length agreed.now ≡ length block.now.txns }
    ensures { option_map halt_of result ≡ first_halt n 0 block.now.txns (stand_all own.now known.now agreed.now) }
{
    for t in 0..block.txns.len() {
        let split = split_at(
            n,
            t as u16,
            &block.txns.as_slice()[t],
            own.as_slice()[t],
            &known.as_slice()[t],
            &agreed.as_slice()[t],
        );
        if split.is_some() {
            return split;
        }
    }
    None
}

fn is_agreed_at(own: bool, known: &Option<Outcome>, agreed: &Option<Outcome>) -> bool
    ensures { result ≡ is_agreed (stand own known.now agreed.now) }
{
    agreed.is_some() && !does_differ(own, known, agreed)
}

/// Whether each position is agreed, and none that ran with another outcome.
pub fn is_done(own: &Own, known: &Known, agreed: &Known) -> bool
    requires known { length known.now ≡ length own.now }
    requires agreed { length agreed.now ≡ length own.now }
    ensures { result ≡ list_all is_agreed (stand_all own.now known.now agreed.now) }
{
    for t in 0..own.len() {
        if !is_agreed_at(
            own.as_slice()[t],
            &known.as_slice()[t],
            &agreed.as_slice()[t],
        ) {
            return false;
        }
    }
    true
}

/// The outcomes that are agreed.
pub fn outcomes_of(alloc: Global, agreed: &Known) -> Result<Outcomes, OutOfMemory>
    ensures { IfOk result (λ all. all ≡ map (λ a. unwrap_or a no_outcome) agreed.now) }
{
    let mut all = Outcomes::new(alloc);
    for outcome in agreed.as_slice() {
        all.push(outcome_or(outcome))?;
    }
    Ok(all)
}
