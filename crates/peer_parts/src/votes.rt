//! Votes put into a book: those of a message, and this peer's own.

ghost use Rattle.std.specs.Prelude.{◌≡◌, ◌<◌, ◌≤◌, ◌++◌, ℕ, List, true, length, get_or, Some, None, OnOk, IfOk};
ghost use Rattle.txn_types.specs.declared.message.Node.TheVariants.{Peer};
ghost use Rattle.vote_book.specs.Puts.{Cast, BookStandsFor, voter_of};
ghost use Rattle.peer_parts.specs.Voting.{with_casts, any_new, is_counted, own_casts, own_upto};

use board_work::Own;
use std::alloc::Global;
use txn_types::{Commit, Known, Node, OutOfMemory, Outcome};
use vote_book::{Book, VotePut};

fn is_counted(put: VotePut) -> bool
    ensures { result ≡ is_counted put }
{
    match put {
        VotePut::Counted => true,
        _ => false,
    }
}

/// Puts the votes of a COMMIT. Says whether one of them was new.
pub fn hear(
    alloc: Global,
    book: &mut Book,
    from: Node,
    commit: &Commit,
) -> Result<bool, OutOfMemory>
    ensures stands { OnOk result ((voters : List ℕ) (puts : List Cast) → BookStandsFor book.old voters puts → BookStandsFor book.new voters (with_casts from commit.now.n commit.now.votes puts)) }
    ensures new { IfOk result (λ new. (voters : List ℕ) (puts : List Cast) → BookStandsFor book.old voters puts → new ≡ any_new voters from commit.now.n commit.now.votes puts) }
{
    let mut new = false;
    for vote in commit.votes.as_slice() {
        let put = book.put(alloc, from, commit.n, vote.t, &vote.outcome)?;
        new = is_counted(put) | new;
    }
    Ok(new)
}

/// Puts this peer's vote on position `t`, if it has just run.
fn vote_one(
    alloc: Global,
    book: &mut Book,
    me: u8,
    n: u64,
    t: u16,
    own: bool,
    before: &Option<Outcome>,
    after: &Option<Outcome>,
) -> Result<(), OutOfMemory>
    ensures { OnOk result ((voters : List ℕ) (puts : List Cast) → BookStandsFor book.old voters puts → BookStandsFor book.new voters (own_casts me n t own before.now after.now ++ puts)) }
{
    if !own || before.is_some() {
        return Ok(());
    }
    if let Some(outcome) = after {
        book.put(alloc, Node::Peer(me), n, t, outcome)?;
    }
    Ok(())
}

/// Puts this peer's votes on what has just run, in order of position.
pub fn vote(
    alloc: Global,
    book: &mut Book,
    me: u8,
    n: u64,
    own: &Own,
    before: &Known,
    after: &Known,
) -> Result<(), OutOfMemory>
    requires few { length own.now ≤ 256 }
    requires before { length before.now ≡ length own.now }
    requires after { length after.now ≡ length own.now }
    ensures { OnOk result ((voters : List ℕ) (puts : List Cast) → BookStandsFor book.old voters puts → BookStandsFor book.new voters (own_upto me n own.now before.now after.now (length own.now) puts)) }
{
    for t in 0..own.len() {
        vote_one(
            alloc,
            book,
            me,
            n,
            t as u16,
            own.as_slice()[t],
            &before.as_slice()[t],
            &after.as_slice()[t],
        )?;
    }
    Ok(())
}
