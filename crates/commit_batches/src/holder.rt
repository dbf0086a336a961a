//! The results of one block that are held back until a cut or a flush.

ghost use Rattle.std.specs.Prelude.{◌≡◌, [], OnOk, OnErr, IfOk};
ghost use Rattle.commit_batches.specs.Held.{IsFor, Hold, Cut, emptied, handed_at, held_behind};

use std::alloc::Global;
use std::marker::Model;
use txn_types::{Commit, OutOfMemory, Vote, Votes};

/// The results of one block that are held back, seen by contracts as the COMMIT that they would be.
#[derive(Drop)]
pub struct Holder {
    alloc: Global,
    held: Commit,
}

impl Model for Holder {
    ghost use Rattle.txn_types.specs.declared.message.Commit.{Commit};

    ghost Value = { Commit };

    ghost view = { λ holder. holder.held };
}

impl Holder {
    /// Holds nothing. It takes no memory, and keeps `alloc` for what is held later.
    pub fn new(alloc: Global) -> Holder
        ensures { result.votes ≡ [] }
    {
        Holder {
            alloc,
            held: Commit {
                n: 0,
                votes: Votes::new(alloc),
            },
        }
    }

    /// Holds a vote on a position of block `n`, and hands out all that is held if a cut follows.
    pub fn add(
        &mut self,
        _alloc: Global,
        n: u64,
        vote: Vote,
        follows: bool,
    ) -> Result<Option<Commit>, OutOfMemory>
        requires { IsFor self.old n }
        ensures handed { IfOk result (λ commit. commit ≡ handed_at self.old (Hold n vote follows)) }
        ensures held { OnOk result (self.new ≡ held_behind self.old (Hold n vote follows)) }
        ensures err { OnErr result (self.new ≡ self.old) }
    {
        self.held.votes.push(vote)?;
        self.held.n = n;
        if !follows {
            return Ok(None);
        }
        let commit = self.cut();
        Ok(Some(commit))
    }

    /// Hands out what is held, if there is any.
    pub fn flush(&mut self) -> Option<Commit>
        ensures handed { result ≡ handed_at self.old Cut }
        ensures held { self.new ≡ held_behind self.old Cut }
    {
        if self.held.votes.len() == 0 {
            return None;
        }
        let held = self.cut();
        Some(held)
    }

    fn cut(&mut self) -> Commit
        ensures handed { result ≡ self.old }
        ensures held { self.new ≡ emptied self.old }
    {
        let votes = std::mem::replace(&mut self.held.votes, Votes::new(self.alloc));
        Commit {
            n: self.held.n,
            votes,
        }
    }
}
