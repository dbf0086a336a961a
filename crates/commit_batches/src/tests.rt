//! Votes are held with ample memory, until a cut follows or they are flushed.

ghost use Rattle.commit_batches.specs.Held.{IsFor};
ghost use Rattle.std.specs.Prelude.{OnOk};

use crate::Holder;
use std::alloc::Global;
use std::test::Fail;
use txn_types::{Commit, GrowingList, Outcome, Reason, Vote};

/// The block and then the positions of a COMMIT; nothing where there is none.
fn told(alloc: Global, commit: Option<Commit>) -> Result<GrowingList<u64>, Fail> {
    let mut numbers = GrowingList::new(alloc);
    if let Some(commit) = commit {
        numbers.push(commit.n)?;
        for vote in commit.votes.as_slice() {
            numbers.push(u64::from(vote.t))?;
        }
    }
    Ok(numbers)
}

/// What is handed out as an abort of `t` in block 7 is held.
fn add(alloc: Global, holder: &mut Holder, t: u16, follows: bool) -> Result<GrowingList<u64>, Fail>
    requires { IsFor holder.old 7 }
    ensures { OnOk result (IsFor holder.new 7) }
{
    let vote = Vote {
        t,
        outcome: Outcome::Abort(Reason::Require),
    };
    let given = holder.add(alloc, 7, vote, follows)?;
    let numbers = told(alloc, given)?;
    Ok(numbers)
}

#[test]
fn held_votes_are_cut(rt: HostRuntime) -> Result<(), Fail> {
    let alloc = rt.alloc();
    let mut holder = Holder::new(alloc);
    for (t, follows, handed) in [
        (0, false, [].as_slice()),
        (1, false, &[]),
        (2, true, &[7, 0, 1, 2]),
        (3, false, &[]),
        (4, true, &[7, 3, 4]),
    ] {
        let given = add(alloc, &mut holder, t, follows)?;
        assert!(rt; given.as_slice() == handed, "position {t}");
    }
    assert!(rt; holder.flush().is_none(), "after a cut");
    assert_eq!(rt; add(alloc, &mut holder, 5, false)?.len(), 0);
    let flushed = told(alloc, holder.flush())?;
    assert!(rt; flushed.as_slice() == [7, 5].as_slice(), "flushed");
    assert!(rt; holder.flush().is_none(), "flushed twice");
    Ok(())
}
