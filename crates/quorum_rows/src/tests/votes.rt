//! Votes are put with ample memory, and the first to be agreed on is reported.

use evidence_marks::AgentMark;
use std::alloc::Global;
use std::test::Fail;
use txn_types::{Args, Node, Outcome, PeerSet, Recs, Txn, Writes};
use vote_book::{Book, VotePut};

fn commit(entries: &[u64]) -> Outcome {
    let mut writes = Writes::empty();
    for entry in entries {
        if writes.as_slice().len() < 16 {
            writes.add(Some(*entry));
        }
    }
    Outcome::Commit(writes)
}

fn put(alloc: Global, book: &mut Book, from: Node, entries: &[u64]) -> Result<VotePut, Fail> {
    Ok(book.put(alloc, from, 1, 0, &commit(entries))?)
}

fn three_peers() -> PeerSet {
    let mut peers = PeerSet::empty();
    peers.add(0);
    peers.add(1);
    peers.add(2);
    peers
}

fn transfer() -> Txn {
    let mut records = Recs::empty();
    records.add(0);
    records.add(1);
    Txn {
        app: 0,
        op: 0,
        args: Args::empty(),
        reads: Recs::empty(),
        writes: records,
    }
}

/// Whether two votes agree on these entries, or on nothing where there are none.
fn is_agreed(book: &Book, txn: &Txn, entries: &[u64]) -> bool {
    match book.agreed(1, 0, &three_peers(), 2, txn) {
        Some(outcome) => *outcome == commit(entries),
        None => entries.is_empty(),
    }
}

#[test]
fn the_first_votes_count(rt: HostRuntime) -> Result<(), Fail> {
    let alloc = rt.alloc();
    let mut book = Book::new(alloc, &three_peers())?;
    let txn = transfer();
    for (from, entries, answer, agreed) in [
        (
            Node::Peer(2),
            [0, 10].as_slice(),
            VotePut::Counted,
            [].as_slice(),
        ),
        (Node::Peer(2), &[6, 4], VotePut::Repeat, &[]),
        (Node::Orderer(0), &[0, 10], VotePut::Stranger, &[]),
        (Node::Peer(3), &[0, 10], VotePut::Stranger, &[]),
        (Node::Peer(0), &[6], VotePut::Counted, &[]),
        (Node::Peer(1), &[0, 10], VotePut::Counted, &[0, 10]),
    ] {
        let answered = put(alloc, &mut book, from, entries)?;
        assert_eq!(rt; answered, answer, "{from:?} {entries:?}");
        assert!(rt;
            is_agreed(&book, &txn, agreed),
            "behind {from:?} {entries:?}"
        );
    }
    Ok(())
}

#[test]
fn who_votes_two_outcomes_is_marked(rt: HostRuntime) -> Result<(), Fail> {
    let alloc = rt.alloc();
    let mut book = Book::new(alloc, &three_peers())?;
    for (from, n, t, entries) in [
        (Node::Peer(2), 7, 200, [0, 10].as_slice()),
        (Node::Peer(2), 7, 200, &[6, 4]),
        (Node::Peer(2), 1, 0, &[5]),
        (Node::Peer(2), 1, 0, &[5]),
        (Node::Peer(2), 1, 1, &[6]),
        (Node::Peer(0), 2, 1, &[0, 10]),
        (Node::Peer(0), 2, 1, &[6, 4]),
        (Node::Peer(0), 2, 1, &[1]),
        (Node::Peer(0), 1, 3, &[1]),
        (Node::Peer(0), 1, 3, &[1, 1]),
        (Node::Peer(3), 1, 0, &[0]),
        (Node::Peer(3), 1, 0, &[1]),
        (Node::Orderer(1), 1, 0, &[0]),
        (Node::Orderer(1), 1, 0, &[1]),
    ] {
        book.put(alloc, from, n, t, &commit(entries))?;
    }
    let marks = [
        AgentMark {
            agent: 0,
            n: 1,
            t: 3,
        },
        AgentMark {
            agent: 0,
            n: 2,
            t: 1,
        },
        AgentMark {
            agent: 2,
            n: 7,
            t: 200,
        },
    ];
    assert_eq!(rt; book.evidence().as_slice(), marks.as_slice());
    Ok(())
}
