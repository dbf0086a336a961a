//! Each generic list and each copy once, at concrete types.

use std::alloc::Global;
use std::test::Fail;
use txn_types::{
    Arg, Block, Body, Commit, Config, Copies, FixedList, Name, NewBlock, Node, NodeSet, Outcome,
    PeerSet, Preds, Reason, Recs, Txn, Txns, Values, Vote, Votes, Writes,
};

#[test]
fn fixed_lists_fill(rt: HostRuntime) {
    let mut args = FixedList::<Arg, 16>::empty();
    args.add(Arg::Rec(3));
    args.add_all(&[Arg::Num(4)]);
    assert_eq!(rt;
        args.copy().as_slice(),
        [Arg::Rec(3), Arg::Num(4)].as_slice()
    );
    let mut records = Recs::empty();
    records.add(3);
    assert_eq!(rt; records.copy().as_slice(), [3].as_slice());
    assert_eq!(rt; Recs::of(&[3, 5]).as_slice(), [3, 5].as_slice());
    let mut nodes = NodeSet::empty();
    nodes.add(Node::Peer(9));
    nodes.add(Node::Orderer(0));
    assert_eq!(rt;
        nodes.copy().as_slice(),
        [Node::Peer(9), Node::Orderer(0)].as_slice()
    );
}

#[test]
fn names_are_told(rt: HostRuntime) {
    for (bytes, is_name) in [
        (b"a".as_slice(), true),
        (b"a_9", true),
        (b"", false),
        (b"9a", false),
        (b"A", false),
        (b"a-b", false),
        (b"abcdefghijklmnopqrstuvwxyz012345", true),
        (b"abcdefghijklmnopqrstuvwxyz0123456", false),
    ] {
        assert_eq!(rt; Name::new(bytes).is_some(), is_name, "{bytes:?}");
    }
}

fn transaction() -> Txn {
    Txn {
        app: 1,
        op: 2,
        args: FixedList::empty(),
        reads: Recs::empty(),
        writes: Recs::empty(),
    }
}

fn block(alloc: Global) -> Result<Block, Fail> {
    let mut txns = Txns::new(alloc);
    txns.push(transaction())?;
    Ok(Block {
        number: 5,
        prev: [6; 32],
        txns,
        config: Some(Config {
            app: 1,
            agents: PeerSet::empty(),
            tau: 3,
        }),
    })
}

#[test]
fn copies_are_equal(rt: HostRuntime) -> Result<(), Fail> {
    let alloc = rt.alloc();
    let first = block(alloc)?;
    let copied = first.copy(alloc)?;
    assert!(rt; copied == first);
    let body = Body {
        txns: copied.txns,
        config: None,
    };
    assert_eq!(rt; body.copy(alloc)?.txns.len(), 1);
    let mut values = Values::new(alloc);
    values.push(4)?;
    assert_eq!(rt; values.copy(alloc)?.as_slice(), [4].as_slice());
    Ok(())
}

#[test]
fn messages_are_copied(rt: HostRuntime) -> Result<(), Fail> {
    let alloc = rt.alloc();
    let message = NewBlock {
        block: block(alloc)?,
        preds: Preds::new(alloc),
    };
    assert_eq!(rt; message.copy(alloc)?.block.number, 5);
    let mut writes = Writes::empty();
    writes.add(Some(4));
    let mut votes = Votes::new(alloc);
    votes.push(Vote {
        t: 7,
        outcome: Outcome::Commit(writes),
    })?;
    votes.push(Vote {
        t: 8,
        outcome: Outcome::Abort(Reason::Require),
    })?;
    let commit = Commit { n: 9, votes };
    assert!(rt; commit.copy(alloc)?.votes.as_slice() == commit.votes.as_slice());
    Ok(())
}
