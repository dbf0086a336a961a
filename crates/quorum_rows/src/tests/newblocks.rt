//! NEWBLOCKs are put with ample memory, and the first content to reach the quorum is reported.

use evidence_marks::OrdererMark;
use newblock_quorum::{Inbox, NewBlockPut};
use std::alloc::Global;
use std::test::Fail;
use txn_types::{
    Arg, Args, Block, Config, GrowingList, Kind, NewBlock, Node, PeerSet, Preds, Recs, Txn, Txns,
};

fn both_records() -> Recs {
    let mut records = Recs::empty();
    records.add(0);
    records.add(1);
    records
}

fn transfer(amount: u64) -> Txn {
    let mut args = Args::empty();
    args.add_all(&[Arg::Rec(0), Arg::Rec(1), Arg::Num(amount)]);
    Txn {
        app: 0,
        op: 0,
        args,
        reads: both_records(),
        writes: both_records(),
    }
}

fn put(
    alloc: Global,
    inbox: &mut Inbox,
    from: Node,
    block: Block,
    preds: Preds,
) -> Result<NewBlockPut, Fail> {
    if block.txns.len() > 256 {
        return Err("too many transactions".into());
    }
    Ok(inbox.put(alloc, from, NewBlock { block, preds })?)
}

/// Puts block 1 of these amounts, of which the second transaction depends on these positions.
fn put_transfers(
    alloc: Global,
    inbox: &mut Inbox,
    from: Node,
    amounts: &[u64],
    second: &[u16],
) -> Result<NewBlockPut, Fail> {
    let mut txns = Txns::new(alloc);
    for amount in amounts {
        txns.push(transfer(*amount))?;
    }
    let mut of_second = GrowingList::new(alloc);
    for position in second {
        of_second.push(*position)?;
    }
    let mut preds = Preds::new(alloc);
    preds.push(GrowingList::new(alloc))?;
    preds.push(of_second)?;
    let block = Block {
        number: 1,
        prev: [0; 32],
        txns,
        config: None,
    };
    put(alloc, inbox, from, block, preds)
}

/// Whether block 1 is ready with these amounts, or isn't ready where there are none.
fn is_ready(inbox: &Inbox, amounts: &[u64]) -> bool {
    match inbox.ready(1, &[0; 32]) {
        Some(ready) => {
            let txns = ready.block.txns.as_slice();
            txns.len() == amounts.len()
                && txns
                    .iter()
                    .zip(amounts)
                    .all(|(txn, amount)| *txn == transfer(*amount))
        }
        None => amounts.is_empty(),
    }
}

#[test]
fn the_first_content_of_two_orderers_is_ready(rt: HostRuntime) -> Result<(), Fail> {
    let alloc = rt.alloc();
    let mut inbox = Inbox::new(alloc, 3, 2, Kind::Full)?;
    for (from, amounts, second, answer, ready) in [
        (
            Node::Orderer(2),
            [4, 1].as_slice(),
            [].as_slice(),
            NewBlockPut::WrongGraph,
            [].as_slice(),
        ),
        (Node::Orderer(2), &[1, 4], &[0], NewBlockPut::Counted, &[]),
        (Node::Orderer(0), &[4, 1], &[0], NewBlockPut::Counted, &[]),
        (Node::Orderer(0), &[4, 1], &[0], NewBlockPut::Repeat, &[]),
        (Node::Peer(1), &[4, 1], &[0], NewBlockPut::Stranger, &[]),
        (Node::Orderer(3), &[4, 1], &[0], NewBlockPut::Stranger, &[]),
        (
            Node::Orderer(1),
            &[4, 1],
            &[0],
            NewBlockPut::Counted,
            &[4, 1],
        ),
    ] {
        let answered = put_transfers(alloc, &mut inbox, from, amounts, second)?;
        assert_eq!(rt; answered, answer, "{from:?} {amounts:?}");
        assert!(rt; is_ready(&inbox, ready), "behind {from:?} {amounts:?}");
    }
    Ok(())
}

#[test]
fn who_sends_two_blocks_is_marked(rt: HostRuntime) -> Result<(), Fail> {
    let alloc = rt.alloc();
    let mut inbox = Inbox::new(alloc, 4, 2, Kind::Full)?;
    for (from, amounts, second) in [
        (Node::Orderer(2), [1, 4].as_slice(), [0].as_slice()),
        (Node::Orderer(2), &[1, 4], &[0]),
        (Node::Orderer(2), &[4, 1], &[0]),
        (Node::Orderer(2), &[4, 4], &[0]),
        (Node::Orderer(0), &[4, 1], &[0]),
        (Node::Orderer(0), &[1, 4], &[0]),
        (Node::Orderer(1), &[4, 1], &[0]),
        (Node::Orderer(1), &[4, 1], &[0]),
        (Node::Orderer(3), &[4, 1], &[0]),
        (Node::Orderer(3), &[1, 4], &[]),
        (Node::Orderer(4), &[4, 1], &[0]),
        (Node::Orderer(4), &[1, 4], &[0]),
        (Node::Peer(1), &[4, 1], &[0]),
        (Node::Peer(1), &[1, 4], &[0]),
    ] {
        put_transfers(alloc, &mut inbox, from, amounts, second)?;
    }
    let marks = [
        OrdererMark { orderer: 0, n: 1 },
        OrdererMark { orderer: 2, n: 1 },
    ];
    assert_eq!(rt; inbox.evidence().as_slice(), marks.as_slice());
    Ok(())
}

fn configuration(alloc: Global) -> Block {
    let mut agents = PeerSet::empty();
    agents.add(1);
    Block {
        number: 2,
        prev: [7; 32],
        txns: Txns::new(alloc),
        config: Some(Config {
            app: 0,
            agents,
            tau: 1,
        }),
    }
}

#[test]
fn a_configuration_has_no_lists(rt: HostRuntime) -> Result<(), Fail> {
    let alloc = rt.alloc();
    let mut inbox = Inbox::new(alloc, 1, 1, Kind::Raw)?;
    let mut one_list = Preds::new(alloc);
    one_list.push(GrowingList::new(alloc))?;
    let refused = put(
        alloc,
        &mut inbox,
        Node::Orderer(0),
        configuration(alloc),
        one_list,
    )?;
    assert_eq!(rt; refused, NewBlockPut::WrongGraph);
    let none = Preds::new(alloc);
    let counted = put(
        alloc,
        &mut inbox,
        Node::Orderer(0),
        configuration(alloc),
        none,
    )?;
    assert_eq!(rt; counted, NewBlockPut::Counted);
    let ready = inbox.ready(2, &[7; 32]).ok_or("not ready")?;
    assert!(rt; ready.block.config == configuration(alloc).config);
    assert_eq!(rt; ready.graph.len(), 0);
    assert!(rt; inbox.ready(2, &[0; 32]).is_none(), "another previous hash");
    Ok(())
}
