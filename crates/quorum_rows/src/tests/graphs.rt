//! A block of three transactions in both kinds, lists that are not the block's, and a configuration, with ample memory.

use dep_graph::{build, knows_preds, other_app_follows, successors};
use std::alloc::Global;
use std::test::Fail;
use txn_core::Graph;
use txn_types::{
    Args, Block, Config, Copies, GrowingList, Kind, OutOfMemory, PeerSet, Recs, Txn, Txns,
};

// What is told of a position: on which it depends, which depend on it, whether one of those has another application, and whether all before it is known where nothing is.
#[derive(Drop)]
struct Told {
    preds: GrowingList<u16>,
    after: GrowingList<u16>,
    other: bool,
    known: bool,
}

fn record(number: u16) -> Recs {
    let mut records = Recs::empty();
    records.add(number);
    records
}

fn txn(app: u8, reads: Recs, writes: Recs) -> Txn {
    Txn {
        app,
        op: 0,
        args: Args::empty(),
        reads,
        writes,
    }
}

// With records a to d: the first reads a and writes b, the second of another application writes a, the third reads d and writes c.
fn three(alloc: Global) -> Result<Block, OutOfMemory> {
    let mut txns = Txns::new(alloc);
    txns.push(txn(0, record(0), record(1)))?;
    txns.push(txn(1, Recs::empty(), record(0)))?;
    txns.push(txn(0, record(3), record(2)))?;
    Ok(Block {
        number: 1,
        prev: [0; 32],
        txns,
        config: None,
    })
}

fn built(alloc: Global, block: &Block, kind: Kind) -> Result<Option<Graph>, OutOfMemory> {
    if block.txns.len() > 256 {
        return Ok(None);
    }
    Ok(Some(build(alloc, block, kind)?))
}

fn ask(alloc: Global, block: &Block, kind: Kind, t: u16) -> Result<Option<Told>, OutOfMemory> {
    if block.txns.len() > 256 {
        return Ok(None);
    }
    let graph = build(alloc, block, kind)?;
    if t >= graph.len() || t > 3 {
        return Ok(None);
    }
    let mut preds = GrowingList::new(alloc);
    for p in graph.preds(t) {
        preds.push(*p)?;
    }
    let mut after = GrowingList::new(alloc);
    for j in successors(&graph, t) {
        after.push(j)?;
    }
    Ok(Some(Told {
        preds,
        after,
        other: other_app_follows(block, &graph, t),
        known: knows_preds(block, &graph, t, &[None, None, None]),
    }))
}

// Whether the lists of one kind are taken for those of another.
fn is_taken(alloc: Global, block: &Block, said: Kind, kind: Kind) -> Result<bool, OutOfMemory> {
    let Some(graph) = built(alloc, block, said)? else {
        return Ok(false);
    };
    let lists = graph.lists(alloc)?;
    Ok(block.txns.len() <= 256 && Graph::checked(block, kind, lists).is_some())
}

#[test]
fn both_kinds_of_a_block(rt: HostRuntime) -> Result<(), Fail> {
    let alloc = rt.alloc();
    let block = three(alloc)?;
    let none: &[u16] = &[];
    for (kind, t, preds, after, other, known) in [
        (Kind::Full, 0, none, [1].as_slice(), true, true),
        (Kind::Full, 1, [0].as_slice(), none, false, false),
        (Kind::Full, 2, none, none, false, true),
        (Kind::Raw, 0, none, none, false, true),
        (Kind::Raw, 1, none, none, false, true),
        (Kind::Raw, 2, none, none, false, true),
    ] {
        let found = ask(alloc, &block, kind, t)?.ok_or("no position")?;
        assert_eq!(rt; found.preds.as_slice(), preds, "on which {t} depends");
        assert_eq!(rt; found.after.as_slice(), after, "which depend on {t}");
        assert_eq!(rt;
            found.other,
            other,
            "whether another application follows {t}"
        );
        assert_eq!(rt; found.known, known, "whether all before {t} is known");
    }
    Ok(())
}

#[test]
fn lists_of_another_kind_are_refused(rt: HostRuntime) -> Result<(), Fail> {
    let alloc = rt.alloc();
    let block = three(alloc)?;
    for (said, kind, taken) in [
        (Kind::Full, Kind::Full, true),
        (Kind::Raw, Kind::Raw, true),
        (Kind::Raw, Kind::Full, false),
        (Kind::Full, Kind::Raw, false),
    ] {
        assert_eq!(rt;
            is_taken(alloc, &block, said, kind)?,
            taken,
            "{said:?} for {kind:?}"
        );
    }
    Ok(())
}

#[test]
fn a_configuration_has_no_positions(rt: HostRuntime) -> Result<(), Fail> {
    let alloc = rt.alloc();
    let block = Block {
        number: 2,
        prev: [9; 32],
        txns: Txns::new(alloc),
        config: Some(Config {
            app: 0,
            agents: PeerSet::empty(),
            tau: 1,
        }),
    };
    let graph = built(alloc, &block, Kind::Raw)?.ok_or("too long")?;
    assert_eq!(rt; graph.len(), 0);
    assert_eq!(rt; graph.copy(alloc)?.kind(), Kind::Raw);
    Ok(())
}
