//! The parts of a text, with ample memory.

ghost use Rattle.std.specs.Prelude.{◌≡◌, ◌<◌, [], ◌∷◌, length, Some, IfOk};

use evidence_marks::{AgentMark, AgentMarks, Evidence, OrdererMark, OrdererMarks};
use hash_ledger::Ledger;
use report_text::{evidence_part, head, peer_part, tail};
use std::alloc::Global;
use std::test::Fail;
use txn_core::{Apps, Table};
use txn_types::{
    Kind, Name, Names, OutOfMemory, Outcome, Recs, Reject, Rejected, Rejects, Split, Text, Values,
    Writes,
};

fn two_names(alloc: Global, first: Name, second: Name) -> Result<Names, OutOfMemory>
    ensures { IfOk result (λ names. length names ≡ 2) }
{
    let mut names = Names::new(alloc);
    names.push(first)?;
    names.push(second)?;
    Ok(names)
}

// A table with two records and two peers.
fn table(alloc: Global) -> Result<Table, Fail>
    ensures records { IfOk result (λ table. length table.records ≡ 2) }
    ensures peers { IfOk result (λ table. length table.peers ≡ 2) }
{
    let a = Name::new(b"a").ok_or("no name")?;
    let b = Name::new(b"b").ok_or("no name")?;
    let first = Name::new(b"p1").ok_or("no name")?;
    let second = Name::new(b"p4").ok_or("no name")?;
    Ok(Table {
        kind: Kind::Full,
        records: two_names(alloc, a, b)?,
        orderers: Names::new(alloc),
        quorum: 1,
        peers: two_names(alloc, first, second)?,
        apps: Apps::new(alloc),
    })
}

fn values(alloc: Global) -> Result<Values, Fail>
    ensures { IfOk result (λ values. length values ≡ 2) }
{
    let mut values = Values::new(alloc);
    values.push(10)?;
    values.push(0)?;
    Ok(values)
}

fn commit(first: u64, second: u64) -> Outcome
    ensures { result ≡ Outcome.Commit (Some first ∷ Some second ∷ []) }
{
    let mut writes = Writes::empty();
    writes.add(Some(first));
    writes.add(Some(second));
    Outcome::Commit(writes)
}

// The first transaction of block 1 was agreed with another outcome than it came to.
fn split() -> Split
    ensures writes { result.writes ≡ 0 ∷ 1 ∷ [] }
    ensures ran { result.ran ≡ Outcome.Commit (Some 6 ∷ Some 4 ∷ []) }
    ensures voted { result.voted ≡ Outcome.Commit (Some 0 ∷ Some 10 ∷ []) }
{
    let mut writes = Recs::empty();
    writes.add(0);
    writes.add(1);
    Split {
        n: 1,
        t: 0,
        writes,
        ran: commit(6, 4),
        voted: commit(0, 10),
    }
}

#[test]
fn halts_are_told(rt: HostRuntime) -> Result<(), Fail> {
    let alloc = rt.alloc();
    let mut text = Text::new(alloc);
    let table = table(alloc)?;
    let values = values(alloc)?;
    let ledger = Ledger::new(alloc);
    peer_part(
        alloc,
        &mut text,
        &table,
        0,
        &ledger,
        &values,
        Some(&split()),
    )?;
    peer_part(alloc, &mut text, &table, 1, &ledger, &values, None)?;
    assert_eq!(rt;
        text.as_slice(),
        b"peer p1 completed 0\nstate 1\nvalue a 10\nhalted 1 1 ran commit a=6 b=4 voted commit a=0 b=10\npeer p4 completed 0\nstate 1\nvalue a 10\n".as_slice()
    );
    Ok(())
}

#[test]
fn what_stands_around_is_told(rt: HostRuntime) -> Result<(), Fail> {
    let alloc = rt.alloc();
    let mut text = Text::new(alloc);
    let mut rejected = Rejects::new(alloc);
    rejected.push(Rejected {
        item: 1,
        why: Reject::UnknownApp,
    })?;
    head(alloc, &mut text, &rejected, 1)?;
    tail(alloc, &mut text, 4, 0)?;
    assert_eq!(rt;
        text.as_slice(),
        b"rejected 2 unknown_app\nblocks 1\nmessages 4\nidle 0\n".as_slice()
    );
    Ok(())
}

#[test]
fn who_said_two_things_is_told(rt: HostRuntime) -> Result<(), Fail> {
    let alloc = rt.alloc();
    let mut text = Text::new(alloc);
    let mut table = table(alloc)?;
    let first = Name::new(b"o1").ok_or("no name")?;
    let second = Name::new(b"o3").ok_or("no name")?;
    table.orderers = two_names(alloc, first, second)?;
    let mut orderers = OrdererMarks::new(alloc);
    orderers.put(OrdererMark { orderer: 1, n: 12 })?;
    let mut agents = AgentMarks::new(alloc);
    agents.put(AgentMark {
        agent: 1,
        n: 7,
        t: 199,
    })?;
    agents.put(AgentMark {
        agent: 0,
        n: 1,
        t: 0,
    })?;
    let evidence = Evidence {
        orderers: &orderers,
        agents: &agents,
    };
    evidence_part(alloc, &mut text, &table, 1, &evidence)?;
    assert_eq!(rt;
        text.as_slice(),
        b"evidence p4 orderer o3 12\nevidence p4 agent p1 1 1\nevidence p4 agent p4 7 200\n".as_slice()
    );
    Ok(())
}
