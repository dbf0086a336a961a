//! The bytes of a configuration block, and a ledger of two, with ample memory.

ghost use Rattle.std.specs.Prelude.{◌≡◌, [], ◌∷◌, length, Some, IfOk};
ghost use Rattle.txn_core.specs.MeantTable.{table_of};

use hash_ledger::{Ledger, block_bytes, block_hash};
use std::alloc::Global;
use std::test::Fail;
use txn_core::{App, Apps, Ops, Table};
use txn_types::{Block, Config, Kind, Name, Names, OutOfMemory, Outcomes, PeerSet, Txns};

// A table with one application and two peers.
fn table(alloc: Global, app: Name, first: Name, second: Name) -> Result<Table, OutOfMemory>
    ensures peers { IfOk result (λ table. length table.peers ≡ 2) }
    ensures apps { IfOk result (λ table. length (table_of table).apps ≡ 1) }
{
    let mut peers = Names::new(alloc);
    peers.push(first)?;
    peers.push(second)?;
    let mut apps = Apps::new(alloc);
    apps.push(App {
        name: app,
        agents: PeerSet::empty(),
        tau: 1,
        clients: Names::new(alloc),
        ops: Ops::new(alloc),
    })?;
    Ok(Table {
        kind: Kind::Full,
        records: Names::new(alloc),
        orderers: Names::new(alloc),
        quorum: 1,
        peers,
        apps,
    })
}

fn second_peer() -> PeerSet
    ensures { result ≡ 1 ∷ [] }
{
    let mut peers = PeerSet::empty();
    peers.add(1);
    peers
}

fn bank(alloc: Global) -> Result<Table, Fail>
    ensures peers { IfOk result (λ table. length table.peers ≡ 2) }
    ensures apps { IfOk result (λ table. length (table_of table).apps ≡ 1) }
{
    let app = Name::new(b"bank").ok_or("no name")?;
    let first = Name::new(b"p1").ok_or("no name")?;
    let second = Name::new(b"p2").ok_or("no name")?;
    Ok(table(alloc, app, first, second)?)
}

// A block that makes the second peer the only agent.
fn change(alloc: Global, number: u64, prev: [u8; 32]) -> Block
    ensures number { result.number ≡ number }
    ensures prev { result.prev ≡ prev }
    ensures txns { result.txns ≡ [] }
    ensures config { result.config ≡ Some (record { app = 0; agents = 1 ∷ []; tau = 1 }) }
{
    Block {
        number,
        prev,
        txns: Txns::new(alloc),
        config: Some(Config {
            app: 0,
            agents: second_peer(),
            tau: 1,
        }),
    }
}

#[test]
fn blocks_are_linked(rt: HostRuntime) -> Result<(), Fail> {
    let alloc = rt.alloc();
    let table = bank(alloc)?;
    let mut ledger = Ledger::new(alloc);
    assert_eq!(rt; ledger.tip(), [0; 32]);
    let first = change(alloc, 1, ledger.tip());
    let first_hash = block_hash(&table, &first);
    ledger.append(alloc, &table, first, Outcomes::new(alloc))?;
    let second = change(alloc, 2, ledger.tip());
    let second_hash = block_hash(&table, &second);
    ledger.append(alloc, &table, second, Outcomes::new(alloc))?;
    assert_eq!(rt; ledger.len(), 2);
    assert_eq!(rt; ledger.tip(), second_hash);
    assert_eq!(rt; ledger.hash(0), first_hash);
    assert_eq!(rt; ledger.block(1).prev, first_hash);
    assert_eq!(rt; ledger.outcomes(1).len(), 0);
    Ok(())
}

#[test]
fn configurations_have_their_bytes(rt: HostRuntime) -> Result<(), Fail> {
    let alloc = rt.alloc();
    let table = bank(alloc)?;
    let block = change(alloc, 2, [9; 32]);
    let bytes = block_bytes(alloc, &table, &block)?;
    assert_eq!(rt; bytes.len(), 54);
    assert!(rt;
        bytes
            .as_slice()
            .starts_with(b"\0\0\0\0\0\0\0\x02\x09\x09\x09\x09")
    );
    assert!(rt;
        bytes
            .as_slice()
            .ends_with(b"\x09\x09\0\0\0\0\x04bank\x01\x02p2\x01")
    );
    Ok(())
}
