//! The bank with the 18 records `a` to `r` and two peers, whose one operation does nothing.

ghost use Rattle.std.specs.Prelude.{◌≡◌, ◌+◌, ◌≤◌, [], ◌∷◌, codes, map, IfOk};
ghost use Rattle.std.specs.List.{range_with_len};
ghost use Rattle.txn_types.specs.Names.{IsName};
ghost use Rattle.oxii_defs.specs.Syntax.{Done};
ghost use Rattle.oxii_defs.specs.Lawful.{IsLawfulTable};
ghost use Rattle.oxii_defs.specs.Transfers.{transfer_op, bank};
ghost use Rattle.txn_core.specs.Meant.{op_of, formal_of};
ghost use Rattle.txn_core.specs.MeantTable.{app_of, table_of};

use std::alloc::Global;
use txn_core::{App, Apps, Op, Ops, Param, ParamKind, Params, Stmts, Table};
use txn_types::{Kind, Name, Names, OutOfMemory, PeerSet};

fn name(bytes: &[u8]) -> Name
    requires { IsName bytes.now }
    ensures { result ≡ bytes.now }
{
    Name::new(bytes).unwrap()
}

fn only(alloc: Global, bytes: &[u8]) -> Result<Names, OutOfMemory>
    requires { IsName bytes.now }
    ensures { IfOk result (λ names. names ≡ bytes.now ∷ []) }
{
    let mut names = Names::new(alloc);
    names.push(name(bytes))?;
    Ok(names)
}

fn letters(alloc: Global) -> Result<Names, OutOfMemory>
    ensures { IfOk result (λ names. names ≡ map (λ k. k ∷ []) (range_with_len 97 18)) }
{
    let mut names = Names::new(alloc);
    for i in 0..18u8 {
        names.push(name(&[b'a' + i]))?;
    }
    Ok(names)
}

fn param(bytes: &[u8], kind: ParamKind) -> Param
    requires { IsName bytes.now }
    ensures { result ≡ record { name = bytes.now; kind = kind } }
{
    Param {
        name: name(bytes),
        kind,
    }
}

fn params(alloc: Global) -> Result<Params, OutOfMemory>
    ensures { IfOk result (λ params. map formal_of params ≡ transfer_op.params) }
{
    let mut params = Params::new(alloc);
    params.push(param(b"from", ParamKind::Rec))?;
    params.push(param(b"to", ParamKind::Rec))?;
    params.push(param(b"n", ParamKind::Num))?;
    Ok(params)
}

fn op(alloc: Global) -> Result<Op, OutOfMemory>
    ensures { IfOk result (λ op. op_of op ≡ record transfer_op { body = Done }) }
{
    Ok(Op {
        name: name(b"transfer"),
        params: params(alloc)?,
        body: Stmts::new(alloc),
    })
}

fn ops(alloc: Global) -> Result<Ops, OutOfMemory>
    ensures { IfOk result (λ ops. map op_of ops ≡ record transfer_op { body = Done } ∷ []) }
{
    let mut ops = Ops::new(alloc);
    ops.push(op(alloc)?)?;
    Ok(ops)
}

fn first_peer() -> PeerSet
    ensures { result ≡ 0 ∷ [] }
{
    let mut peers = PeerSet::empty();
    peers.add(0);
    peers
}

fn app(alloc: Global) -> Result<App, OutOfMemory>
    ensures { IfOk result (λ app. app_of app ≡ record bank { ops = record transfer_op { body = Done } ∷ [] }) }
{
    Ok(App {
        name: name(b"bank"),
        agents: first_peer(),
        tau: 1,
        clients: only(alloc, b"c1")?,
        ops: ops(alloc)?,
    })
}

fn apps(alloc: Global) -> Result<Apps, OutOfMemory>
    ensures { IfOk result (λ apps. map app_of apps ≡ record bank { ops = record transfer_op { body = Done } ∷ [] } ∷ []) }
{
    let mut apps = Apps::new(alloc);
    apps.push(app(alloc)?)?;
    Ok(apps)
}

fn peers(alloc: Global) -> Result<Names, OutOfMemory>
    ensures { IfOk result (λ names. names ≡ codes "p1" ∷ codes "p2" ∷ []) }
{
    let mut names = only(alloc, b"p1")?;
    names.push(name(b"p2"))?;
    Ok(names)
}

/// The table.
pub fn stream_table(alloc: Global) -> Result<Table, OutOfMemory>
    ensures { IfOk result (λ table. IsLawfulTable (table_of table)) }
{
    Ok(Table {
        kind: Kind::Full,
        records: letters(alloc)?,
        orderers: only(alloc, b"o1")?,
        quorum: 1,
        peers: peers(alloc)?,
        apps: apps(alloc)?,
    })
}
