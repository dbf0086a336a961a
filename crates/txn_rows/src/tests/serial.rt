// A serial run, and what its gate is told.

ghost use Rattle.std.specs.Prelude.{◌≡◌, ◌≤◌, [], ◌∷◌, map, IfOk};
ghost use Rattle.txn_types.specs.Names.{IsName};
ghost use Rattle.txn_types.specs.Values.{max_value};
ghost use Rattle.txn_core.specs.Meant.{op_of, formal_of};
ghost use Rattle.txn_core.specs.MeantTable.{app_of, table_of};
ghost use Rattle.txn_rows.specs.SetTable.{set_op, set_app, set_table, set_txn};

use super::trees::values;
use std::alloc::Global;
use std::sync::atomic::{AtomicBool, AtomicU64, Ordering};
use std::test::Fail;
use txn_core::*;
use txn_types::*;

/// The block of the run.
const NUMBER: u64 = 7;

/// A gate that counts its calls, and sees whether one comes out of order.
#[derive(Drop)]
struct Counts {
    calls: AtomicU64,
    is_disordered: AtomicBool,
}

impl Counts {
    fn call(&self, n: u64, place: u64) {
        if n != NUMBER || self.calls.fetch_add(1, Ordering::SeqCst) != place {
            self.is_disordered.store(true, Ordering::SeqCst);
        }
    }
}

impl Gate for Counts {
    fn begin(&self, n: u64, t: u16) {
        self.call(n, 2 * t as u64);
    }

    fn end(&self, n: u64, t: u16) {
        self.call(n, 2 * t as u64 + 1);
    }
}

fn name(bytes: &[u8]) -> Name
    requires { IsName bytes.now }
    ensures { result ≡ bytes.now }
{
    Name::new(bytes).unwrap()
}

fn only(alloc: Global, bytes: &[u8]) -> Result<Names, OutOfMemory>
    requires { IsName bytes.now }
    ensures { IfOk result (λ names. names ≡ bytes.now ∷ []) }
{
    let mut names = Names::new(alloc);
    names.push(name(bytes))?;
    Ok(names)
}

fn param(bytes: &[u8], kind: ParamKind) -> Param
    requires { IsName bytes.now }
    ensures { result ≡ record { name = bytes.now; kind = kind } }
{
    Param {
        name: name(bytes),
        kind,
    }
}

fn params(alloc: Global) -> Result<Params, OutOfMemory>
    ensures { IfOk result (λ params. map formal_of params ≡ set_op.params) }
{
    let mut params = Params::new(alloc);
    params.push(param(b"r", ParamKind::Rec))?;
    params.push(param(b"n", ParamKind::Num))?;
    Ok(params)
}

fn body(alloc: Global) -> Result<Stmts, OutOfMemory>
    ensures { IfOk result (λ body. body ≡ Stmt.SetRec 0 (Expr.Param 1) ∷ []) }
{
    let mut body = Stmts::new(alloc);
    body.push(Stmt::SetRec {
        param: 0,
        value: Expr::Param(1),
    })?;
    Ok(body)
}

#[tactic(auto, using(crate::proofs::SetLawful::set_body))]
fn op(alloc: Global) -> Result<Op, OutOfMemory>
    ensures { IfOk result (λ op. op_of op ≡ set_op) }
{
    Ok(Op {
        name: name(b"set"),
        params: params(alloc)?,
        body: body(alloc)?,
    })
}

fn ops(alloc: Global) -> Result<Ops, OutOfMemory>
    ensures { IfOk result (λ ops. map op_of ops ≡ set_op ∷ []) }
{
    let mut ops = Ops::new(alloc);
    ops.push(op(alloc)?)?;
    Ok(ops)
}

fn agents() -> PeerSet
    ensures { result ≡ 0 ∷ [] }
{
    let mut peers = PeerSet::empty();
    peers.add(0);
    peers
}

fn app(alloc: Global) -> Result<App, OutOfMemory>
    ensures { IfOk result (λ app. app_of app ≡ set_app) }
{
    Ok(App {
        name: name(b"stock"),
        agents: agents(),
        tau: 1,
        clients: Names::new(alloc),
        ops: ops(alloc)?,
    })
}

fn apps(alloc: Global) -> Result<Apps, OutOfMemory>
    ensures { IfOk result (λ apps. map app_of apps ≡ set_app ∷ []) }
{
    let mut apps = Apps::new(alloc);
    apps.push(app(alloc)?)?;
    Ok(apps)
}

fn table(alloc: Global) -> Result<Table, OutOfMemory>
    ensures { IfOk result (λ table. table_of table ≡ set_table) }
{
    Ok(Table {
        kind: Kind::Full,
        records: only(alloc, b"a")?,
        orderers: only(alloc, b"o1")?,
        quorum: 1,
        peers: only(alloc, b"p1")?,
        apps: apps(alloc)?,
    })
}

fn set(n: u64) -> Txn
    ensures { result ≡ set_txn n }
{
    let mut args = Args::empty();
    args.add(Arg::Rec(0));
    args.add(Arg::Num(n));
    let mut writes = Recs::empty();
    writes.add(0);
    Txn {
        app: 0,
        op: 0,
        args,
        reads: Recs::empty(),
        writes,
    }
}

fn wrote(n: u64) -> Outcome {
    let mut entries = Writes::empty();
    entries.add(Some(n));
    Outcome::Commit(entries)
}

#[test]
fn serial_runs_tell_their_gate(rt: HostRuntime) -> Result<(), Fail> {
    let alloc = rt.alloc();
    let table = table(alloc)?;
    let mut state = values(&rt, alloc, &[5])?;
    assert_eq!(rt; state.as_slice().len(), 1);
    let gate = Counts {
        calls: AtomicU64::new(0),
        is_disordered: AtomicBool::new(false),
    };
    let txns = [set(1), set(9), set(3)];
    let mut scratch = Scratch::new();
    let outcomes = run_serial(
        alloc,
        &table,
        NUMBER,
        &txns,
        &mut state,
        &mut scratch,
        &gate,
    )?;
    assert!(rt; outcomes.as_slice() == [wrote(1), wrote(9), wrote(3)].as_slice());
    assert_eq!(rt; state.as_slice(), [3].as_slice());
    assert_eq!(rt; gate.calls.load(Ordering::SeqCst), 6);
    assert!(rt; !gate.is_disordered.load(Ordering::SeqCst));
    Ok(())
}
