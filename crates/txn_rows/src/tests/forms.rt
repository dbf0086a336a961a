// One small tree for each form, and for each reason to abort.

use super::trees::{Few, args, calc, call, operation, records, set, stmts, values};
use sqlite_items::Boxed;
use std::alloc::Global;
use std::process::Abort;
use std::test::Fail;
use txn_core::*;
use txn_types::*;

const R: u8 = 0;

const S: u8 = 1;

const N: u8 = 2;

/// What r and s come to, where they have 10 and 3 at the start and n is 7; both are read and written.
fn wrote(rt: &impl Abort, alloc: Global, body: Stmts) -> Result<Result<[u64; 2], Reason>, Fail> {
    let params = [
        ("r", ParamKind::Rec),
        ("s", ParamKind::Rec),
        ("n", ParamKind::Num),
    ];
    let op = operation(alloc, &params, body)?;
    let txn = Txn {
        app: 0,
        op: 0,
        args: args(Arg::Rec(0), Some(Arg::Rec(1)), Some(Arg::Num(7))),
        reads: records(Few::Two(0, 1)),
        writes: records(Few::Two(0, 1)),
    };
    let mut state = values(rt, alloc, &[10, 3])?;
    let outcome = call(rt, alloc, &op, &txn, &mut state)?;
    if let Outcome::Abort(reason) = outcome {
        return Ok(Err(reason));
    }
    match state.as_slice() {
        [r, s] => Ok(Ok([*r, *s])),
        _ => Err(Fail::from("two values")),
    }
}

/// What is written to r.
fn value(rt: &impl Abort, alloc: Global, value: Expr) -> Result<Result<u64, Reason>, Fail> {
    let body = stmts(alloc, set(R, value))?;
    Ok(wrote(rt, alloc, body)?.map(|both| both[0]))
}

/// 1 where the condition holds, else 0.
fn truth(rt: &impl Abort, alloc: Global, cond: Cond) -> Result<Result<u64, Reason>, Fail> {
    let yes = stmts(alloc, set(R, Expr::Num(1)))?;
    let no = stmts(alloc, set(R, Expr::Num(0)))?;
    let body = stmts(alloc, Stmt::If { cond, yes, no })?;
    Ok(wrote(rt, alloc, body)?.map(|both| both[0]))
}

fn operator_rows() -> [(Calc, u64, u64, Result<u64, Reason>); 12] {
    [
        (Calc::Add, 7, 2, Ok(9)),
        (Calc::Sub, 7, 2, Ok(5)),
        (Calc::Mul, 7, 2, Ok(14)),
        (Calc::Div, 7, 2, Ok(3)),
        (Calc::Rem, 7, 2, Ok(1)),
        (Calc::Add, MAX - 7, 7, Ok(MAX)),
        (Calc::Add, MAX - 6, 7, Err(Reason::Overflow)),
        (Calc::Mul, 1 << 31, 1 << 31, Err(Reason::Overflow)),
        (Calc::Mul, MAX, MAX, Err(Reason::Overflow)),
        (Calc::Sub, 2, 7, Err(Reason::Underflow)),
        (Calc::Div, 7, 0, Err(Reason::ZeroDivisor)),
        (Calc::Rem, 7, 0, Err(Reason::ZeroDivisor)),
    ]
}

#[test]
fn operators(rt: HostRuntime) -> Result<(), Fail> {
    let alloc = rt.alloc();
    for (i, (op, left, right, wanted)) in operator_rows().into_iter().enumerate() {
        let tree = calc(alloc, op, Expr::Num(left), Expr::Num(right))?;
        assert_eq!(rt; value(&rt, alloc, tree)?, wanted, "row {i}");
    }
    Ok(())
}

/// An expression that stops: below 0, or by no divisor.
fn stopping(alloc: Global, below: bool) -> Result<Expr, Fail> {
    if below {
        calc(alloc, Calc::Sub, Expr::Num(0), Expr::Num(1))
    } else {
        calc(alloc, Calc::Div, Expr::Num(1), Expr::Num(0))
    }
}

#[test]
fn operands(rt: HostRuntime) -> Result<(), Fail> {
    let alloc = rt.alloc();
    assert_eq!(rt; value(&rt, alloc, Expr::Param(N))?, Ok(7));
    assert_eq!(rt; value(&rt, alloc, Expr::Rec(S))?, Ok(3));
    for (below, wanted) in [(true, Reason::Underflow), (false, Reason::ZeroDivisor)] {
        let left = stopping(alloc, below)?;
        let right = stopping(alloc, !below)?;
        let tree = calc(alloc, Calc::Add, left, right)?;
        assert_eq!(rt;
            value(&rt, alloc, tree)?,
            Err(wanted),
            "the left operand first"
        );
    }
    Ok(())
}

fn comparison_rows() -> [(Cmp, u64, u64, u64); 6] {
    [
        (Cmp::Eq, 1, 0, 0),
        (Cmp::Ne, 0, 1, 1),
        (Cmp::Lt, 0, 0, 1),
        (Cmp::Le, 1, 0, 1),
        (Cmp::Gt, 0, 1, 0),
        (Cmp::Ge, 1, 1, 0),
    ]
}

#[test]
fn comparisons(rt: HostRuntime) -> Result<(), Fail> {
    let alloc = rt.alloc();
    for (op, equal, above, below) in comparison_rows() {
        for (left, wanted) in [(7, equal), (8, above), (6, below)] {
            let tree = Cond::Cmp(op, Expr::Num(left), Expr::Num(7));
            assert_eq!(rt; truth(&rt, alloc, tree)?, Ok(wanted), "{op:?} at {left}");
        }
    }
    Ok(())
}

/// What holds or not, or stops.
fn side(alloc: Global, holds: Option<bool>) -> Result<Boxed<Cond>, Fail> {
    let left = match holds {
        Some(true) => Expr::Num(0),
        Some(false) => Expr::Num(1),
        None => stopping(alloc, false)?,
    };
    Ok(Boxed::new(alloc, Cond::Cmp(Cmp::Eq, left, Expr::Num(0)))?)
}

fn junction_rows() -> [(bool, bool, Option<bool>, Result<u64, Reason>); 8] {
    [
        (true, true, Some(true), Ok(1)),
        (true, true, Some(false), Ok(0)),
        (true, false, None, Ok(0)),
        (true, true, None, Err(Reason::ZeroDivisor)),
        (false, false, Some(true), Ok(1)),
        (false, false, Some(false), Ok(0)),
        (false, true, None, Ok(1)),
        (false, false, None, Err(Reason::ZeroDivisor)),
    ]
}

#[test]
fn junctions(rt: HostRuntime) -> Result<(), Fail> {
    let alloc = rt.alloc();
    for (i, (both, left, right, wanted)) in junction_rows().into_iter().enumerate() {
        let left = side(alloc, Some(left))?;
        let right = side(alloc, right)?;
        let tree = if both {
            Cond::And(left, right)
        } else {
            Cond::Or(left, right)
        };
        assert_eq!(rt; truth(&rt, alloc, tree)?, wanted, "row {i}");
    }
    let not = Cond::Not(side(alloc, Some(false))?);
    assert_eq!(rt; truth(&rt, alloc, not)?, Ok(1));
    Ok(())
}

fn local(name: &str, slot: u8, value: Expr) -> Result<Stmt, Fail> {
    let name = Name::new(name.as_bytes()).ok_or("name")?;
    Ok(Stmt::Let { slot, name, value })
}

/// `let x=4;x=x+n;r=x;`
fn locals(alloc: Global) -> Result<Stmts, Fail> {
    let mut body = stmts(alloc, local("x", 0, Expr::Num(4))?)?;
    let value = calc(alloc, Calc::Add, Expr::Local(0), Expr::Param(N))?;
    body.push(Stmt::SetLocal { slot: 0, value })?;
    body.push(set(R, Expr::Local(0)))?;
    Ok(body)
}

/// `repeat 3{let x=r;let y=1;r=x+y;}let z=5;s=z;`
fn turns(alloc: Global) -> Result<Stmts, Fail> {
    let mut body = stmts(alloc, local("x", 0, Expr::Rec(R))?)?;
    body.push(local("y", 1, Expr::Num(1))?)?;
    let value = calc(alloc, Calc::Add, Expr::Local(0), Expr::Local(1))?;
    body.push(set(R, value))?;
    let mut all = stmts(alloc, Stmt::Repeat { count: 3, body })?;
    all.push(local("z", 0, Expr::Num(5))?)?;
    all.push(set(S, Expr::Local(0)))?;
    Ok(all)
}

/// `r=1;s=r;require s==1;` or another number.
fn written(alloc: Global, wanted: u64) -> Result<Stmts, Fail> {
    let mut body = stmts(alloc, set(R, Expr::Num(1)))?;
    body.push(set(S, Expr::Rec(R)))?;
    let kept = Cond::Cmp(Cmp::Eq, Expr::Rec(S), Expr::Num(wanted));
    body.push(Stmt::Require(kept))?;
    Ok(body)
}

#[test]
fn statements(rt: HostRuntime) -> Result<(), Fail> {
    let alloc = rt.alloc();
    assert_eq!(rt; wrote(&rt, alloc, Stmts::new(alloc))?, Ok([10, 3]));
    assert_eq!(rt; wrote(&rt, alloc, locals(alloc)?)?, Ok([11, 3]));
    assert_eq!(rt; wrote(&rt, alloc, turns(alloc)?)?, Ok([13, 5]));
    assert_eq!(rt; wrote(&rt, alloc, written(alloc, 1)?)?, Ok([1, 1]));
    assert_eq!(rt;
        wrote(&rt, alloc, written(alloc, 3)?)?,
        Err(Reason::Require)
    );
    Ok(())
}
