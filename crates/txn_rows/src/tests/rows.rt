// Rows of calls, each in the state that those before it leave.

use super::trees::{Few, args, calc, call, operation, records, set, stmts, values};
use Act::*;
use Few::{No, One, Two};
use Step::{Call, End, Start};
use std::alloc::Global;
use std::test::Fail;
use txn_core::*;
use txn_types::*;

const A: u16 = 0;

const B: u16 = 1;

const C: u16 = 2;

/// A call of the stock contract, `op set(r:record,n:number){r=n;}` and so on.
#[derive(Clone, Copy)]
enum Act {
    Set(u16, u64),
    Pay(u16, u16, u64),
    Move(u16, u16),
    Maybe(u16, u64),
    Inc(u16),
    Dec(u16),
    Div(u16, u64),
}

/// The values of a, b and c at the start, a call with its sets and what it writes to its one record, and the values at the end.
#[derive(Clone, Copy)]
enum Step {
    Start([u64; 3]),
    Call(Act, Few, Few, Result<Option<u64>, Reason>),
    End([u64; 3]),
}

const RECORD: (&str, ParamKind) = ("r", ParamKind::Rec);

const FROM: (&str, ParamKind) = ("from", ParamKind::Rec);

const TO: (&str, ParamKind) = ("to", ParamKind::Rec);

const NUMBER: (&str, ParamKind) = ("n", ParamKind::Num);

/// `require from>=n;from=from-n;to=to+n;`
fn pay(alloc: Global) -> Result<Op, Fail> {
    let enough = Cond::Cmp(Cmp::Ge, Expr::Rec(0), Expr::Param(2));
    let mut body = stmts(alloc, Stmt::Require(enough))?;
    let less = calc(alloc, Calc::Sub, Expr::Rec(0), Expr::Param(2))?;
    body.push(set(0, less))?;
    let more = calc(alloc, Calc::Add, Expr::Rec(1), Expr::Param(2))?;
    body.push(set(1, more))?;
    operation(alloc, &[FROM, TO, NUMBER], body)
}

/// `if n>5{r=n;}`
fn maybe(alloc: Global) -> Result<Op, Fail> {
    let cond = Cond::Cmp(Cmp::Gt, Expr::Param(1), Expr::Num(5));
    let yes = stmts(alloc, set(0, Expr::Param(1)))?;
    let no = Stmts::new(alloc);
    let body = stmts(alloc, Stmt::If { cond, yes, no })?;
    operation(alloc, &[RECORD, NUMBER], body)
}

/// `r=r+1;` and so on.
fn changed(alloc: Global, op: Calc, by: Expr, params: &[(&str, ParamKind)]) -> Result<Op, Fail> {
    let value = calc(alloc, op, Expr::Rec(0), by)?;
    let body = stmts(alloc, set(0, value))?;
    operation(alloc, params, body)
}

fn op_of(alloc: Global, act: Act) -> Result<Op, Fail> {
    match act {
        Set(_, _) => operation(
            alloc,
            &[RECORD, NUMBER],
            stmts(alloc, set(0, Expr::Param(1)))?,
        ),
        Pay(_, _, _) => pay(alloc),
        Move(_, _) => operation(alloc, &[FROM, TO], stmts(alloc, set(1, Expr::Rec(0)))?),
        Maybe(_, _) => maybe(alloc),
        Inc(_) => changed(alloc, Calc::Add, Expr::Num(1), &[RECORD]),
        Dec(_) => changed(alloc, Calc::Sub, Expr::Num(1), &[RECORD]),
        Div(_, _) => changed(alloc, Calc::Div, Expr::Param(1), &[RECORD, NUMBER]),
    }
}

fn args_of(act: Act) -> Args {
    match act {
        Set(r, n) | Maybe(r, n) | Div(r, n) => args(Arg::Rec(r), Some(Arg::Num(n)), None),
        Pay(from, to, n) => args(Arg::Rec(from), Some(Arg::Rec(to)), Some(Arg::Num(n))),
        Move(from, to) => args(Arg::Rec(from), Some(Arg::Rec(to)), None),
        Inc(r) | Dec(r) => args(Arg::Rec(r), None, None),
    }
}

fn is(outcome: &Outcome, wanted: Result<Option<u64>, Reason>) -> bool {
    match (outcome, wanted) {
        (Outcome::Commit(entries), Ok(entry)) => entries.as_slice() == [entry].as_slice(),
        (Outcome::Abort(reason), Err(wanted)) => *reason == wanted,
        _ => false,
    }
}

fn steps() -> [Step; 30] {
    [
        Start([1, 0, 0]),
        Call(Set(A, 9), No, One(A), Ok(Some(9))),
        Call(Pay(A, B, 50), Two(A, B), Two(A, B), Err(Reason::Require)),
        Call(Move(A, C), One(A), One(C), Ok(Some(9))),
        End([9, 0, 9]),
        Start([1, 0, 0]),
        Call(Set(A, 4), No, One(A), Ok(Some(4))),
        Call(Set(A, 9), No, One(A), Ok(Some(9))),
        Call(Pay(A, B, 50), Two(A, B), Two(A, B), Err(Reason::Require)),
        Call(Move(A, C), One(A), One(C), Ok(Some(9))),
        End([9, 0, 9]),
        Start([1, 0, 0]),
        Call(Pay(A, B, 50), Two(A, B), Two(A, B), Err(Reason::Require)),
        Call(Move(A, C), One(A), One(C), Ok(Some(1))),
        End([1, 0, 1]),
        Start([7, 0, 0]),
        Call(Pay(A, A, 5), One(A), One(A), Ok(Some(7))),
        Call(Pay(A, A, 8), One(A), One(A), Err(Reason::Require)),
        End([7, 0, 0]),
        Start([3, 0, 0]),
        Call(Maybe(A, 2), No, One(A), Ok(None)),
        Call(Move(A, B), One(A), One(B), Ok(Some(3))),
        End([3, 3, 0]),
        Start([MAX, 0, 0]),
        Call(Inc(A), One(A), One(A), Err(Reason::Overflow)),
        Call(Dec(B), One(B), One(B), Err(Reason::Underflow)),
        Call(Div(B, 0), One(B), One(B), Err(Reason::ZeroDivisor)),
        Call(Move(A, B), No, One(B), Err(Reason::Undeclared)),
        Call(Set(B, 1), No, No, Err(Reason::Undeclared)),
        End([MAX, 0, 0]),
    ]
}

#[test]
fn worked_rows(rt: HostRuntime) -> Result<(), Fail> {
    let alloc = rt.alloc();
    let mut state = Values::new(alloc);
    for (i, step) in steps().into_iter().enumerate() {
        match step {
            Start(numbers) => state = values(&rt, alloc, &numbers)?,
            Call(act, reads, writes, wanted) => {
                let txn = Txn {
                    app: 0,
                    op: 0,
                    args: args_of(act),
                    reads: records(reads),
                    writes: records(writes),
                };
                let outcome = call(&rt, alloc, &op_of(alloc, act)?, &txn, &mut state)?;
                assert!(rt; is(&outcome, wanted), "step {i}");
            }
            End(numbers) => assert_eq!(rt; state.as_slice(), numbers.as_slice(), "step {i}"),
        }
    }
    Ok(())
}
