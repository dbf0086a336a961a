// The deepest legal nesting: 32 parentheses, each round two chains of 31 operators, within 32 braces.

use super::trees::{Few, args, calc, call, operation, records, set, stmts, values};
use std::alloc::Global;
use std::test::Fail;
use txn_core::*;
use txn_types::*;

/// `(..)*1*1..+1+1..` 32 times: 31 times `*1` and 31 times `+1` after each parenthesis.
fn parentheses(alloc: Global) -> Result<Expr, Fail> {
    let mut value = Expr::Num(1);
    for i in 0..1984u16 {
        let op = if i % 62 < 31 { Calc::Mul } else { Calc::Add };
        value = calc(alloc, op, value, Expr::Num(1))?;
    }
    Ok(value)
}

/// `if 0==0{repeat 1{..}}` and so on round a body, 32 braces in all.
fn braces(alloc: Global, body: Stmts) -> Result<Stmts, Fail> {
    let mut all = body;
    for _ in 0..16u8 {
        let yes = stmts(
            alloc,
            Stmt::Repeat {
                count: 1,
                body: all,
            },
        )?;
        let cond = Cond::Cmp(Cmp::Eq, Expr::Num(0), Expr::Num(0));
        let no = Stmts::new(alloc);
        all = stmts(alloc, Stmt::If { cond, yes, no })?;
    }
    Ok(all)
}

#[test]
fn deepest(rt: HostRuntime) -> Result<(), Fail> {
    let alloc = rt.alloc();
    let body = stmts(alloc, set(0, parentheses(alloc)?))?;
    let op = operation(alloc, &[("r", ParamKind::Rec)], braces(alloc, body)?)?;
    let txn = Txn {
        app: 0,
        op: 0,
        args: args(Arg::Rec(0), None, None),
        reads: records(Few::No),
        writes: records(Few::One(0)),
    };
    let mut state = values(&rt, alloc, &[0])?;
    call(&rt, alloc, &op, &txn, &mut state)?;
    assert_eq!(rt; state.as_slice(), [993].as_slice());
    Ok(())
}
