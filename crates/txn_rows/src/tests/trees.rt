// Trees made by hand, and one call.

ghost use Rattle.std.specs.Prelude.{◌<◌, ◌↔◌, IsTrue, length};
ghost use Rattle.std.specs.List.{All};

use sqlite_items::{Boxed, Items};
use std::alloc::Global;
use std::process::Abort;
use std::test::Fail;
use txn_core::*;
use txn_types::*;

/// No record, one, or two in rising order.
#[derive(Clone, Copy)]
pub enum Few {
    No,
    One(u16),
    Two(u16, u16),
}

pub fn calc(alloc: Global, op: Calc, left: Expr, right: Expr) -> Result<Expr, Fail> {
    let left = Boxed::new(alloc, left)?;
    let right = Boxed::new(alloc, right)?;
    Ok(Expr::Calc(op, left, right))
}

pub fn set(param: u8, value: Expr) -> Stmt {
    Stmt::SetRec { param, value }
}

pub fn stmts(alloc: Global, one: Stmt) -> Result<Stmts, Fail> {
    let mut all = Items::new(alloc);
    all.push(one)?;
    Ok(all)
}

pub fn operation(alloc: Global, params: &[(&str, ParamKind)], body: Stmts) -> Result<Op, Fail> {
    let mut all = Params::new(alloc);
    for (name, kind) in params {
        let name = Name::new(name.as_bytes()).ok_or("name")?;
        all.push(Param { name, kind: *kind })?;
    }
    let name = Name::new(b"op").ok_or("name")?;
    Ok(Op {
        name,
        params: all,
        body,
    })
}

pub fn args(first: Arg, rest: Option<Arg>, last: Option<Arg>) -> Args {
    let mut all = Args::empty();
    all.add(first);
    for arg in [rest, last] {
        if let (Some(arg), true) = (arg, all.as_slice().len() < 16) {
            all.add(arg);
        }
    }
    all
}

pub fn records(few: Few) -> Recs {
    let mut all = Recs::empty();
    match few {
        Few::No => {}
        Few::One(one) => all.add(one),
        Few::Two(one, two) => {
            all.add(one);
            if one < two {
                all.add(two);
            }
        }
    }
    all
}

pub fn values(rt: &impl Abort, alloc: Global, numbers: &[u64]) -> Result<Values, Fail> {
    let mut all = Values::new(alloc);
    for number in numbers {
        assert!(rt; *number <= MAX, "the value {number}");
        all.push(*number)?;
    }
    Ok(all)
}

fn within(numbers: &Recs, values: &Values) -> bool
    ensures { IsTrue result ↔ All (λ r. r < length values.now) numbers.now }
{
    let count = values.as_slice().len();
    numbers.as_slice().iter().all(|r| (*r as usize) < count)
}

/// Runs a call in the state of these values, and puts what it wrote.
pub fn call(
    rt: &impl Abort,
    alloc: Global,
    op: &Op,
    txn: &Txn,
    values: &mut Values,
) -> Result<Outcome, Fail> {
    assert!(rt; is_well_formed(alloc, op)?);
    assert!(rt; takes(op, &txn.args));
    assert!(rt; within(&txn.reads, values));
    assert!(rt; within(&txn.writes, values));
    let inputs = inputs_of(txn, values);
    let outcome = run_txn(op, txn, &inputs, &mut Scratch::new());
    apply_to(values, txn, &outcome);
    Ok(outcome)
}
