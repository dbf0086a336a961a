//! The stock contract, read and called, each call in the state that those before it leave.

ghost use Rattle.std.specs.Prelude.{◌<◌, ◌↔◌, IsTrue, length};
ghost use Rattle.std.specs.List.{All};

use super::STOCK;
use Step::{Call, End, Start};
use contract_text::{Contract, read_contract};
use std::alloc::Global;
use std::process::Abort;
use std::test::Fail;
use txn_core::{Scratch, apply_to, inputs_of, is_well_formed, run_txn, takes};
use txn_types::{Arg, Args, MAX, Outcome, Reason, Recs, Txn, Values};

/// The values of a, b and c at the start; a call of an operation by its name, with its sets and what it writes to its one record; and the values at the end.
#[derive(Clone, Copy)]
enum Step {
    Start([u64; 3]),
    Call(&'static str, &'static [Arg], &'static [u16], &'static [u16], Result<Option<u64>, Reason>),
    End([u64; 3]),
}

static STEPS: [Step; 20] = [
    Start([1, 0, 0]),
    Call("set", &[Arg::Rec(0), Arg::Num(9)], &[], &[0], Ok(Some(9))),
    Call(
        "pay",
        &[Arg::Rec(0), Arg::Rec(1), Arg::Num(50)],
        &[0, 1],
        &[0, 1],
        Err(Reason::Require),
    ),
    Call("copy", &[Arg::Rec(0), Arg::Rec(2)], &[0], &[2], Ok(Some(9))),
    End([9, 0, 9]),
    Start([7, 0, 0]),
    Call(
        "pay",
        &[Arg::Rec(0), Arg::Rec(0), Arg::Num(5)],
        &[0],
        &[0],
        Ok(Some(7)),
    ),
    Call(
        "pay",
        &[Arg::Rec(0), Arg::Rec(0), Arg::Num(8)],
        &[0],
        &[0],
        Err(Reason::Require),
    ),
    End([7, 0, 0]),
    Start([3, 0, 0]),
    Call("maybe", &[Arg::Rec(0), Arg::Num(2)], &[], &[0], Ok(None)),
    Call("copy", &[Arg::Rec(0), Arg::Rec(1)], &[0], &[1], Ok(Some(3))),
    End([3, 3, 0]),
    Start([MAX, 0, 0]),
    Call("inc", &[Arg::Rec(0)], &[0], &[0], Err(Reason::Overflow)),
    Call("dec", &[Arg::Rec(1)], &[1], &[1], Err(Reason::Underflow)),
    Call(
        "div",
        &[Arg::Rec(1), Arg::Num(0)],
        &[1],
        &[1],
        Err(Reason::ZeroDivisor),
    ),
    Call(
        "copy",
        &[Arg::Rec(0), Arg::Rec(1)],
        &[],
        &[1],
        Err(Reason::Undeclared),
    ),
    Call(
        "set",
        &[Arg::Rec(1), Arg::Num(1)],
        &[],
        &[],
        Err(Reason::Undeclared),
    ),
    End([MAX, 0, 0]),
];

fn args_of(rows: &[Arg]) -> Args {
    let mut all = Args::empty();
    for arg in rows {
        if all.as_slice().len() < 16 {
            all.add(*arg);
        }
    }
    all
}

/// One record, or two in rising order.
fn records(rows: &[u16]) -> Recs {
    let mut all = Recs::empty();
    match rows {
        [] => {}
        [one] => all.add(*one),
        [one, two, ..] => {
            all.add(*one);
            if *one < *two {
                all.add(*two);
            }
        }
    }
    all
}

fn values(rt: &impl Abort, alloc: Global, numbers: &[u64]) -> Result<Values, Fail> {
    let mut all = Values::new(alloc);
    for number in numbers {
        assert!(rt; *number <= MAX, "the value {number}");
        all.push(*number)?;
    }
    Ok(all)
}

fn within(numbers: &Recs, values: &Values) -> bool
    ensures { IsTrue result ↔ All (λ r. r < length values.now) numbers.now }
{
    let count = values.as_slice().len();
    numbers.as_slice().iter().all(|r| (*r as usize) < count)
}

fn is(outcome: &Outcome, wanted: Result<Option<u64>, Reason>) -> bool {
    match (outcome, wanted) {
        (Outcome::Commit(entries), Ok(entry)) => entries.as_slice() == [entry].as_slice(),
        (Outcome::Abort(reason), Err(wanted)) => *reason == wanted,
        _ => false,
    }
}

fn stock(rt: &impl Abort, alloc: Global) -> Result<Contract, Fail> {
    let text = STOCK;
    assert!(rt; text.len() <= 65536);
    Ok(read_contract(alloc, text)?)
}

/// Runs the operation with this name, and puts what it wrote.
fn call(
    rt: &impl Abort,
    alloc: Global,
    contract: &Contract,
    name: &str,
    txn: &Txn,
    values: &mut Values,
) -> Result<Outcome, Fail> {
    let mut found = None;
    for op in contract.ops.as_slice() {
        if op.name.as_slice() == name.as_bytes() {
            found = Some(op);
        }
    }
    let op = found.ok_or("no such operation")?;
    assert!(rt; is_well_formed(alloc, op)?);
    assert!(rt; takes(op, &txn.args));
    assert!(rt; within(&txn.reads, values));
    assert!(rt; within(&txn.writes, values));
    let inputs = inputs_of(txn, values);
    let outcome = run_txn(op, txn, &inputs, &mut Scratch::new());
    apply_to(values, txn, &outcome);
    Ok(outcome)
}

#[test]
fn worked_rows(rt: HostRuntime) -> Result<(), Fail> {
    let alloc = rt.alloc();
    let contract = stock(&rt, alloc)?;
    let mut state = Values::new(alloc);
    for (i, step) in STEPS.iter().enumerate() {
        match step {
            Start(numbers) => state = values(&rt, alloc, numbers.as_slice())?,
            Call(name, args, reads, writes, wanted) => {
                let txn = Txn {
                    app: 0,
                    op: 0,
                    args: args_of(args),
                    reads: records(reads),
                    writes: records(writes),
                };
                let outcome = call(&rt, alloc, &contract, name, &txn, &mut state)?;
                assert!(rt; is(&outcome, *wanted), "step {i}");
            }
            End(numbers) => assert_eq!(rt; state.as_slice(), numbers.as_slice(), "step {i}"),
        }
    }
    Ok(())
}
