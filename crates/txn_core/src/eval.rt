// The evaluator.

ghost use Rattle.std.specs.Prelude.{◌≡◌, ◌<◌, ◌≤◌, ◌+◌, ◌*◌, length, slice_get, OnOk};
ghost use Rattle.std.specs.FinMap as map;
ghost use Rattle.oxii_defs.specs.Calls.{number_arg, record_arg};
ghost use Rattle.oxii_defs.specs.Meaning.{compared};
ghost use Rattle.oxii_defs.specs.Running.{bounded, calc, read, scoped, turns, value_of, truth_of, after, after_all};
ghost use Rattle.txn_core.specs.Meant.{operator_of, comparison_of, expr_of, cond_of, stmt_of, stmts_of};
ghost use Rattle.txn_core.specs.MeantCalls.{given, GivesFrame};
ghost use Rattle.txn_core.specs.Slots.{HasSlots, AllHaveSlots, depth_after};

use crate::scratch::place_of;
use crate::{Calc, Cmp, Cond, Expr, Scratch, Stmt};
use txn_types::{Arg, MAX, Reason};

/// What a call is given: its arguments, and what it may read.
#[derive(Clone, Copy)]
pub struct Given<'a> {
    pub args: &'a [Arg],
    pub reads: &'a [u16],
    pub inputs: &'a [u64],
}

fn calculate(op: Calc, x: u64, y: u64) -> Result<u64, Reason>
    ensures { result ≡ calc (operator_of op) x y }
{
    match op {
        Calc::Add => sum(x, y),
        Calc::Sub => x.checked_sub(y).ok_or(Reason::Underflow),
        Calc::Mul => product(x, y),
        Calc::Div => x.checked_div(y).ok_or(Reason::ZeroDivisor),
        Calc::Rem => x.checked_rem(y).ok_or(Reason::ZeroDivisor),
    }
}

fn sum(x: u64, y: u64) -> Result<u64, Reason>
    ensures { result ≡ bounded (x + y) }
{
    match x.checked_add(y) {
        Some(sum) if sum <= MAX => Ok(sum),
        _ => Err(Reason::Overflow),
    }
}

fn product(x: u64, y: u64) -> Result<u64, Reason>
    ensures { result ≡ bounded (x * y) }
{
    match x.checked_mul(y) {
        Some(product) if product <= MAX => Ok(product),
        _ => Err(Reason::Overflow),
    }
}

fn compare(op: Cmp, x: u64, y: u64) -> bool
    ensures { result ≡ compared (comparison_of op) x y }
{
    match op {
        Cmp::Eq => x == y,
        Cmp::Ne => x != y,
        Cmp::Lt => x < y,
        Cmp::Le => x <= y,
        Cmp::Gt => x > y,
        Cmp::Ge => x >= y,
    }
}

fn number(call: &Given<'_>, param: u8) -> u64
    ensures { result ≡ number_arg (slice_get call.now.args.now param) }
{
    match call.args.get(param as usize) {
        Some(Arg::Num(n)) => *n,
        _ => 0,
    }
}

fn record(call: &Given<'_>, param: u8) -> u16
    ensures { result ≡ record_arg (slice_get call.now.args.now param) }
{
    match call.args.get(param as usize) {
        Some(Arg::Rec(r)) => *r,
        _ => 0,
    }
}

fn read(call: &Given<'_>, scratch: &Scratch, id: u16) -> Result<u64, Reason>
    requires { length call.now.reads.now ≤ length call.now.inputs.now }
    ensures { result ≡ read (given call.now.args.now call.now.reads.now call.now.inputs.now) id (map.get scratch.now.written id) }
{
    if let Some(value) = scratch.written(id) {
        return Ok(value);
    }
    match place_of(call.reads, id) {
        Some(at) => Ok(call.inputs[at]),
        None => Err(Reason::Undeclared),
    }
}

#[tactic(auto, using(crate::specs::Forms::exprs))]
fn value(call: &Given<'_>, scratch: &Scratch, e: &Expr) -> Result<u64, Reason>
    requires { length call.now.reads.now ≤ length call.now.inputs.now }
    ensures { result ≡ value_of (given call.now.args.now call.now.reads.now call.now.inputs.now) scratch.now (expr_of e.now) }
{
    match e {
        Expr::Num(n) => Ok(*n),
        Expr::Param(param) => Ok(number(call, *param)),
        Expr::Local(slot) => Ok(scratch.local(*slot)),
        Expr::Rec(param) => read(call, scratch, record(call, *param)),
        Expr::Calc(op, a, b) => {
            let x = value(call, scratch, a.get())?;
            let y = value(call, scratch, b.get())?;
            calculate(*op, x, y)
        }
    }
}

#[tactic(auto, using(crate::specs::Forms::conds))]
fn truth(call: &Given<'_>, scratch: &Scratch, test: &Cond) -> Result<bool, Reason>
    requires { length call.now.reads.now ≤ length call.now.inputs.now }
    ensures { result ≡ truth_of (given call.now.args.now call.now.reads.now call.now.inputs.now) scratch.now (cond_of test.now) }
{
    match test {
        Cond::Cmp(op, a, b) => {
            let x = value(call, scratch, a)?;
            let y = value(call, scratch, b)?;
            Ok(compare(*op, x, y))
        }
        Cond::And(a, b) => Ok(truth(call, scratch, a.get())? && truth(call, scratch, b.get())?),
        Cond::Or(a, b) => Ok(truth(call, scratch, a.get())? || truth(call, scratch, b.get())?),
        Cond::Not(a) => Ok(!truth(call, scratch, a.get())?),
    }
}

/// What one statement does; after an `Err` the scratch is of no use.
#[cycle(statements)]
#[tactic(auto, using(crate::specs::Forms::stmts, crate::specs::Forms::slots))]
fn run_statement(call: &Given<'_>, scratch: &mut Scratch, stmt: &Stmt) -> Result<(), Reason>
    requires inputs { length call.now.reads.now ≤ length call.now.inputs.now }
    requires slots { HasSlots (length scratch.old.locals) (stmt_of stmt.now) }
    ensures meaning { GivesFrame result (after (given call.now.args.now call.now.reads.now call.now.inputs.now) (stmt_of stmt.now) scratch.old) scratch.new }
    ensures depth { OnOk result (length scratch.new.locals ≡ depth_after (length scratch.old.locals) (stmt_of stmt.now)) }
{
    match stmt {
        Stmt::Let {
            slot: _,
            name: _,
            value: e,
        } => {
            let v = value(call, scratch, e)?;
            scratch.push_local(v);
            Ok(())
        }
        Stmt::SetLocal { slot, value: e } => {
            let v = value(call, scratch, e)?;
            scratch.set_local(*slot, v);
            Ok(())
        }
        Stmt::SetRec { param, value: e } => {
            let v = value(call, scratch, e)?;
            scratch.write(record(call, *param), v)
        }
        Stmt::Require(test) => {
            if truth(call, scratch, test)? {
                Ok(())
            } else {
                Err(Reason::Require)
            }
        }
        Stmt::If { cond, yes, no } => {
            if truth(call, scratch, cond)? {
                block(call, scratch, yes.as_slice())
            } else {
                block(call, scratch, no.as_slice())
            }
        }
        Stmt::Repeat { count, body } => repeat(call, scratch, *count, body.as_slice()),
    }
}

#[cycle(statements)]
#[tactic(auto, using(crate::proofs::RunLemmas::turns_next))]
fn repeat(call: &Given<'_>, scratch: &mut Scratch, count: u8, body: &[Stmt]) -> Result<(), Reason>
    requires inputs { length call.now.reads.now ≤ length call.now.inputs.now }
    requires slots { AllHaveSlots (length scratch.old.locals) (stmts_of body.now) }
    ensures meaning { GivesFrame result (turns count (scoped (after_all (given call.now.args.now call.now.reads.now call.now.inputs.now) (stmts_of body.now))) scratch.old) scratch.new }
    ensures depth { OnOk result (length scratch.new.locals ≡ length scratch.old.locals) }
{
    for _turn in 0..count {
        block(call, scratch, body)?;
    }
    Ok(())
}

/// A block, whose locals are gone at its end.
#[cycle(statements)]
fn block(call: &Given<'_>, scratch: &mut Scratch, body: &[Stmt]) -> Result<(), Reason>
    requires inputs { length call.now.reads.now ≤ length call.now.inputs.now }
    requires slots { AllHaveSlots (length scratch.old.locals) (stmts_of body.now) }
    ensures meaning { GivesFrame result (scoped (after_all (given call.now.args.now call.now.reads.now call.now.inputs.now) (stmts_of body.now)) scratch.old) scratch.new }
    ensures depth { OnOk result (length scratch.new.locals ≡ length scratch.old.locals) }
{
    let depth = scratch.depth();
    run(call, scratch, body)?;
    scratch.leave(depth);
    Ok(())
}

#[cycle(statements)]
#[tactic(auto, using(crate::proofs::RunLemmas::all_stop))]
pub fn run(call: &Given<'_>, scratch: &mut Scratch, body: &[Stmt]) -> Result<(), Reason>
    requires inputs { length call.now.reads.now ≤ length call.now.inputs.now }
    requires slots { AllHaveSlots (length scratch.old.locals) (stmts_of body.now) }
    ensures meaning { GivesFrame result (after_all (given call.now.args.now call.now.reads.now call.now.inputs.now) (stmts_of body.now) scratch.old) scratch.new }
    ensures depth { OnOk result (length scratch.old.locals ≤ length scratch.new.locals) }
{
    for stmt in body {
        run_statement(call, scratch, stmt)?;
    }
    Ok(())
}
