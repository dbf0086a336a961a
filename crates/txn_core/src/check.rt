// Whether an operation is well formed, and whether arguments match its parameters.

ghost use Rattle.std.specs.Prelude.{◌≡◌, ◌↔◌, ◌*◌, ◌&&◌, nat_lt, nat_le, map, IsTrue, IfOk, OnOk};
ghost use Rattle.oxii_defs.specs.WellFormed.{IsWellFormed, Match};
ghost use Rattle.txn_types.specs.Values.{max_turns};
ghost use Rattle.txn_core.specs.Meant.{op_of, expr_of, cond_of, stmt_of, stmts_of, formal_of, kind_of};
ghost use Rattle.txn_core.specs.Checked.{has_kind, fine_expr, fine_cond, is_new, visible_after, fine, all_fine, all_differ, match_all};
ghost use Rattle.oxii_defs.specs.NameLists.{is_named};

use crate::{Cond, Expr, Op, Param, ParamKind, Stmt};
use std::alloc::Global;
use txn_types::{Arg, Args, MAX, MAX_TURNS, Name, Names, OutOfMemory};

fn is_named(names: &[Name], name: &Name) -> bool
    ensures { result ≡ is_named names.now name.now }
{
    match names {
        [] => false,
        [first, rest @ ..] => first.as_slice() == name.as_slice() || is_named(rest, name),
    }
}

fn is_param(params: &[Param], name: &Name) -> bool
    ensures { result ≡ is_named (map (λ p. p.name) (map formal_of params.now)) name.now }
{
    match params {
        [] => false,
        [first, rest @ ..] => { first.name.as_slice() == name.as_slice() || is_param(rest, name) }
    }
}

fn has_kind(params: &[Param], param: u8, kind: ParamKind) -> bool
    ensures { result ≡ has_kind (map formal_of params.now) param (kind_of kind) }
{
    match params.get(param as usize) {
        Some(param) => param.kind == kind,
        None => false,
    }
}

#[tactic(auto, using(crate::specs::CheckForms::exprs))]
fn fine_expr(params: &[Param], visible: &Names, e: &Expr) -> bool
    ensures { result ≡ fine_expr (map formal_of params.now) visible.now (expr_of e.now) }
{
    match e {
        Expr::Num(n) => *n <= MAX,
        Expr::Param(param) => has_kind(params, *param, ParamKind::Num),
        Expr::Local(slot) => (*slot as usize) < visible.len(),
        Expr::Rec(param) => has_kind(params, *param, ParamKind::Rec),
        Expr::Calc(_, a, b) => {
            fine_expr(params, visible, a.get()) && fine_expr(params, visible, b.get())
        }
    }
}

#[tactic(auto, using(crate::specs::CheckForms::conds))]
fn fine_cond(params: &[Param], visible: &Names, test: &Cond) -> bool
    ensures { result ≡ fine_cond (map formal_of params.now) visible.now (cond_of test.now) }
{
    match test {
        Cond::Cmp(_, a, b) => fine_expr(params, visible, a) && fine_expr(params, visible, b),
        Cond::And(a, b) | Cond::Or(a, b) => {
            fine_cond(params, visible, a.get()) && fine_cond(params, visible, b.get())
        }
        Cond::Not(a) => fine_cond(params, visible, a.get()),
    }
}

fn is_new(params: &[Param], visible: &Names, name: &Name) -> bool
    ensures { result ≡ is_new (map formal_of params.now) visible.now name.now }
{
    !is_param(params, name) && !is_named(visible.as_slice(), name)
}

#[cycle(checks)]
#[tactic(auto, using(crate::specs::CheckForms::stmts))]
fn fine(params: &[Param], turns: u64, visible: &mut Names, stmt: &Stmt) -> Result<bool, OutOfMemory>
    ensures verdict { IfOk result (λ verdict. verdict ≡ fine (map formal_of params.now) turns visible.old (stmt_of stmt.now)) }
    ensures visible { OnOk result (visible.new ≡ visible.old) }
{
    match stmt {
        Stmt::Let { slot, name, value } => Ok(
            *slot as usize == visible.len()
                && *slot < 32
                && is_new(params, visible, name)
                && fine_expr(params, visible, value),
        ),
        Stmt::SetLocal { slot, value } => {
            Ok((*slot as usize) < visible.len() && fine_expr(params, visible, value))
        }
        Stmt::SetRec { param, value } => {
            Ok(has_kind(params, *param, ParamKind::Rec) && fine_expr(params, visible, value))
        }
        Stmt::Require(test) => Ok(fine_cond(params, visible, test)),
        Stmt::If { cond, yes, no } => {
            if !fine_cond(params, visible, cond)
                || !all_fine(params, turns, visible, yes.as_slice())?
            {
                return Ok(false);
            }
            all_fine(params, turns, visible, no.as_slice())
        }
        Stmt::Repeat { count, body } => repeated(params, turns, visible, *count, body.as_slice()),
    }
}

#[cycle(checks)]
fn repeated(
    params: &[Param],
    turns: u64,
    visible: &mut Names,
    count: u8,
    body: &[Stmt],
) -> Result<bool, OutOfMemory>
    ensures verdict { IfOk result (λ verdict. verdict ≡ (nat_lt 0 count && (nat_le count 64 && (nat_le (turns * count) max_turns && all_fine (map formal_of params.now) (turns * count) visible.old (stmts_of body.now))))) }
    ensures visible { OnOk result (visible.new ≡ visible.old) }
{
    if count == 0 || count > 64 {
        return Ok(false);
    }
    match turns.checked_mul(count as u64) {
        Some(turns) if turns <= MAX_TURNS => all_fine(params, turns, visible, body),
        _ => Ok(false),
    }
}

#[cycle(checks)]
#[tactic(auto, using(crate::specs::CheckForms::lists))]
fn all_fine(
    params: &[Param],
    turns: u64,
    visible: &mut Names,
    body: &[Stmt],
) -> Result<bool, OutOfMemory>
    ensures verdict { IfOk result (λ verdict. verdict ≡ all_fine (map formal_of params.now) turns visible.old (stmts_of body.now)) }
    ensures visible { OnOk result (visible.new ≡ visible.old) }
{
    match body {
        [] => Ok(true),
        [first, rest @ ..] => {
            if !fine(params, turns, visible, first)? {
                return Ok(false);
            }
            fine_after(params, turns, visible, first, rest)
        }
    }
}

/// The statements after one, which may have made a local.
#[cycle(checks)]
#[tactic(auto, using(crate::specs::CheckForms::visibles))]
fn fine_after(
    params: &[Param],
    turns: u64,
    visible: &mut Names,
    first: &Stmt,
    rest: &[Stmt],
) -> Result<bool, OutOfMemory>
    ensures verdict { IfOk result (λ verdict. verdict ≡ all_fine (map formal_of params.now) turns (visible_after visible.old (stmt_of first.now)) (stmts_of rest.now)) }
    ensures visible { OnOk result (visible.new ≡ visible.old) }
{
    match first {
        Stmt::Let {
            slot: _,
            name,
            value: _,
        } => {
            visible.push(name.copy())?;
            let verdict = all_fine(params, turns, visible, rest)?;
            visible.pop();
            Ok(verdict)
        }
        Stmt::SetLocal { slot: _, value: _ } => all_fine(params, turns, visible, rest),
        Stmt::SetRec { param: _, value: _ } => all_fine(params, turns, visible, rest),
        Stmt::Require(_) => all_fine(params, turns, visible, rest),
        Stmt::If {
            cond: _,
            yes: _,
            no: _,
        } => all_fine(params, turns, visible, rest),
        Stmt::Repeat { count: _, body: _ } => all_fine(params, turns, visible, rest),
    }
}

fn all_differ(params: &[Param]) -> bool
    ensures { result ≡ all_differ (map (λ p. p.name) (map formal_of params.now)) }
{
    match params {
        [] => true,
        [first, rest @ ..] => !is_param(rest, &first.name) && all_differ(rest),
    }
}

fn match_all(params: &[Param], args: &[Arg]) -> bool
    ensures { result ≡ match_all (map formal_of params.now) args.now }
{
    let [first, params @ ..] = params else {
        return args.is_empty();
    };
    match args {
        [] => false,
        [Arg::Rec(_), args @ ..] => first.kind == ParamKind::Rec && match_all(params, args),
        [Arg::Num(n), args @ ..] => {
            first.kind == ParamKind::Num && *n <= MAX && match_all(params, args)
        }
    }
}

/// Whether an operation is well formed: its names, slots, kinds and counts are as the evaluator needs them.
pub fn is_well_formed(alloc: Global, op: &Op) -> Result<bool, OutOfMemory>
    ensures { IfOk result (λ verdict. IsTrue verdict ↔ IsWellFormed (op_of op.now)) }
{
    let params = op.params.as_slice();
    if params.len() > 16 {
        return Ok(false);
    }
    if !all_differ(params) {
        return Ok(false);
    }
    all_fine(params, 1, &mut Names::new(alloc), op.body.as_slice())
}

/// Whether arguments match the parameters of an operation in number and kind, and no number passes `MAX`.
pub fn takes(op: &Op, args: &Args) -> bool
    ensures { IsTrue result ↔ Match (op_of op.now).params args.now }
{
    match_all(op.params.as_slice(), args.as_slice())
}
