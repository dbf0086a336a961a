//! Statements and blocks, typed.

ghost use Rattle.std.specs.Prelude.{◌≡◌, ◌≤◌, ◌++◌, IfOk, OnOk, length, map, take};
ghost use Rattle.contract_grammar.specs.Held.{tree, statement, statements};
ghost use Rattle.txn_core.specs.Meant.{expr_of, cond_of, stmt_of};
ghost use Rattle.contract_text.specs.Symbols.{symbol_of, is_found, made_by, made};
ghost use Rattle.contract_text.specs.Flaws.{noted, double_flaws, target_flaws, stmt_flaws, all_flaws};
ghost use Rattle.contract_text.specs.Typed.{assigned, typed_stmt, typed_all};
ghost use Rattle.contract_text.specs.Room.{HasRoom, AllHaveRoom};

use crate::expressions::{typed_cond, typed_expr};
use crate::finding::find;
use crate::flaws::{Flaw, FlawKind, ValueKind, note};
use crate::symbols::{Symbol, symbol_of};
use contract_grammar::{Param, Stmt as RawStmt, Stmts as RawStmts};
use sqlite_items::Items;
use std::alloc::Global;
use txn_core::{Expr, Stmt, Stmts};
use txn_types::{Name, Names, OutOfMemory};

/// Notes a name that is taken.
pub fn note_double(first: &mut Option<Flaw>, at: u32, is_taken: bool)
    ensures { first.new ≡ noted first.old (double_flaws is_taken at) }
{
    if is_taken {
        note(first, at, FlawKind::Double);
    }
}

/// Notes a name left of `=` that isn't known, or whose value can't change.
fn note_target(first: &mut Option<Flaw>, at: u32, target: Option<Symbol>)
    ensures { first.new ≡ noted first.old (target_flaws target at) }
{
    match target {
        None => note(first, at, FlawKind::UnknownName),
        Some(Symbol::Num(_)) => note(first, at, FlawKind::Kind),
        Some(Symbol::Rec(_)) | Some(Symbol::Local(_)) => {}
    }
}

/// An assignment; one with a flaw stands for one to the first local.
#[tactic(auto, using(crate::proofs::Forms::statements))]
fn assigned(target: Option<Symbol>, value: Expr) -> Stmt
    ensures { stmt_of result ≡ assigned target (expr_of value) }
{
    match target {
        Some(Symbol::Rec(param)) => Stmt::SetRec { param, value },
        Some(Symbol::Local(slot)) => Stmt::SetLocal { slot, value },
        Some(Symbol::Num(_)) | None => Stmt::SetLocal { slot: 0, value },
    }
}

/// Takes out the names after so many.
fn shrink(names: &mut Names, count: usize)
    requires { count ≤ length names.old }
    ensures { names.new ≡ take count names.old }
{
    while names.len() > count {
        names.pop();
    }
}

/// A statement; its first flaw is noted, and the local that it makes is put after those that are visible.
#[cycle(blocks)]
#[tactic(auto, using(crate::proofs::Forms::statements, crate::proofs::Noted::noted_both))]
fn typed_stmt(
    alloc: Global,
    params: &[Param],
    locals: &mut Names,
    first: &mut Option<Flaw>,
    stmt: &RawStmt,
) -> Result<Stmt, OutOfMemory>
    requires params { length params.now ≤ 16 }
    requires room { HasRoom locals.old (statement stmt.now) }
    ensures typed { IfOk result (λ typed. stmt_of typed ≡ typed_stmt params.now locals.old (statement stmt.now)) }
    ensures flaws { OnOk result (first.new ≡ noted first.old (stmt_flaws params.now locals.old (statement stmt.now))) }
    ensures locals { OnOk result (locals.new ≡ locals.old ++ made_by (statement stmt.now)) }
{
    match stmt {
        RawStmt::Let(at, name, e) => {
            let taken = symbol_of(params, locals.as_slice(), name).is_some();
            note_double(first, *at, taken);
            find(params, locals.as_slice(), ValueKind::Number, e, first);
            let value = typed_expr(alloc, params, locals.as_slice(), e)?;
            let slot = locals.len() as u8;
            locals.push(name.copy())?;
            Ok(Stmt::Let {
                slot,
                name: name.copy(),
                value,
            })
        }
        RawStmt::Assign(at, name, e) => {
            let target = symbol_of(params, locals.as_slice(), name);
            note_target(first, *at, target);
            find(params, locals.as_slice(), ValueKind::Number, e, first);
            let value = typed_expr(alloc, params, locals.as_slice(), e)?;
            Ok(assigned(target, value))
        }
        RawStmt::Require(e) => {
            find(params, locals.as_slice(), ValueKind::Truth, e, first);
            Ok(Stmt::Require(typed_cond(alloc, params, locals.as_slice(), e)?))
        }
        RawStmt::If(e, yes, no) => {
            find(params, locals.as_slice(), ValueKind::Truth, e, first);
            let cond = typed_cond(alloc, params, locals.as_slice(), e)?;
            let yes = typed_block(alloc, params, locals, first, yes)?;
            let no = typed_block(alloc, params, locals, first, no)?;
            Ok(Stmt::If { cond, yes, no })
        }
        RawStmt::Repeat(count, body) => {
            let body = typed_block(alloc, params, locals, first, body)?;
            Ok(Stmt::Repeat {
                count: *count as u8,
                body,
            })
        }
    }
}

/// The statements of a block, whose locals end with it; the first flaw is noted.
#[cycle(blocks)]
pub fn typed_block(
    alloc: Global,
    params: &[Param],
    locals: &mut Names,
    first: &mut Option<Flaw>,
    body: &RawStmts,
) -> Result<Stmts, OutOfMemory>
    requires params { length params.now ≤ 16 }
    requires room { AllHaveRoom locals.old (statements body.now) }
    ensures typed { IfOk result (λ typed. map stmt_of typed ≡ typed_all params.now locals.old (statements body.now)) }
    ensures flaws { OnOk result (first.new ≡ noted first.old (all_flaws params.now locals.old (statements body.now))) }
    ensures locals { OnOk result (locals.new ≡ locals.old) }
{
    let count = locals.len();
    let typed = typed_all(alloc, params, locals, first, body)?;
    shrink(locals, count);
    Ok(typed)
}

/// The statements of a block; the first flaw is noted, and the locals that they make are put after those that are visible.
#[cycle(blocks)]
#[tactic(auto, using(crate::proofs::Noted::noted_both))]
fn typed_all(
    alloc: Global,
    params: &[Param],
    locals: &mut Names,
    first: &mut Option<Flaw>,
    body: &RawStmts,
) -> Result<Stmts, OutOfMemory>
    requires params { length params.now ≤ 16 }
    requires room { AllHaveRoom locals.old (statements body.now) }
    ensures typed { IfOk result (λ typed. map stmt_of typed ≡ typed_all params.now locals.old (statements body.now)) }
    ensures flaws { OnOk result (first.new ≡ noted first.old (all_flaws params.now locals.old (statements body.now))) }
    ensures locals { OnOk result (locals.new ≡ locals.old ++ made (statements body.now)) }
{
    match body {
        RawStmts::Empty => Ok(Items::new(alloc)),
        RawStmts::Then(before, last) => {
            let mut typed = typed_all(alloc, params, locals, first, before)?;
            let last = typed_stmt(alloc, params, locals, first, last)?;
            typed.push(last)?;
            Ok(typed)
        }
    }
}
