//! Statements and blocks.

ghost use Rattle.std.specs.Prelude.{◌≡◌, [], ◌∷◌, ◌++◌, OnOk, map};
ghost use Rattle.contract_grammar.specs.declared.token.Mark.TheVariants.{Semicolon};
ghost use Rattle.contract_grammar.specs.declared.token.Token.TheVariants.{Fixed};
ghost use Rattle.txn_core.specs.Meant.{formal_of, expr_of, stmt_of, stmts_of};
ghost use Rattle.contract_printer.specs.Plain.{plain_expr, visible_after, plain_stmt, plain_all};
ghost use Rattle.contract_printer.specs.Printed.{ended, braced, printed_stmt, printed_all, printed_else};
ghost use Rattle.contract_printer.specs.SpacedTexts.{put_all};

use crate::expressions::{local_name, param_name, put_cond, put_expr};
use crate::spaced_text::SpacedText;
use contract_grammar::Mark;
use txn_core::{Expr, Param, Stmt};
use txn_types::{Name, Names, OutOfMemory};

/// Writes a number and a semicolon.
#[tactic(auto, using(crate::proofs::Forms::put_both))]
fn put_value(
    out: &mut SpacedText,
    params: &[Param],
    locals: &[Name],
    value: &Expr,
) -> Result<(), OutOfMemory>
    ensures { OnOk result (out.new ≡ put_all out.old (ended (plain_expr (map formal_of params.now) locals.now (expr_of value.now)))) }
{
    put_expr(out, params, locals, 0, value)?;
    out.put_mark(Mark::Semicolon)
}

/// Writes a statement.
#[cycle(blocks)]
#[tactic(auto, using(crate::proofs::Forms::stmts))]
fn put_stmt(
    out: &mut SpacedText,
    params: &[Param],
    locals: &mut Names,
    stmt: &Stmt,
) -> Result<(), OutOfMemory>
    ensures written { OnOk result (out.new ≡ put_all out.old (printed_stmt (plain_stmt (map formal_of params.now) locals.old (stmt_of stmt.now)))) }
    ensures locals { OnOk result (locals.new ≡ locals.old) }
{
    match stmt {
        Stmt::Let {
            slot: _,
            name,
            value,
        } => {
            out.put_mark(Mark::WordLet)?;
            out.put_name(name.as_slice())?;
            out.put_mark(Mark::Becomes)?;
            put_value(out, params, locals.as_slice(), value)
        }
        Stmt::SetLocal { slot, value } => {
            out.put_name(local_name(locals.as_slice(), *slot))?;
            out.put_mark(Mark::Becomes)?;
            put_value(out, params, locals.as_slice(), value)
        }
        Stmt::SetRec { param, value } => {
            out.put_name(param_name(params, *param))?;
            out.put_mark(Mark::Becomes)?;
            put_value(out, params, locals.as_slice(), value)
        }
        Stmt::Require(test) => {
            out.put_mark(Mark::WordRequire)?;
            put_cond(out, params, locals.as_slice(), 0, test)?;
            out.put_mark(Mark::Semicolon)
        }
        Stmt::If { cond, yes, no } => {
            out.put_mark(Mark::WordIf)?;
            put_cond(out, params, locals.as_slice(), 0, cond)?;
            put_block(out, params, locals, yes.as_slice())?;
            put_else(out, params, locals, no.as_slice())
        }
        Stmt::Repeat { count, body } => {
            out.put_mark(Mark::WordRepeat)?;
            out.put_number(*count as u64)?;
            put_block(out, params, locals, body.as_slice())
        }
    }
}

/// Writes the second block of an `if`, unless it is empty.
#[cycle(blocks)]
#[tactic(auto, using(crate::proofs::Forms::lists))]
fn put_else(
    out: &mut SpacedText,
    params: &[Param],
    locals: &mut Names,
    body: &[Stmt],
) -> Result<(), OutOfMemory>
    ensures written { OnOk result (out.new ≡ put_all out.old (printed_else (plain_all (map formal_of params.now) locals.old (stmts_of body.now)))) }
    ensures locals { OnOk result (locals.new ≡ locals.old) }
{
    match body {
        [] => Ok(()),
        [_, ..] => {
            out.put_mark(Mark::WordElse)?;
            put_block(out, params, locals, body)
        }
    }
}

/// Writes a block.
#[cycle(blocks)]
#[tactic(auto, using(crate::proofs::Forms::put_both))]
pub fn put_block(
    out: &mut SpacedText,
    params: &[Param],
    locals: &mut Names,
    body: &[Stmt],
) -> Result<(), OutOfMemory>
    ensures written { OnOk result (out.new ≡ put_all out.old (braced (printed_all (plain_all (map formal_of params.now) locals.old (stmts_of body.now))))) }
    ensures locals { OnOk result (locals.new ≡ locals.old) }
{
    out.put_mark(Mark::OpenBlock)?;
    put_stmts(out, params, locals, body)?;
    out.put_mark(Mark::CloseBlock)
}

/// Writes statements.
#[cycle(blocks)]
#[tactic(auto, using(crate::proofs::Forms::lists))]
fn put_stmts(
    out: &mut SpacedText,
    params: &[Param],
    locals: &mut Names,
    body: &[Stmt],
) -> Result<(), OutOfMemory>
    ensures written { OnOk result (out.new ≡ put_all out.old (printed_all (plain_all (map formal_of params.now) locals.old (stmts_of body.now)))) }
    ensures locals { OnOk result (locals.new ≡ locals.old) }
{
    match body {
        [] => Ok(()),
        [first, rest @ ..] => {
            put_stmt(out, params, locals, first)?;
            put_after(out, params, locals, first, rest)
        }
    }
}

/// Writes the statements after one, which may have made a local.
#[cycle(blocks)]
#[tactic(auto, using(crate::proofs::Forms::visibles))]
fn put_after(
    out: &mut SpacedText,
    params: &[Param],
    locals: &mut Names,
    first: &Stmt,
    rest: &[Stmt],
) -> Result<(), OutOfMemory>
    ensures written { OnOk result (out.new ≡ put_all out.old (printed_all (plain_all (map formal_of params.now) (visible_after locals.old (stmt_of first.now)) (stmts_of rest.now)))) }
    ensures locals { OnOk result (locals.new ≡ locals.old) }
{
    match first {
        Stmt::Let {
            slot: _,
            name,
            value: _,
        } => {
            locals.push(name.copy())?;
            put_stmts(out, params, locals, rest)?;
            locals.pop();
            Ok(())
        }
        Stmt::SetLocal { slot: _, value: _ } => put_stmts(out, params, locals, rest),
        Stmt::SetRec { param: _, value: _ } => put_stmts(out, params, locals, rest),
        Stmt::Require(_) => put_stmts(out, params, locals, rest),
        Stmt::If {
            cond: _,
            yes: _,
            no: _,
        } => put_stmts(out, params, locals, rest),
        Stmt::Repeat { count: _, body: _ } => put_stmts(out, params, locals, rest),
    }
}
