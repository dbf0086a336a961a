//! Expressions, with the fewest parentheses.

ghost use Rattle.std.specs.Prelude.{◌≡◌, ◌≤◌, OnOk, map};
ghost use Rattle.contract_grammar.specs.Grammar.{level, left_level};
ghost use Rattle.txn_core.specs.Meant.{operator_of, comparison_of, formal_of, expr_of, cond_of};
ghost use Rattle.contract_printer.specs.Plain.{plain_operator, plain_comparison, param_name, local_name, plain_expr, plain_cond};
ghost use Rattle.contract_printer.specs.Printed.{printed};
ghost use Rattle.contract_printer.specs.SpacedTexts.{put_all};

use crate::spaced_text::SpacedText;
use contract_grammar::Operator;
use txn_core::{Calc, Cmp, Cond, Expr, Param};
use txn_types::{Name, OutOfMemory};

fn calculation(op: Calc) -> Operator
    ensures { result ≡ plain_operator (operator_of op) }
{
    match op {
        Calc::Add => Operator::Plus,
        Calc::Sub => Operator::Minus,
        Calc::Mul => Operator::Times,
        Calc::Div => Operator::Divide,
        Calc::Rem => Operator::Remainder,
    }
}

fn comparison(op: Cmp) -> Operator
    ensures { result ≡ plain_comparison (comparison_of op) }
{
    match op {
        Cmp::Eq => Operator::Equal,
        Cmp::Ne => Operator::NotEqual,
        Cmp::Lt => Operator::Less,
        Cmp::Le => Operator::LessEqual,
        Cmp::Gt => Operator::Greater,
        Cmp::Ge => Operator::GreaterEqual,
    }
}

/// How tightly a calculation binds.
fn level(op: Calc) -> u8
    ensures level { result ≡ level (plain_operator (operator_of op)) }
    ensures left { result ≡ left_level (plain_operator (operator_of op)) }
    ensures bound { result ≤ 5 }
{
    match op {
        Calc::Add | Calc::Sub => 4,
        Calc::Mul | Calc::Div | Calc::Rem => 5,
    }
}

/// The name of the parameter at a position.
pub fn param_name<'a>(params: &'a [Param], place: u8) -> &'a [u8]
    ensures { result.now ≡ param_name (map formal_of params.now) place }
{
    match params.get(place as usize) {
        Some(param) => param.name.as_slice(),
        None => b"",
    }
}

/// The name of the visible local of a slot.
pub fn local_name<'a>(locals: &'a [Name], slot: u8) -> &'a [u8]
    ensures { result.now ≡ local_name locals.now slot }
{
    match locals.get(slot as usize) {
        Some(name) => name.as_slice(),
        None => b"",
    }
}

/// Writes a number where this level is expected.
#[tactic(auto, using(crate::proofs::Forms::exprs))]
pub fn put_expr(
    out: &mut SpacedText,
    params: &[Param],
    locals: &[Name],
    least: u8,
    e: &Expr,
) -> Result<(), OutOfMemory>
    requires { least ≤ 6 }
    ensures { OnOk result (out.new ≡ put_all out.old (printed least (plain_expr (map formal_of params.now) locals.now (expr_of e.now)))) }
{
    match e {
        Expr::Num(n) => out.put_number(*n),
        Expr::Param(place) => out.put_name(param_name(params, *place)),
        Expr::Local(slot) => out.put_name(local_name(locals, *slot)),
        Expr::Rec(place) => out.put_name(param_name(params, *place)),
        Expr::Calc(op, a, b) => {
            let own = level(*op);
            let is_loose = own < least;
            if is_loose {
                out.open()?;
            }
            put_expr(out, params, locals, own, a.get())?;
            out.put_infix(calculation(*op))?;
            put_expr(out, params, locals, own + 1, b.get())?;
            if is_loose {
                out.close()?;
            }
            Ok(())
        }
    }
}

/// Writes a truth value where this level is expected.
#[tactic(auto, using(crate::proofs::Forms::conds))]
pub fn put_cond(
    out: &mut SpacedText,
    params: &[Param],
    locals: &[Name],
    least: u8,
    test: &Cond,
) -> Result<(), OutOfMemory>
    requires { least ≤ 3 }
    ensures { OnOk result (out.new ≡ put_all out.old (printed least (plain_cond (map formal_of params.now) locals.now (cond_of test.now)))) }
{
    match test {
        Cond::Cmp(op, a, b) => {
            put_expr(out, params, locals, 4, a)?;
            out.put_infix(comparison(*op))?;
            put_expr(out, params, locals, 4, b)
        }
        Cond::And(a, b) => {
            if least > 1 {
                out.open()?;
            }
            put_cond(out, params, locals, 1, a.get())?;
            out.put_infix(Operator::And)?;
            put_cond(out, params, locals, 2, b.get())?;
            if least > 1 {
                out.close()?;
            }
            Ok(())
        }
        Cond::Or(a, b) => {
            if least > 0 {
                out.open()?;
            }
            put_cond(out, params, locals, 0, a.get())?;
            out.put_infix(Operator::Or)?;
            put_cond(out, params, locals, 1, b.get())?;
            if least > 0 {
                out.close()?;
            }
            Ok(())
        }
        Cond::Not(a) => {
            if least > 2 {
                out.open()?;
            }
            out.put_not()?;
            put_cond(out, params, locals, 3, a.get())?;
            if least > 2 {
                out.close()?;
            }
            Ok(())
        }
    }
}
