//! Expressions, typed.

ghost use Rattle.std.specs.Prelude.{◌≡◌, ◌≤◌, IfOk, length, option_map};
ghost use Rattle.contract_grammar.specs.Held.{tree};
ghost use Rattle.txn_core.specs.Meant.{operator_of, comparison_of, expr_of, cond_of};
ghost use Rattle.contract_text.specs.Typed.{no_number, no_truth, calculation, comparison, used, typed_expr, typed_cond};

use crate::symbols::{Symbol, symbol_of};
use contract_grammar::{Expr as RawExpr, Operator, Param};
use sqlite_items::Boxed;
use std::alloc::Global;
use txn_core::{Calc, Cmp, Cond, Expr};
use txn_types::{Name, OutOfMemory};

#[tactic(auto, using(crate::proofs::Forms::expressions))]
/// What stands for a number with a flaw.
fn no_number() -> Expr
    ensures { expr_of result ≡ no_number }
{
    Expr::Num(0)
}

#[tactic(auto, using(crate::proofs::Forms::conditions))]
/// What stands for a truth value with a flaw.
fn no_truth() -> Cond
    ensures { cond_of result ≡ no_truth }
{
    Cond::Cmp(Cmp::Eq, no_number(), no_number())
}

/// The operator on two numbers that gives a number.
fn calculation(op: Operator) -> Option<Calc>
    ensures { option_map operator_of result ≡ calculation op }
{
    match op {
        Operator::Plus => Some(Calc::Add),
        Operator::Minus => Some(Calc::Sub),
        Operator::Times => Some(Calc::Mul),
        Operator::Divide => Some(Calc::Div),
        Operator::Remainder => Some(Calc::Rem),
        Operator::Or
        | Operator::And
        | Operator::Equal
        | Operator::NotEqual
        | Operator::Less
        | Operator::LessEqual
        | Operator::Greater
        | Operator::GreaterEqual => None,
    }
}

/// The comparison of two numbers.
fn comparison(op: Operator) -> Option<Cmp>
    ensures { option_map comparison_of result ≡ comparison op }
{
    match op {
        Operator::Equal => Some(Cmp::Eq),
        Operator::NotEqual => Some(Cmp::Ne),
        Operator::Less => Some(Cmp::Lt),
        Operator::LessEqual => Some(Cmp::Le),
        Operator::Greater => Some(Cmp::Gt),
        Operator::GreaterEqual => Some(Cmp::Ge),
        Operator::Or
        | Operator::And
        | Operator::Plus
        | Operator::Minus
        | Operator::Times
        | Operator::Divide
        | Operator::Remainder => None,
    }
}

/// A name in an expression.
#[tactic(auto, using(crate::proofs::Forms::expressions))]
fn used(symbol: Option<Symbol>) -> Expr
    ensures { expr_of result ≡ used symbol }
{
    match symbol {
        Some(Symbol::Rec(param)) => Expr::Rec(param),
        Some(Symbol::Num(param)) => Expr::Param(param),
        Some(Symbol::Local(slot)) => Expr::Local(slot),
        None => no_number(),
    }
}

/// A number, by the names and positions of what it uses.
#[tactic(auto, using(crate::proofs::Forms::expressions))]
pub fn typed_expr(
    alloc: Global,
    params: &[Param],
    locals: &[Name],
    e: &RawExpr,
) -> Result<Expr, OutOfMemory>
    requires params { length params.now ≤ 16 }
    requires locals { length locals.now ≤ 32 }
    ensures { IfOk result (λ typed. expr_of typed ≡ typed_expr params.now locals.now (tree e.now)) }
{
    match e {
        RawExpr::Number(_, n) => Ok(Expr::Num(*n)),
        RawExpr::Named { name, .. } => Ok(used(symbol_of(params, locals, name))),
        RawExpr::Not(_, _) => Ok(no_number()),
        RawExpr::Binary(_, op, a, b) => {
            let Some(calc) = calculation(*op) else {
                return Ok(no_number());
            };
            let left = Boxed::new(alloc, typed_expr(alloc, params, locals, a)?)?;
            let right = Boxed::new(alloc, typed_expr(alloc, params, locals, b)?)?;
            Ok(Expr::Calc(calc, left, right))
        }
    }
}

/// A truth value, by the names and positions of what it uses.
#[tactic(auto, using(crate::proofs::Forms::conditions))]
pub fn typed_cond(
    alloc: Global,
    params: &[Param],
    locals: &[Name],
    e: &RawExpr,
) -> Result<Cond, OutOfMemory>
    requires params { length params.now ≤ 16 }
    requires locals { length locals.now ≤ 32 }
    ensures { IfOk result (λ typed. cond_of typed ≡ typed_cond params.now locals.now (tree e.now)) }
{
    match e {
        RawExpr::Number(_, _) | RawExpr::Named { .. } => Ok(no_truth()),
        RawExpr::Not(_, a) => Ok(Cond::Not(Boxed::new(
            alloc,
            typed_cond(alloc, params, locals, a)?,
        )?)),
        RawExpr::Binary(_, Operator::Or, a, b) => {
            let left = Boxed::new(alloc, typed_cond(alloc, params, locals, a)?)?;
            let right = Boxed::new(alloc, typed_cond(alloc, params, locals, b)?)?;
            Ok(Cond::Or(left, right))
        }
        RawExpr::Binary(_, Operator::And, a, b) => {
            let left = Boxed::new(alloc, typed_cond(alloc, params, locals, a)?)?;
            let right = Boxed::new(alloc, typed_cond(alloc, params, locals, b)?)?;
            Ok(Cond::And(left, right))
        }
        RawExpr::Binary(_, op, a, b) => {
            let Some(cmp) = comparison(*op) else {
                return Ok(no_truth());
            };
            let left = typed_expr(alloc, params, locals, a)?;
            let right = typed_expr(alloc, params, locals, b)?;
            Ok(Cond::Cmp(cmp, left, right))
        }
    }
}
