//! How the next token goes on with an expression.

ghost use Rattle.std.specs.Prelude.{◌≡◌, ◌≤◌, IfOk, option_map};
ghost use Rattle.contract_grammar.specs.Tree.{first, begun_at};
ghost use Rattle.contract_grammar.specs.Held.{tree};
ghost use Rattle.contract_grammar.specs.Grammar.{level, left_level};
ghost use Rattle.contract_grammar.specs.Expressions.{folded, fits, have, pushed, left, negate, on_want, on_have, taken, ended};
ghost use Rattle.contract_reader.specs.Views.{stack, partial_of, Steps};

use crate::state::{Partial, Pending, Refusal};
use contract_grammar::{Expr, Operator, Token};
use std::alloc::Global;
use txn_types::OutOfMemory;

/// How tightly an operator binds.
pub fn level(op: Operator) -> u8
    ensures { result ≡ level op }
{
    match op {
        Operator::Or => 0,
        Operator::And => 1,
        Operator::Equal
        | Operator::NotEqual
        | Operator::Less
        | Operator::LessEqual
        | Operator::Greater
        | Operator::GreaterEqual => 3,
        Operator::Plus | Operator::Minus => 4,
        Operator::Times | Operator::Divide | Operator::Remainder => 5,
    }
}

/// The level of what is left of it.
fn left_level(op: Operator) -> u8
    ensures { result ≡ left_level op }
{
    let own = level(op);
    if own == 3 { 4 } else { own }
}

/// The byte of an expression's first token.
fn first(e: &Expr) -> u32
    ensures { result ≡ first (tree e.now) }
{
    match e {
        Expr::Number(at, _) => *at,
        Expr::Named { at, .. } => *at,
        Expr::Not(at, _) => *at,
        Expr::Binary(at, _, _, _) => *at,
    }
}

/// The same expression after a parenthesis at this byte; a name keeps its own byte.
fn begun_at(at: u32, e: Expr) -> Expr
    ensures { tree result ≡ begun_at at (tree e) }
{
    match e {
        Expr::Number(_, n) => Expr::Number(at, n),
        Expr::Named { at: _, own, name } => Expr::Named { at, own, name },
        Expr::Not(_, a) => Expr::Not(at, a),
        Expr::Binary(_, op, a, b) => Expr::Binary(at, op, a, b),
    }
}

/// What binds at least as tightly takes the operand as its right side.
fn fold(
    alloc: Global,
    least: u8,
    operand: Expr,
    pending: &mut Vec<Pending>,
) -> Result<Expr, OutOfMemory>
    ensures { IfOk result (λ e. folded least (tree operand) (stack pending.old.items) ≡ have (tree e) (stack pending.new.items)) }
{
    let mut operand = operand;
    while let Some(last) = pending.pop() {
        match last {
            Pending::Group(at) => {
                pending.push(Pending::Group(at))?;
                return Ok(operand);
            }
            Pending::Left(op, left) => {
                if level(op) < least {
                    pending.push(Pending::Left(op, left))?;
                    return Ok(operand);
                }
                operand = Expr::Binary(
                    first(&left),
                    op,
                    Box::new(alloc, left)?,
                    Box::new(alloc, operand)?,
                );
            }
            Pending::Not(at) => {
                if 2 < least {
                    pending.push(Pending::Not(at))?;
                    return Ok(operand);
                }
                operand = Expr::Not(at, Box::new(alloc, operand)?);
            }
        }
    }
    Ok(operand)
}

/// Whether what is on top lets an operand of this level be there.
fn fits(least: u8, pending: &Vec<Pending>) -> bool
    ensures { result ≡ fits least (stack pending.now.items) }
{
    match pending.last() {
        None => true,
        Some(Pending::Group(_)) => true,
        Some(Pending::Left(op, _)) => level(*op) < least,
        Some(Pending::Not(_)) => 2 < least,
    }
}

/// Takes an operator with its left side, where it can be.
fn push_left(op: Operator, side: Expr, pending: Vec<Pending>) -> Result<Partial, Refusal>
    ensures { Steps result (pushed (left op (tree side)) (stack pending.items)) }
{
    if !fits(level(op), &pending) {
        return Err(Refusal::Syntax);
    }
    let mut pending = pending;
    pending.push(Pending::Left(op, side))?;
    Ok(Partial {
        operand: None,
        pending,
    })
}

/// Takes a `not`, where it can be.
fn push_not(at: u32, pending: Vec<Pending>) -> Result<Partial, Refusal>
    ensures { Steps result (pushed (negate at) (stack pending.items)) }
{
    if !fits(2, &pending) {
        return Err(Refusal::Syntax);
    }
    let mut pending = pending;
    pending.push(Pending::Not(at))?;
    Ok(Partial {
        operand: None,
        pending,
    })
}

/// Takes an operand that one token is.
fn operand(e: Expr, pending: Vec<Pending>) -> Partial
    ensures { partial_of result ≡ have (tree e) (stack pending.items) }
{
    Partial {
        operand: Some(e),
        pending,
    }
}

/// Takes a token where an operand is expected.
fn on_want(at: u32, token: &Token, pending: Vec<Pending>) -> Result<Partial, Refusal>
    ensures { Steps result (on_want at token.now (stack pending.items)) }
{
    match token {
        Token::Number(n) => Ok(operand(Expr::Number(at, *n), pending)),
        Token::Named(name, _) => {
            let name = name.copy();
            Ok(operand(Expr::Named { at, own: at, name }, pending))
        }
        Token::Open => {
            let mut pending = pending;
            pending.push(Pending::Group(at))?;
            Ok(Partial {
                operand: None,
                pending,
            })
        }
        Token::Not => push_not(at, pending),
        Token::Infix(_) | Token::Close | Token::Fixed(_) | Token::Bad => Err(Refusal::Syntax),
    }
}

/// Takes a token where there is an operand.
fn on_have(alloc: Global, token: &Token, e: Expr, pending: Vec<Pending>) -> Result<Partial, Refusal>
    ensures { Steps result (on_have token.now (tree e) (stack pending.items)) }
{
    let mut pending = pending;
    match token {
        Token::Infix(op) => {
            let left = fold(alloc, left_level(*op), e, &mut pending)?;
            push_left(*op, left, pending)
        }
        Token::Close => {
            let inner = fold(alloc, 0, e, &mut pending)?;
            match pending.pop() {
                Some(Pending::Group(at)) => Ok(operand(begun_at(at, inner), pending)),
                Some(Pending::Left(_, _)) | Some(Pending::Not(_)) | None => Err(Refusal::Syntax),
            }
        }
        Token::Number(_)
        | Token::Named(_, _)
        | Token::Open
        | Token::Not
        | Token::Fixed(_)
        | Token::Bad => Err(Refusal::Syntax),
    }
}

/// Takes the next token of an expression.
#[tactic(auto, unfolding(contract_grammar::specs::Expressions::taken))]
pub fn take(alloc: Global, partial: Partial, at: u32, token: &Token) -> Result<Partial, Refusal>
    ensures { Steps result (taken (partial_of partial) at token.now) }
{
    let Partial { operand, pending } = partial;
    match operand {
        None => on_want(at, token, pending),
        Some(e) => on_have(alloc, token, e, pending),
    }
}

/// The expression at its end, or none where it can't end here.
#[tactic(auto, unfolding(contract_grammar::specs::Expressions::ended))]
pub fn end(alloc: Global, partial: Partial) -> Result<Option<Expr>, OutOfMemory>
    ensures { IfOk result (λ o. option_map tree o ≡ ended (partial_of partial)) }
{
    let Partial {
        operand,
        mut pending,
    } = partial;
    let Some(operand) = operand else {
        return Ok(None);
    };
    let e = fold(alloc, 0, operand, &mut pending)?;
    if pending.is_empty() {
        Ok(Some(e))
    } else {
        Ok(None)
    }
}
