//! How the next token goes on with a statement.

ghost use Rattle.std.specs.Prelude.{◌≡◌, [], ◌∷◌, Some, OnOk, option_map};
ghost use Rattle.contract_grammar.specs.Tree.{nil};
ghost use Rattle.contract_grammar.specs.Held.{tree, statement, statements, operations};
ghost use Rattle.contract_grammar.specs.Expressions.{want};
ghost use Rattle.contract_grammar.specs.Modes.{at, at_stmt, in_expr, unclosed, with_stmt, closed, on_block, on_stmt, on_let, on_equals, on_count, on_semicolon, on_brace, on_expr, on_else};
ghost use Rattle.contract_reader.specs.Views.{blocks_of, mode_of, use_of, purpose_of, partial_of, Goes};

use crate::expression::{end, take};
use crate::state::{Mode, Nest, Partial, Purpose, Refusal, Unclosed, Use};
use contract_grammar::{Expr, Mark, Operation, Stmt, Stmts, Token};
use std::alloc::Global;
use txn_types::OutOfMemory;

/// Puts a statement at the end of the innermost block.
fn add_stmt(alloc: Global, stmt: Stmt, blocks: &mut Vec<Unclosed>) -> Result<(), OutOfMemory>
    ensures { OnOk result (blocks_of blocks.new.items ≡ with_stmt (statement stmt) (blocks_of blocks.old.items)) }
{
    if let Some(Unclosed { purpose, stmts }) = blocks.pop() {
        let stmts = Stmts::Then(Box::new(alloc, stmts)?, Box::new(alloc, stmt)?);
        blocks.push(Unclosed { purpose, stmts })?;
    }
    Ok(())
}

/// Puts a statement, after which another one can come.
fn put_stmt(alloc: Global, stmt: Stmt, nest: &mut Nest) -> Result<Mode, Refusal>
    ensures { Goes result nest.new (Some (at at_stmt (with_stmt (statement stmt) (blocks_of nest.old.blocks.items)) (operations nest.old.done))) }
{
    add_stmt(alloc, stmt, &mut nest.blocks)?;
    Ok(Mode::Stmt)
}

/// Ends the innermost block.
fn close(alloc: Global, nest: &mut Nest) -> Result<Mode, Refusal>
    ensures { Goes result nest.new (closed (blocks_of nest.old.blocks.items) (operations nest.old.done)) }
{
    let Some(Unclosed { purpose, stmts }) = nest.blocks.pop() else {
        return Err(Refusal::Syntax);
    };
    match purpose {
        Purpose::Whole(head) => {
            nest.done.push(Operation { head, body: stmts })?;
            Ok(Mode::Op)
        }
        Purpose::First(e) => Ok(Mode::Else(e, stmts)),
        Purpose::Second(e, yes) => {
            let choice = Stmt::If(e, Box::new(alloc, yes)?, Box::new(alloc, stmts)?);
            put_stmt(alloc, choice, nest)
        }
        Purpose::Turns(n) => {
            let turns = Stmt::Repeat(n, Box::new(alloc, stmts)?);
            put_stmt(alloc, turns, nest)
        }
    }
}

/// Opens a block.
fn open(purpose: Purpose, nest: &mut Nest) -> Result<Mode, Refusal>
    ensures { Goes result nest.new (Some (at at_stmt (unclosed (purpose_of purpose) nil ∷ blocks_of nest.old.blocks.items) (operations nest.old.done))) }
{
    nest.blocks.push(Unclosed {
        purpose,
        stmts: Stmts::Empty,
    })?;
    Ok(Mode::Stmt)
}

/// Takes the brace that opens a block.
pub fn on_block(purpose: Purpose, token: &Token, nest: &mut Nest) -> Result<Mode, Refusal>
    ensures { Goes result nest.new (on_block (purpose_of purpose) token.now (blocks_of nest.old.blocks.items) (operations nest.old.done)) }
{
    match token {
        Token::Fixed(Mark::OpenBlock) => open(purpose, nest),
        _ => Err(Refusal::Syntax),
    }
}

/// An expression that begins.
fn begin(alloc: Global, purpose: Use) -> Mode
    ensures { mode_of result ≡ in_expr (use_of purpose) (want []) }
{
    Mode::Expr(
        purpose,
        Partial {
            operand: None,
            pending: Vec::new(alloc),
        },
    )
}

/// Takes the token that begins a statement, or ends a block.
pub fn on_stmt(alloc: Global, at: u32, token: &Token, nest: &mut Nest) -> Result<Mode, Refusal>
    ensures { Goes result nest.new (on_stmt at token.now (blocks_of nest.old.blocks.items) (operations nest.old.done)) }
{
    match token {
        Token::Fixed(Mark::WordLet) => Ok(Mode::Let),
        Token::Named(name, _) => Ok(Mode::Equals(Use::Assign(at, name.copy()))),
        Token::Fixed(Mark::WordRequire) => Ok(begin(alloc, Use::Require)),
        Token::Fixed(Mark::WordIf) => Ok(begin(alloc, Use::If)),
        Token::Fixed(Mark::WordRepeat) => Ok(Mode::Count),
        Token::Fixed(Mark::CloseBlock) => close(alloc, nest),
        _ => Err(Refusal::Syntax),
    }
}

/// Takes the name of a local.
pub fn on_let(at: u32, token: &Token, nest: &Nest) -> Result<Mode, Refusal>
    ensures { Goes result nest.now (on_let at token.now (blocks_of nest.now.blocks.items) (operations nest.now.done)) }
{
    match token {
        Token::Named(name, _) => Ok(Mode::Equals(Use::Let(at, name.copy()))),
        _ => Err(Refusal::Syntax),
    }
}

/// Takes the `=` after a name.
pub fn on_equals(alloc: Global, purpose: Use, token: &Token, nest: &Nest) -> Result<Mode, Refusal>
    ensures { Goes result nest.now (on_equals (use_of purpose) token.now (blocks_of nest.now.blocks.items) (operations nest.now.done)) }
{
    match token {
        Token::Fixed(Mark::Becomes) => Ok(begin(alloc, purpose)),
        _ => Err(Refusal::Syntax),
    }
}

/// Takes the count of a `repeat`.
pub fn on_count(token: &Token, nest: &Nest) -> Result<Mode, Refusal>
    ensures { Goes result nest.now (on_count token.now (blocks_of nest.now.blocks.items) (operations nest.now.done)) }
{
    match token {
        Token::Number(n) => Ok(Mode::Block(Purpose::Turns(*n))),
        _ => Err(Refusal::Syntax),
    }
}

/// Ends the statement of an expression.
fn on_semicolon(
    alloc: Global,
    purpose: Use,
    e: Option<Expr>,
    nest: &mut Nest,
) -> Result<Mode, Refusal>
    ensures { Goes result nest.new (on_semicolon (use_of purpose) (option_map tree e) (blocks_of nest.old.blocks.items) (operations nest.old.done)) }
{
    let Some(e) = e else {
        return Err(Refusal::Syntax);
    };
    match purpose {
        Use::Let(at, name) => put_stmt(alloc, Stmt::Let(at, name, e), nest),
        Use::Assign(at, name) => put_stmt(alloc, Stmt::Assign(at, name, e), nest),
        Use::Require => put_stmt(alloc, Stmt::Require(e), nest),
        Use::If => Err(Refusal::Syntax),
    }
}

/// Opens the block after an expression.
fn on_brace(purpose: Use, e: Option<Expr>, nest: &mut Nest) -> Result<Mode, Refusal>
    ensures { Goes result nest.new (on_brace (use_of purpose) (option_map tree e) (blocks_of nest.old.blocks.items) (operations nest.old.done)) }
{
    let Some(e) = e else {
        return Err(Refusal::Syntax);
    };
    match purpose {
        Use::If => open(Purpose::First(e), nest),
        Use::Let(_, _) | Use::Assign(_, _) | Use::Require => Err(Refusal::Syntax),
    }
}

/// Takes a token where an expression is.
pub fn on_expr(
    alloc: Global,
    purpose: Use,
    partial: Partial,
    at: u32,
    token: &Token,
    nest: &mut Nest,
) -> Result<Mode, Refusal>
    ensures { Goes result nest.new (on_expr (use_of purpose) (partial_of partial) at token.now (blocks_of nest.old.blocks.items) (operations nest.old.done)) }
{
    match token {
        Token::Fixed(Mark::Semicolon) => {
            let e = end(alloc, partial)?;
            on_semicolon(alloc, purpose, e, nest)
        }
        Token::Fixed(Mark::OpenBlock) => {
            let e = end(alloc, partial)?;
            on_brace(purpose, e, nest)
        }
        _ => Ok(Mode::Expr(purpose, take(alloc, partial, at, token)?)),
    }
}

/// Takes a token where an `else` can be.
pub fn on_else(
    alloc: Global,
    e: Expr,
    yes: Stmts,
    at: u32,
    token: &Token,
    nest: &mut Nest,
) -> Result<Mode, Refusal>
    ensures { Goes result nest.new (on_else (tree e) (statements yes) at token.now (blocks_of nest.old.blocks.items) (operations nest.old.done)) }
{
    match token {
        Token::Fixed(Mark::WordElse) => Ok(Mode::Block(Purpose::Second(e, yes))),
        _ => {
            let choice = Stmt::If(e, Box::new(alloc, yes)?, Box::new(alloc, Stmts::Empty)?);
            add_stmt(alloc, choice, &mut nest.blocks)?;
            on_stmt(alloc, at, token, nest)
        }
    }
}
