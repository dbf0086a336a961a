//! What a reader waits for, and what is open.

ghost use Rattle.std.specs.Prelude.{◌≡◌};
ghost use Rattle.contract_reader.specs.declared.state.Refusal.TheVariants.{OutOfMemory as out_of_memory};

use contract_grammar::{Expr, Head, Operations, Operator, Stmts};
use std::alloc::{AllocError, AllocFailed};
use txn_types::{Name, OutOfMemory};

/// What is open in an expression: a parenthesis, by its byte, or what waits for its right operand.
#[derive(Drop)]
pub enum Pending {
    Group(u32),
    Left(Operator, Expr),
    Not(u32),
}

/// How far the reading of an expression is: an operand is expected, or there is one.
#[derive(Drop)]
pub struct Partial {
    pub operand: Option<Expr>,
    pub pending: Vec<Pending>,
}

/// What an expression is for.
#[derive(Drop)]
pub enum Use {
    Let(u32, Name),
    Assign(u32, Name),
    Require,
    If,
}

/// What an open block is for.
#[derive(Drop)]
pub enum Purpose {
    Whole(Head),
    First(Expr),
    Second(Expr, Stmts),
    Turns(u64),
}

/// An open block, with its statements so far.
#[derive(Drop)]
pub struct Unclosed {
    pub purpose: Purpose,
    pub stmts: Stmts,
}

/// What comes next.
#[derive(Drop)]
pub enum Mode {
    Op,
    OpName,
    Open(u32, Name),
    First(Head),
    Param(Head),
    Colon(Head, u32, Name),
    Kind(Head, u32, Name),
    More(Head),
    Block(Purpose),
    Stmt,
    Let,
    Equals(Use),
    Expr(Use, Partial),
    Count,
    Else(Expr, Stmts),
}

/// The open blocks, of which the innermost comes last, and the operations so far.
#[derive(Drop)]
pub struct Nest {
    pub blocks: Vec<Unclosed>,
    pub done: Operations,
}

/// Why a token can't be taken.
#[derive(Drop)]
pub enum Refusal {
    Syntax,
    OutOfMemory,
}

impl From<AllocError> for Refusal {
    ghost use Rattle.contract_reader.specs.declared.state.Refusal.TheVariants.{OutOfMemory as out_of_memory};

    ghost from_gives = { λ _ e. e ≡ out_of_memory };

    fn from(_: AllocError) -> Refusal {
        Refusal::OutOfMemory
    }
}

impl<T: Drop> From<AllocFailed<T>> for Refusal {
    ghost use Rattle.contract_reader.specs.declared.state.Refusal.TheVariants.{OutOfMemory as out_of_memory};

    ghost from_gives = { λ _ e. e ≡ out_of_memory };

    fn from(_: AllocFailed<T>) -> Refusal {
        Refusal::OutOfMemory
    }
}

impl From<OutOfMemory> for Refusal {
    ghost use Rattle.contract_reader.specs.declared.state.Refusal.TheVariants.{OutOfMemory as out_of_memory};

    ghost from_gives = { λ _ e. e ≡ out_of_memory };

    fn from(_: OutOfMemory) -> Refusal {
        Refusal::OutOfMemory
    }
}
