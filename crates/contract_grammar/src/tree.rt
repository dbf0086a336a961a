//! Operations as they are read: names and kinds are not looked up yet.

use crate::token::Operator;
use txn_types::{GrowingList, Name};

/// An expression, with the byte of its first token; a name in parentheses has its own byte too.
#[derive(Drop)]
pub enum Expr {
    Number(u32, u64),
    Named { at: u32, own: u32, name: Name },
    Not(u32, Box<Expr>),
    Binary(u32, Operator, Box<Expr>, Box<Expr>),
}

/// A statement; a name comes after the byte where it begins.
#[cycle(statements)]
#[derive(Drop)]
pub enum Stmt {
    Let(u32, Name, Expr),
    Assign(u32, Name, Expr),
    Require(Expr),
    If(Expr, Box<Stmts>, Box<Stmts>),
    Repeat(u64, Box<Stmts>),
}

/// The statements of a block, in order: those before the last one, and the last one.
#[cycle(statements)]
#[derive(Drop)]
pub enum Stmts {
    Empty,
    Then(Box<Stmts>, Box<Stmt>),
}

/// What a parameter stands for.
#[derive(Clone, Copy, Debug, PartialEq, Eq)]
pub enum ParamKind {
    Record,
    Number,
}

/// A parameter, with the byte where its name begins.
#[derive(Drop)]
pub struct Param {
    pub at: u32,
    pub name: Name,
    pub kind: ParamKind,
}

/// The parameters of an operation, in order.
pub type Params = GrowingList<Param>;

/// What is before an operation's block, with the byte where its name begins.
#[derive(Drop)]
pub struct Head {
    pub at: u32,
    pub name: Name,
    pub params: Params,
}

/// An operation.
#[derive(Drop)]
pub struct Operation {
    pub head: Head,
    pub body: Stmts,
}

/// The operations of a contract, in order.
pub type Operations = GrowingList<Operation>;
