// The syntax of an operation.

use sqlite_items::{Boxed, Items};
use txn_types::{GrowingList, Name};

/// An operator on two numbers.
#[derive(Clone, Copy, Debug, PartialEq, Eq)]
pub enum Calc {
    Add,
    Sub,
    Mul,
    Div,
    Rem,
}

/// A comparison of two numbers.
#[derive(Clone, Copy, Debug, PartialEq, Eq)]
pub enum Cmp {
    Eq,
    Ne,
    Lt,
    Le,
    Gt,
    Ge,
}

/// What has a value: a number, a number parameter or a record parameter by its position, a local by its slot, or two operands.
#[derive(Drop)]
pub enum Expr {
    Num(u64),
    Param(u8),
    Local(u8),
    Rec(u8),
    Calc(Calc, Boxed<Expr>, Boxed<Expr>),
}

/// What holds or not.
#[derive(Drop)]
pub enum Cond {
    Cmp(Cmp, Expr, Expr),
    And(Boxed<Cond>, Boxed<Cond>),
    Or(Boxed<Cond>, Boxed<Cond>),
    Not(Boxed<Cond>),
}

/// Statements, one after another.
pub type Stmts = Items<Stmt>;

/// A statement; a `Let` makes the local of the next free slot, and a block's locals are gone at its end.
#[derive(Drop)]
pub enum Stmt {
    Let { slot: u8, name: Name, value: Expr },
    SetLocal { slot: u8, value: Expr },
    SetRec { param: u8, value: Expr },
    Require(Cond),
    If { cond: Cond, yes: Stmts, no: Stmts },
    Repeat { count: u8, body: Stmts },
}

/// What a parameter stands for: a record, or a number.
#[derive(Clone, Copy, Debug, PartialEq, Eq)]
pub enum ParamKind {
    Rec,
    Num,
}

/// A parameter of an operation.
#[derive(Drop)]
pub struct Param {
    pub name: Name,
    pub kind: ParamKind,
}

/// A list of parameters.
pub type Params = GrowingList<Param>;

/// An operation of a contract.
#[derive(Drop)]
pub struct Op {
    pub name: Name,
    pub params: Params,
    pub body: Stmts,
}

/// A list of operations.
pub type Ops = GrowingList<Op>;
