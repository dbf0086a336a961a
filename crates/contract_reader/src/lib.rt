//! The reader of the contract language: from bytes to the operations, or to the first fault.
#![tactic(auto)]

mod chain;
mod counts;
mod expression;
mod fault;
mod heads;
mod reader;
mod state;
mod statements;

pub use contract_grammar::{
    Expr, Head, Operation, Operations, Operator, Param, ParamKind, Params, Stmt, Stmts,
};
pub use fault::ReadFault;
pub use reader::read;
