//! The contract language: its tokens, its grammar, its limits and the reading of a text.
#![tactic(auto)]

mod laws;
mod lexer;
mod token;
mod tree;

pub use laws::{
    readings_are_determined, readings_are_meant, sentences_have_one_tree, tallies_count,
    tokens_are_meant,
};
pub use lexer::tokens;
pub use token::{Extent, Mark, Operator, Placed, Token};
pub use tree::{Expr, Head, Operation, Operations, Param, ParamKind, Params, Stmt, Stmts};
