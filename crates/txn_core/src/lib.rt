//! The contract language: its syntax, the table of a document, and the evaluator of operations.
#![tactic(auto)]

mod check;
mod earlier;
mod eval;
mod gate;
mod graph;
mod lengths;
mod names;
mod run;
mod scratch;
mod serial;
mod syntax;
mod table;
mod touches;

pub use check::{is_well_formed, takes};
pub use earlier::{Earlier, PredsOf};
pub use gate::{FreeGate, Gate};
pub use graph::{Graph, depends};
pub use lengths::bytes_len;
pub use run::run_txn;
pub use scratch::Scratch;
pub use serial::{apply_to, inputs_of, outcome_at, run_one, run_serial};
pub use syntax::{Calc, Cmp, Cond, Expr, Op, Ops, Param, ParamKind, Params, Stmt, Stmts};
pub use table::{App, Apps, Table, op_named};
