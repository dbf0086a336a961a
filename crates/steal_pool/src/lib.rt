//! Workers that run the transactions of a plan, and steal hints from each other.
#![tactic(auto)]

mod deques;
mod evaluates;
mod hints;
mod own_flags;
mod passes;
mod pool;
mod threads;
mod txn_list;
mod worker;

pub use pool::burst;
pub use txn_core::{FreeGate, Gate};
