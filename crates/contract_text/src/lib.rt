//! The contract language's text: from bytes to typed operations, or to the first fault.
#![tactic(auto)]

mod expressions;
mod faults;
mod finding;
mod flaws;
mod laws;
mod operations;
mod reading;
mod statements;
mod symbols;

pub use faults::{Contract, TextFault};
pub use flaws::{Flaw, FlawKind, ValueKind};
pub use laws::{accepted_contracts_are_lawful, limits_bound_operations, verdicts_are_meant};
pub use reading::read_contract;
pub use symbols::Symbol;
