//! Execute, order, validate: the comparison mode, in which the transactions of a block run on the state at its start and those that read what a valid one before them wrote are invalid.
#![tactic(auto)]

mod endorsing;
mod judging;
mod settling;
mod writers;

pub use endorsing::endorse;
pub use judging::{Verdict, Verdicts, valid_ones_run_serially, validate};
pub use settling::settle;
