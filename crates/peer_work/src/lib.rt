//! The block in work, from where it is taken up to the ledger.
#![tactic(auto)]

mod completion;
mod opened;
mod works;

pub use completion::complete;
pub use opened::{Opened, next_work};
pub use works::{WorkedOn, work_on};
