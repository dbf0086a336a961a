//! NEWBLOCKs, counted: of each orderer the first good one for each number.
#![tactic(auto)]

mod entry;
mod inbox;
mod laws;
mod linked;
mod lists;

pub use entry::NewBlockPut;
pub use inbox::{Inbox, Ready};
pub use laws::commits_leave_an_inbox;
