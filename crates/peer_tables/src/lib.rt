//! Tables of messages to one peer, with what it answers to each and what it holds after them.
#![tactic(auto)]

mod answers;
mod letters;

pub use answers::{answered, in_force};
pub use row_trouble::Trouble;
