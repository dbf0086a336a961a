//! Votes, counted: of each voter the first on each position of a block.
#![tactic(auto)]

mod ballot;
mod book;
mod fitting;
mod spot;

pub use ballot::VotePut;
pub use book::Book;
pub use fitting::has_peer;
