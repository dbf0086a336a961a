//! Admission of requests, and the cutting of a stream into blocks.
#![tactic(auto)]

mod admission;
mod blocks;
mod cutter;
mod cutting;
mod open_block;

pub use admission::admit;
pub use cutter::Cut;
pub use cutting::cut;
