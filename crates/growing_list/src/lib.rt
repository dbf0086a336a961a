//! Lists on the heap, and that memory ran out.
#![tactic(auto)]

mod growing;
mod memory;
#[cfg(test)]
mod tests;

pub use growing::{Bytes, GrowingList, Text};
pub use memory::OutOfMemory;
