//! From the bytes of a document to what it means, or its first fault.
#![tactic(auto)]

mod head;
mod input;
mod reader;
mod stream_and_schedule;
mod tables;

pub use doc_forms::{DocFault, Path, Step, Which};
pub use input::Input;
pub use reader::read_input;
