//! Rows of documents with what a command answers to them, for the tests of the top call.
#![tactic(auto)]

mod answers;
mod rows;
mod texts;

pub use answers::{BASE, Said, answer, answer_with, text_of};
pub use row_trouble::Trouble;
pub use rows::{edited, json, replaced, wrong_row};
pub use texts::wrong_texts;
