//! The table, the values and the agreed blocks of a document, for tests of what runs them.
#![tactic(auto)]

mod quoting;
mod setting;

pub use setting::{Setting, setting_of};
