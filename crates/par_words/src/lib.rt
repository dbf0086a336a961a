//! The command words, read as a command or as none.
#![tactic(auto)]

mod command;
mod number;
mod options;
mod run;
mod soak;

pub use command::{Command, command_of, words_are_one_command};
