//! A gate at which workers wait for each other, for the tests of bursts and of the top call.
#![tactic(auto)]

mod meeting;

pub use meeting::Meeting;
