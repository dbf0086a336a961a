//! Counting: the first content to reach a count, and laws of the first of each sender.
#![tactic(auto)]

mod laws;
mod reach;

pub use laws::{reached_stays, senders_stay};
pub use reach::{Tally, first_to_reach};
