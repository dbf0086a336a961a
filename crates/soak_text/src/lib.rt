//! The summary of a run that a seed made.
#![tactic(auto)]

mod edges;
mod ledger_counts;
mod lines;
mod summary;
mod values;

pub use summary::soak_report;
