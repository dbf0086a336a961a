//! The stream of a document: requests, marks and configurations.
#![tactic(auto)]

mod configs;
mod reading;
mod requests;

pub use reading::{StreamTables, read_stream};
