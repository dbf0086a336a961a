//! The schedule of a document: its events, with the false messages of faulty nodes.
#![tactic(auto)]

mod blocks;
mod events;
mod hashes;
mod places;
mod tables;
mod votes;

pub use events::read_schedule;
pub use tables::{ItemRole, ScheduleTables};
