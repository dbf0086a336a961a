//! The tables of a document: its records, its applications, and the nodes that it lets fail.
#![tactic(auto)]

mod apps;
mod faulty;
mod records;

pub use apps::read_apps;
pub use faulty::read_faulty;
pub use records::{Records, read_records};
