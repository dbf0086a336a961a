//! The texts of commands: of a document that was read, and of an input that a seed makes.
#![tactic(auto)]

mod agreed;
mod evidence;
mod graphs;
mod soak;
mod text;
mod world_text;

pub use soak::soak_summary;
pub use steal_pool::{FreeGate, Gate};
pub use text::{graph_report, run_text};
pub use world_text::report;
