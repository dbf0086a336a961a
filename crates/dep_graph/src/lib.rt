//! The dependency graph of a block, who follows whom in it, and whether all that a position depends on is known.
#![tactic(auto)]

mod built;
mod follow;
mod known;
mod walk;

pub use built::build;
pub use follow::{other_app_follows, successors};
pub use known::knows_preds;
pub use walk::Successors;
