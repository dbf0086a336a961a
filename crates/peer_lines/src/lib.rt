//! What a peer answers and holds, as rows of tests write it.
#![tactic(auto)]

mod lines;

pub use lines::{push_answer, push_peer};
