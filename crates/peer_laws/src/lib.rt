//! What a peer keeps and answers, against its log, through one delivery.
#![tactic(auto)]

mod note;

pub use note::Note;
