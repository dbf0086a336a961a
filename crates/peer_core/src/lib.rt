//! A peer as a function of its log.
#![tactic(auto)]

mod peer;
mod took;
mod voters;

pub use peer::Peer;
pub use peer_laws::Note;
pub use peer_turns::{BlockSpans, BlockSpansList};
pub use took::Took;
