//! What a message makes of what a peer keeps: it is heard, and turns follow.
#![tactic(auto)]

mod desk;
mod hearing;
mod judging;
mod listing;
mod noting;
mod turning;

pub use desk::Desk;
pub use hearing::hear;
pub use listing::{BlockSpans, BlockSpansList};
pub use peer_laws::Note;
pub use turning::turns;
