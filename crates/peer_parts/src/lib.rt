//! What a peer does with the block in work: what it finds, runs, votes, holds back, cuts and judges.
#![tactic(auto)]

mod adopt;
mod batches;
mod force;
mod joining;
mod judge;
mod known;
mod rounds;
mod runs;
mod votes;

pub use batches::hold;
pub use force::{Force, Seats};
pub use judge::{agreed_of, is_done, outcomes_of, split_of};
pub use rounds::{Settled, Task, settle};
pub use votes::{hear, vote};
