//! The messages of a world: those that are there before the first event, and those that false nodes say.
#![tactic(auto)]

mod first;
mod hashes;
mod letter;
mod named;
mod sayings;

pub use first::first_pool;
pub use hashes::{Hashes, hashes_of};
pub use letter::Letter;
pub use named::is_named;
pub use sayings::{said_block, said_newblock};
