//! Results that are held back until they are cut into COMMITs.
#![tactic(auto)]

mod holder;
mod laws;
#[cfg(test)]
mod tests;

pub use holder::Holder;
pub use laws::steps_cut_the_votes;
