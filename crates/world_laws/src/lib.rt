//! What a world of peers keeps, against a world of the definitions, through one event.
#![tactic(auto)]

mod burst;

pub use burst::{Burst, Bursts};
