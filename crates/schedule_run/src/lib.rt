//! The world: a pool of messages and the peers, moved by the events of a schedule.
#![tactic(auto)]

mod basis;
mod each;
mod giving;
mod moving;
mod scene;
mod start;
mod world;

pub use world::World;
pub use world_laws::{Burst, Bursts};
