//! What events move in a world.

use message_pool::Letter;
use peer_core::Peer;
use txn_types::GrowingList;
use world_laws::Bursts;

/// What events move: the messages sent so far, how many deliveries were idle, how many false messages were said and how many items they named, a slot for each peer, and the bursts.
#[derive(Drop)]
pub struct Scene<'t> {
    pub pool: GrowingList<Letter>,
    pub idle: u32,
    pub falses: u32,
    pub items: u32,
    pub peers: Vec<Option<Peer<'t>>>,
    pub bursts: Bursts,
}
