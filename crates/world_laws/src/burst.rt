//! The spans of one block that ran in a delivery.

use peer_core::BlockSpans;
use txn_types::GrowingList;

/// The spans of the transactions of one block that ran at a peer in one delivery.
#[derive(Drop)]
pub struct Burst {
    pub peer: u8,
    pub spans: BlockSpans,
}

/// Bursts in the order in which they were run.
pub type Bursts = GrowingList<Burst>;
