//! The events of a schedule.

use crate::{Commit, GrowingList, Node, Preds};

/// Positions of items in the stream, from 0.
pub type Items = GrowingList<u32>;

/// What happens in a schedule.
#[derive(Drop)]
pub enum Event {
    /// Message `msg`, from 1, comes to peer `to`.
    Deliver {
        msg: u32,
        to: u8,
    },
    /// Each message comes to each peer that isn't faulty, in order of the messages and then of the peers.
    All,
    /// A faulty node sends a block of these admitted items, with its own or the agreed previous hash, and its own or the right graph.
    SayBlock {
        from: Node,
        number: u64,
        prev: Option<[u8; 32]>,
        items: Items,
        preds: Option<Preds>,
    },
    /// A faulty node sends results.
    SayCommit {
        from: Node,
        commit: Commit,
    },
}

/// A schedule.
pub type Events = GrowingList<Event>;
