//! The flat data of the protocol: names, lists, transactions, outcomes, blocks and messages.
#![tactic(auto)]

mod block;
mod copies;
mod event;
mod fixed;
mod message;
mod name;
mod rising;
mod stream;
mod txn;
mod values;

pub use block::{Block, Blocks, Bodies, Body, Config, Txns};
pub use copies::Copies;
pub use event::{Event, Events, Items};
pub use fixed::FixedList;
pub use growing_list::{Bytes, GrowingList, OutOfMemory, Text};
pub use message::{Commit, Commits, Message, NewBlock, Node, NodeSet, Preds, Split, Vote, Votes};
pub use name::{Name, Names};
pub use rising::{Ranked, RisingList};
pub use stream::{
    Admitted, CutLimits, Item, ItemList, Piece, RecordList, Reject, Rejected, Rejects, Request,
    RequestArgs,
};
pub use txn::{Arg, Args, Kind, Known, Outcome, Outcomes, PeerSet, Reason, Recs, Txn, Writes};
pub use values::{MAX, MAX_FALSE, MAX_NUMBER, MAX_TURNS, Values};
