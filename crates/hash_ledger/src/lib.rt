//! The bytes of a block, their hash, the chain of blocks and the ledger.
#![tactic(auto)]

mod bytes;
mod entry;
mod feed;
mod ledger;
mod links;

pub use bytes::{block_bytes, block_hash};
pub use entry::Entry;
pub use ledger::Ledger;
pub use links::chain;
