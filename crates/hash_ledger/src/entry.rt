//! An entry of a ledger.

use txn_types::{Block, Outcomes};

/// A block of a ledger, with the outcome of each of its transactions and its hash.
#[derive(Drop)]
pub struct Entry {
    pub block: Block,
    pub outcomes: Outcomes,
    pub hash: [u8; 32],
}
