//! What a peer keeps of its log.

use hash_ledger::Ledger;
use newblock_quorum::Inbox;
use peer_parts::Force;
use peer_work::Opened;
use txn_types::{Split, Values};
use vote_book::Book;

/// What peer `me` keeps of its log: the counted NEWBLOCKs and votes, the completed blocks, the state and what is in force after them, the block in work, and its halt.
#[derive(Drop)]
pub struct Desk {
    pub me: u8,
    pub inbox: Inbox,
    pub book: Book,
    pub ledger: Ledger,
    pub state: Values,
    pub force: Force,
    pub work: Option<Opened>,
    pub halted: Option<Split>,
}
