//! What a board is made for.
use board_work::{Layout, Own};
use std::snapshot::Snapshot;
use txn_core::Table;
use txn_types::{Known, Txns, Values};

/// A plan, and what the words keep of what is written, as clauses see them. It has no bytes.
#[derive(Drop)]
pub struct About {
    pub table: Snapshot<Table>,
    pub txns: Snapshot<Txns>,
    pub known: Snapshot<Known>,
    pub own: Snapshot<Own>,
    pub base: Snapshot<Values>,
    pub layout: Snapshot<Layout>,
}
