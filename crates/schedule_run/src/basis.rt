//! What stays as it is in a world.

use message_pool::Hashes;
use txn_core::Table;
use txn_types::{Admitted, NodeSet};

/// What stays as it is: the table, the hashes of the agreed blocks, what each item of the stream carries, and the faulty nodes.
#[derive(Drop)]
pub struct Basis<'t> {
    pub table: &'t Table,
    pub hashes: Hashes,
    pub pieces: Admitted,
    pub faulty: NodeSet,
}
