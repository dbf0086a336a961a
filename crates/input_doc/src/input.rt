//! What a document says.

use txn_core::Table;
use txn_types::{CutLimits, Events, ItemList, NodeSet, Values};

/// What a document says: the table, the value of each record at the start, the stream and how it is cut, the faulty nodes, and the schedule.
#[derive(Drop)]
pub struct Input {
    pub table: Table,
    pub genesis: Values,
    pub items: ItemList,
    pub limits: CutLimits,
    pub faulty: NodeSet,
    pub schedule: Events,
}
