//! What is to be run of a block, and what a run came to.

use txn_core::{Graph, Table};
use txn_types::{Block, GrowingList, Known, Values};

/// For each position of a block, whether it is to be run here.
pub type Own = GrowingList<bool>;

/// What is to be run of a block: its graph, what is known of each position, which are to be run, and the values before the block.
#[derive(Clone, Copy)]
pub struct Plan<'a> {
    pub table: &'a Table,
    pub block: &'a Block,
    pub graph: &'a Graph,
    pub known: &'a Known,
    pub own: &'a Own,
    pub base: &'a Values,
}

/// The run of a position: by which worker, and the stamps at its begin and its finish.
#[derive(Clone, Copy, Debug, PartialEq, Eq)]
pub struct Span {
    pub t: u16,
    pub worker: u8,
    pub begin: u64,
    pub finish: u64,
}

/// The spans of a run, in order of position.
pub type Spans = GrowingList<Span>;

/// What a run came to: for each position its outcome where it ran, and the spans of those that ran.
#[derive(Drop)]
pub struct Ran {
    pub outcomes: Known,
    pub trace: Spans,
}
