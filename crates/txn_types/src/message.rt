//! Nodes, and the messages that they send.

ghost use Rattle.std.specs.Prelude.{◌≡◌};
ghost use Rattle.txn_types.specs.Nodes.{rank_of};

use crate::{Block, GrowingList, Outcome, Ranked, Recs, RisingList};

/// A peer or an orderer, by its position in the table.
#[derive(Clone, Copy, Debug, PartialEq, Eq)]
pub enum Node {
    Peer(u8),
    Orderer(u8),
}

impl Default for Node {
    fn default() -> Node {
        Node::Peer(0)
    }
}

impl Ranked for Node {
    ghost use Rattle.txn_types.specs.Nodes.{rank_of};

    ghost rank = { rank_of };
}

/// At most 32 nodes, strictly rising: peers before orderers, each by their positions in the table.
pub type NodeSet = RisingList<Node, 32>;

/// For each position of a block the positions that it depends on.
pub type Preds = GrowingList<GrowingList<u16>>;

/// A block as an orderer sends it, with its dependency graph.
#[derive(Drop)]
pub struct NewBlock {
    pub block: Block,
    pub preds: Preds,
}

/// What a peer's run of a position came to.
#[derive(PartialEq, Eq, Drop)]
pub struct Vote {
    pub t: u16,
    pub outcome: Outcome,
}

impl Vote {
    pub fn copy(&self) -> Vote
        ensures { result ≡ self.now }
    {
        Vote {
            t: self.t,
            outcome: self.outcome.copy(),
        }
    }
}

/// A list of votes.
pub type Votes = GrowingList<Vote>;

/// Votes on positions of block `n`, as a peer sends them.
#[derive(Drop)]
pub struct Commit {
    pub n: u64,
    pub votes: Votes,
}

/// A list of COMMITs.
pub type Commits = GrowingList<Commit>;

/// Why a peer halted: position `t` of block `n`, from 0, which writes these records, came to one outcome in its own run and was agreed with another.
#[derive(PartialEq, Eq, Drop)]
pub struct Split {
    pub n: u64,
    pub t: u16,
    pub writes: Recs,
    pub ran: Outcome,
    pub voted: Outcome,
}

/// What nodes send to each other.
#[derive(Drop)]
pub enum Message {
    NewBlock(NewBlock),
    Commit(Commit),
}
