//! The NEWBLOCKs that an inbox has counted, and what becomes of one that is put into it.

ghost use Rattle.std.specs.Prelude.{◌≡◌, IfOk};
ghost use Rattle.node_defs.specs.Same.{same_block};

use std::alloc::Global;
use std::marker::Model;
use std::rc::Rc;
use txn_core::Graph;
use txn_types::{Block, OutOfMemory};

/// What becomes of a NEWBLOCK that is put into an inbox.
#[derive(Clone, Copy, Debug, PartialEq, Eq)]
pub enum NewBlockPut {
    /// The sender is no orderer of the table.
    Stranger,
    /// The lists are not the graph of the block.
    WrongGraph,
    /// The orderer has an entry for this number.
    Repeat,
    Counted,
}

#[derive(Drop)]
struct Content {
    block: Block,
    graph: Graph,
}

/// A counted NEWBLOCK. Entries of several orderers can share one content.
#[derive(Drop)]
pub struct Received {
    orderer: u8,
    content: Rc<Content>,
}

impl Model for Received {
    ghost use Rattle.newblock_quorum.specs.Counted.{CountedNewBlock};

    ghost Value = { CountedNewBlock };

    ghost view = { λ e. record { orderer = e.orderer; block = e.content.value.block; graph = e.content.value.graph } };
}

impl Received {
    /// An entry with a content of its own.
    pub fn new(
        alloc: Global,
        orderer: u8,
        block: Block,
        graph: Graph,
    ) -> Result<Received, OutOfMemory>
        ensures { IfOk result (λ e. e ≡ record { orderer = orderer; block = block; graph = graph }) }
    {
        let content = Rc::new(alloc, Content { block, graph })?;
        Ok(Received { orderer, content })
    }

    /// An entry of another orderer, which shares the content.
    pub fn shared(&self, orderer: u8) -> Result<Received, OutOfMemory>
        ensures { IfOk result (λ e. e ≡ record { orderer = orderer; block = self.now.block; graph = self.now.graph }) }
    {
        let content = self.content.clone()?;
        Ok(Received { orderer, content })
    }

    pub fn orderer(&self) -> u8
        ensures { result ≡ self.now.orderer }
    {
        self.orderer
    }

    pub fn block(&self) -> &Block
        ensures { result.now ≡ self.now.block }
    {
        &self.content.as_ref().block
    }

    pub fn graph(&self) -> &Graph
        ensures { result.now ≡ self.now.graph }
    {
        &self.content.as_ref().graph
    }

    /// Whether this is its block.
    #[tactic(auto, using(node_defs::proofs::SameLemmas::block_eq))]
    pub fn carries(&self, block: &Block) -> bool
        ensures { result ≡ same_block self.now.block block.now }
    {
        *self.block() == *block
    }
}
