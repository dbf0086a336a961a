//! Blocks, their bodies, and configurations.

ghost use Rattle.std.specs.Prelude.{◌≡◌};

use crate::{GrowingList, PeerSet, Txn};

/// A list of transactions.
pub type Txns = GrowingList<Txn>;

/// A change of an application's agents, and of how many equal votes of theirs agree on an outcome.
#[derive(PartialEq, Eq, Drop)]
pub struct Config {
    pub app: u8,
    pub agents: PeerSet,
    pub tau: u8,
}

impl Config {
    pub fn copy(&self) -> Config
        ensures { result ≡ self.now }
    {
        Config {
            app: self.app,
            agents: self.agents.copy(),
            tau: self.tau,
        }
    }
}

/// A numbered block, linked to the one before by that one's hash: transactions, or a configuration.
#[derive(PartialEq, Eq, Drop)]
pub struct Block {
    pub number: u64,
    pub prev: [u8; 32],
    pub txns: Txns,
    pub config: Option<Config>,
}

/// What a block carries, before it is numbered and linked.
#[derive(Drop)]
pub struct Body {
    pub txns: Txns,
    pub config: Option<Config>,
}

/// A list of bodies.
pub type Bodies = GrowingList<Body>;

/// A list of blocks.
pub type Blocks = GrowingList<Block>;
