//! A message of the pool and its sender.

ghost use Rattle.std.specs.Prelude.{◌≡◌};

use std::marker::Model;
use txn_types::{Message, Node};

/// A message of the pool and its sender, seen by contracts as an entry of a log.
#[derive(Drop)]
pub struct Letter {
    from: Node,
    message: Message,
}

impl Model for Letter {
    ghost use Rattle.node_defs.specs.Log as log;

    ghost Value = { log.Letter };

    ghost view = { λ letter. record { from = letter.from; message = letter.message } };
}

impl Letter {
    pub fn new(from: Node, message: Message) -> Letter
        ensures { result ≡ record { from = from; message = message } }
    {
        Letter { from, message }
    }

    pub fn from(&self) -> Node
        ensures { result ≡ self.now.from }
    {
        self.from
    }

    pub fn message(&self) -> &Message
        ensures { result.now ≡ self.now.message }
    {
        &self.message
    }
}
