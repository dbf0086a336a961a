//! The NEWBLOCKs that count towards a quorum.

ghost use Rattle.node_defs.specs.Same.{same_list, same_number};

use crate::entry::Received;
use counting_laws::Tally;
use txn_types::Block;

/// Those whose block has this previous hash.
#[derive(Drop)]
pub struct LinkedBlocks<'a> {
    pub prev: &'a [u8; 32],
}

impl<'a> Tally for LinkedBlocks<'a> {
    type Entry = Received;

    type Content = Block;

    ghost counts = { λ sought e. same_list same_number e.block.prev sought.prev.now };

    ghost content = { λ e. e.block };

    fn counts(&self, entry: &Received) -> bool {
        entry.block().prev == *self.prev
    }

    fn content<'b>(&self, entry: &'b Received) -> &'b Block {
        entry.block()
    }
}
