//! The transactions of a block, as a type parameter: so threads share them by a bound.
ghost use Rattle.std.specs.Prelude.{◌≡◌, ◌<◌, List, length};
ghost use Rattle.txn_types.specs.declared.txn.Txn.{Txn as Meant};
ghost use Rattle.known_defs.specs.Known.{txn_at};

use txn_types::{Block, Txn};

/// The transactions of a block with its number.
pub(crate) trait TxnList: Sync {
    ghost txns: { Self → List Meant };

    fn number(&self) -> u64;

    fn txn(&self, t: u16) -> &Txn
        requires { t < length (txns self.now) }
        ensures { result.now ≡ txn_at (txns self.now) t };
}

impl TxnList for Block {
    ghost txns = { λ b. b.txns };

    fn number(&self) -> u64 {
        self.number
    }

    fn txn(&self, t: u16) -> &Txn {
        &self.txns.as_slice()[t as usize]
    }
}
