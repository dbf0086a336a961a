//! The block that is open.

ghost use Rattle.std.specs.Prelude.{◌≡◌, ◌≤◌, ◌+◌, ◌++◌, ◌∷◌, [], OnOk};

use std::alloc::Global;
use txn_types::{OutOfMemory, Txn, Txns};

/// The block that is open: its transactions, and their bytes together.
#[derive(Drop)]
pub struct OpenBlock {
    pub txns: Txns,
    pub bytes: u32,
    ghost small: { bytes ≤ 1048576 },
}

impl OpenBlock {
    /// A block without transactions.
    pub fn new(alloc: Global) -> OpenBlock
        ensures txns { result.txns ≡ [] }
        ensures bytes { result.bytes ≡ 0 }
    {
        OpenBlock {
            txns: Txns::new(alloc),
            bytes: 0,
        }
    }

    /// Puts a transaction of so many bytes at the end.
    pub fn push(&mut self, txn: Txn, bytes: u32) -> Result<(), OutOfMemory>
        requires { self.old.bytes + bytes ≤ 1048576 }
        ensures txns { OnOk result (self.new.txns ≡ self.old.txns ++ txn ∷ []) }
        ensures bytes { OnOk result (self.new.bytes ≡ self.old.bytes + bytes) }
    {
        self.txns.push(txn)?;
        self.bytes += bytes;
        Ok(())
    }
}
