//! The hashes of agreed blocks.

ghost use Rattle.std.specs.Prelude.{◌≡◌, map, IfOk};
ghost use Rattle.std.specs.List.{All};
ghost use Rattle.oxii_defs.specs.BlockBytes.{block_hash};
ghost use Rattle.oxii_defs.specs.Lawful.{IsLawfulBlock};
ghost use Rattle.txn_core.specs.MeantTable.{table_of};

use hash_ledger::block_hash;
use std::alloc::Global;
use txn_core::Table;
use txn_types::{Blocks, GrowingList, OutOfMemory};

/// Hashes of blocks, in order.
pub type Hashes = GrowingList<[u8; 32]>;

/// The hashes of agreed blocks.
pub fn hashes_of(alloc: Global, table: &Table, blocks: &Blocks) -> Result<Hashes, OutOfMemory>
    requires blocks { All (IsLawfulBlock (table_of table.now)) blocks.now }
    ensures { IfOk result (λ r. r ≡ map (block_hash (table_of table.now)) blocks.now) }
{
    let mut hashes = Hashes::new(alloc);
    for block in blocks.as_slice() {
        hashes.push(block_hash(table, block))?;
    }
    Ok(hashes)
}
