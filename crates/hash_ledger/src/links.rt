//! Bodies, numbered and linked by their hashes.

ghost use Rattle.std.specs.Prelude.{◌≡◌, ◌<◌, ◌^◌, ◌+◌, ◌++◌, ◌∷◌, [], length, IfOk};
ghost use Rattle.std.specs.List.{All};
ghost use Rattle.oxii_defs.specs.Chain.{chain};
ghost use Rattle.oxii_defs.specs.Lawful.{IsLawfulBlock, IsLawfulBody};
ghost use Rattle.oxii_defs.specs.BlockBytes.{block_hash};
ghost use Rattle.txn_core.specs.MeantTable.{table_of};

use crate::block_hash;
use std::alloc::Global;
use txn_core::Table;
use txn_types::{Block, Blocks, Bodies, Body, Copies, OutOfMemory};

/// The blocks of these bodies, numbered from 1 and linked by their hashes.
pub fn chain(alloc: Global, table: &Table, bodies: &Bodies) -> Result<Blocks, OutOfMemory>
    requires { All (λ body. IsLawfulBody (table_of table.now) body.txns body.config) bodies.now }
    ensures { IfOk result (λ blocks. blocks ≡ chain (table_of table.now) bodies.now) }
{
    let mut blocks = Blocks::new(alloc);
    let mut number = 1u64;
    let mut prev = [0u8; 32];
    for body in bodies.as_slice() {
        let block = link(alloc, number, prev, body)?;
        prev = block_hash(table, &block);
        number += 1;
        blocks.push(block)?;
    }
    Ok(blocks)
}

// The block of a body.
fn link(alloc: Global, number: u64, prev: [u8; 32], body: &Body) -> Result<Block, OutOfMemory>
    ensures { IfOk result (λ block. block ≡ record { number = number; prev = prev; txns = body.now.txns; config = body.now.config }) }
{
    Ok(Block {
        number,
        prev,
        txns: body.txns.copy(alloc)?,
        config: body.config.copy(alloc)?,
    })
}
