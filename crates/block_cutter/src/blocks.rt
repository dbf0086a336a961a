//! The blocks that were cut so far, and the one that is open.

ghost use Rattle.std.specs.Prelude.{◌≡◌, ◌≤◌, ◌<◌, ◌++◌, ◌∷◌, [], length, Some, OnOk, IfOk};
ghost use Rattle.oxii_defs.specs.Lawful.{IsLawfulTxn};
ghost use Rattle.node_defs.specs.LawfulItems.{AreLawfulLimits};
ghost use Rattle.txn_core.specs.MeantTable.{table_of};
ghost use Rattle.block_cutter.specs.Standing.{block_of};
ghost use Rattle.txn_types.specs.declared.stream.Piece.{Piece};

use crate::open_block::OpenBlock;
use std::alloc::Global;
use std::mem;
use txn_core::{Table, bytes_len};
use txn_types::{Bodies, Body, Config, CutLimits, OutOfMemory, Txn, Txns};

/// The blocks that were cut so far, and the one that is open.
#[derive(Drop)]
pub struct BlockCutter {
    pub bodies: Bodies,
    pub current: OpenBlock,
}

impl BlockCutter {
    ghost use Rattle.block_cutter.specs.Taking.{TakesPiece};

    /// No block yet.
    pub fn new(alloc: Global) -> BlockCutter
        ensures bodies { result.bodies ≡ [] }
        ensures txns { result.current.txns ≡ [] }
        ensures bytes { result.current.bytes ≡ 0 }
    {
        BlockCutter {
            bodies: Bodies::new(alloc),
            current: OpenBlock::new(alloc),
        }
    }

    /// Closes the open block, where it has transactions.
    pub fn close(&mut self, alloc: Global) -> Result<(), OutOfMemory>
        ensures bodies { OnOk result (self.new.bodies ≡ self.old.bodies ++ block_of self.old.current.txns) }
        ensures txns { OnOk result (self.new.current.txns ≡ []) }
        ensures bytes { OnOk result (self.new.current.bytes ≡ 0) }
    {
        let OpenBlock { txns, bytes: _ } = mem::replace(&mut self.current, OpenBlock::new(alloc));
        if txns.len() == 0 {
            return Ok(());
        }
        self.bodies.push(Body { txns, config: None })
    }

    // Puts a transaction into the open block, or closes that first where the bytes would be too many.
    fn push(
        &mut self,
        alloc: Global,
        table: &Table,
        limits: &CutLimits,
        txn: &Txn,
    ) -> Result<(), OutOfMemory>
        requires txn { IsLawfulTxn (table_of table.now) txn.now }
        requires limits { AreLawfulLimits limits.now }
        requires room { length self.old.current.txns < limits.now.txns }
        ensures stands { OnOk result (TakesPiece (table_of table.now) limits.now (Piece.Call txn.now) self.old self.new) }
        ensures few { OnOk result (length self.new.current.txns ≤ limits.now.txns) }
    {
        let bytes = bytes_len(table, txn);
        let together = self.current.bytes + bytes;
        if together > limits.bytes {
            self.close(alloc)?;
        }
        self.current.push(txn.copy(), bytes)?;
        Ok(())
    }

    /// Puts a transaction into the open block, and closes that where it is full.
    pub fn add(
        &mut self,
        alloc: Global,
        table: &Table,
        limits: &CutLimits,
        txn: &Txn,
    ) -> Result<(), OutOfMemory>
        requires txn { IsLawfulTxn (table_of table.now) txn.now }
        requires limits { AreLawfulLimits limits.now }
        requires room { length self.old.current.txns < limits.now.txns }
        ensures stands { OnOk result (TakesPiece (table_of table.now) limits.now (Piece.Call txn.now) self.old self.new) }
        ensures room { OnOk result (length self.new.current.txns < limits.now.txns) }
    {
        self.push(alloc, table, limits, txn)?;
        if self.current.txns.len() == limits.txns as usize {
            self.close(alloc)?;
        }
        Ok(())
    }

    /// Closes the open block, and puts a configuration after it.
    pub fn configure(&mut self, alloc: Global, config: &Config) -> Result<(), OutOfMemory>
        ensures bodies { OnOk result (self.new.bodies ≡ (self.old.bodies ++ block_of self.old.current.txns) ++ record { txns = []; config = Some config.now } ∷ []) }
        ensures txns { OnOk result (self.new.current.txns ≡ []) }
        ensures bytes { OnOk result (self.new.current.bytes ≡ 0) }
    {
        self.close(alloc)?;
        let txns = Txns::new(alloc);
        let config = Some(config.copy());
        self.bodies.push(Body { txns, config })
    }

    /// The bodies of all blocks, where the open one is the last if it has transactions.
    pub fn end(self, alloc: Global) -> Result<Bodies, OutOfMemory>
        ensures { IfOk result (λ bodies. bodies ≡ self.bodies ++ block_of self.current.txns) }
    {
        let mut whole = self;
        whole.close(alloc)?;
        let BlockCutter { bodies, current: _ } = whole;
        Ok(bodies)
    }
}
