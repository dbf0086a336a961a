//! What a stream comes to, item by item.

ghost use Rattle.std.specs.Prelude.{◌≡◌, ◌<◌, ◌++◌, ◌∷◌, [], length, OnOk, IfOk};
ghost use Rattle.oxii_defs.specs.Lawful.{IsLawfulTable};
ghost use Rattle.node_defs.specs.Admission.{admit, piece_of, piece_of_answer, reject_of, reject_of_answer};
ghost use Rattle.node_defs.specs.LawfulItems.{IsLawfulRequest, IsLawfulItem, AreLawfulLimits};
ghost use Rattle.txn_types.specs.declared.stream.Item.{Item};
ghost use Rattle.txn_core.specs.MeantTable.{table_of};
ghost use Rattle.block_cutter.specs.Standing.{block_of};
ghost use Rattle.block_cutter.specs.Taking.{TakesItem};

use crate::admission::admit;
use crate::blocks::BlockCutter;
use std::alloc::Global;
use txn_core::Table;
use txn_types::{
    Admitted, Bodies, CutLimits, Item, OutOfMemory, Piece, Reject, Rejected, Rejects, Request,
};

/// What a stream comes to: the bodies of its blocks, the rejected items, and for each item what it carries.
#[derive(Drop)]
pub struct Cut {
    pub bodies: Bodies,
    pub rejected: Rejects,
    pub admitted: Admitted,
}

/// What the items so far came to.
#[derive(Drop)]
pub struct Cutter {
    pub blocks: BlockCutter,
    pub rejected: Rejects,
    pub admitted: Admitted,
}

impl Cutter {
    /// No item yet.
    pub fn new(alloc: Global) -> Cutter
        ensures bodies { result.blocks.bodies ≡ [] }
        ensures txns { result.blocks.current.txns ≡ [] }
        ensures bytes { result.blocks.current.bytes ≡ 0 }
        ensures rejected { result.rejected ≡ [] }
        ensures admitted { result.admitted ≡ [] }
    {
        Cutter {
            blocks: BlockCutter::new(alloc),
            rejected: Rejects::new(alloc),
            admitted: Admitted::new(alloc),
        }
    }

    // A request is item `number`: its transaction goes into a block, or the reason into the list of rejects.
    fn ask(
        &mut self,
        alloc: Global,
        table: &Table,
        limits: &CutLimits,
        number: u32,
        request: &Request,
    ) -> Result<(), OutOfMemory>
        requires table { IsLawfulTable (table_of table.now) }
        requires request { IsLawfulRequest (table_of table.now) request.now }
        requires limits { AreLawfulLimits limits.now }
        requires room { length self.old.blocks.current.txns < limits.now.txns }
        ensures stands { OnOk result (TakesItem (table_of table.now) limits.now (Item.Ask request.now) self.old.blocks self.new.blocks) }
        ensures room { OnOk result (length self.new.blocks.current.txns < limits.now.txns) }
        ensures rejected { OnOk result (self.new.rejected ≡ self.old.rejected ++ reject_of_answer number (admit (table_of table.now) request.now)) }
        ensures admitted { OnOk result (self.new.admitted ≡ self.old.admitted ++ piece_of_answer (admit (table_of table.now) request.now) ∷ []) }
    {
        match admit(table, request) {
            Ok(txn) => {
                self.blocks.add(alloc, table, limits, &txn)?;
                self.admitted.push(Some(Piece::Call(txn)))?;
                Ok(())
            }
            Err(why) => {
                self.rejected.push(Rejected { item: number, why })?;
                self.admitted.push(None)?;
                Ok(())
            }
        }
    }

    /// Takes item `number` of the stream.
    pub fn take(
        &mut self,
        alloc: Global,
        table: &Table,
        limits: &CutLimits,
        number: u32,
        item: &Item,
    ) -> Result<(), OutOfMemory>
        requires table { IsLawfulTable (table_of table.now) }
        requires item { IsLawfulItem (table_of table.now) item.now }
        requires limits { AreLawfulLimits limits.now }
        requires room { length self.old.blocks.current.txns < limits.now.txns }
        ensures stands { OnOk result (TakesItem (table_of table.now) limits.now item.now self.old.blocks self.new.blocks) }
        ensures room { OnOk result (length self.new.blocks.current.txns < limits.now.txns) }
        ensures rejected { OnOk result (self.new.rejected ≡ self.old.rejected ++ reject_of (table_of table.now) number item.now) }
        ensures admitted { OnOk result (self.new.admitted ≡ self.old.admitted ++ piece_of (table_of table.now) item.now ∷ []) }
    {
        match item {
            Item::Ask(request) => self.ask(alloc, table, limits, number, request),
            Item::Mark => {
                self.blocks.close(alloc)?;
                self.admitted.push(None)?;
                Ok(())
            }
            Item::Config(config) => {
                self.blocks.configure(alloc, config)?;
                self.admitted.push(Some(Piece::Config(config.copy())))?;
                Ok(())
            }
        }
    }

    /// What the whole stream came to, when its last item was taken.
    pub fn finish(self, alloc: Global) -> Result<Cut, OutOfMemory>
        ensures bodies { IfOk result (λ cut. cut.bodies ≡ self.blocks.bodies ++ block_of self.blocks.current.txns) }
        ensures rejected { IfOk result (λ cut. cut.rejected ≡ self.rejected) }
        ensures admitted { IfOk result (λ cut. cut.admitted ≡ self.admitted) }
    {
        let Cutter {
            blocks,
            rejected,
            admitted,
        } = self;
        let bodies = blocks.end(alloc)?;
        Ok(Cut {
            bodies,
            rejected,
            admitted,
        })
    }
}
