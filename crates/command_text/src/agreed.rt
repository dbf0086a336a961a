//! The agreed blocks of a stream.

ghost use Rattle.std.specs.Prelude.{◌≡◌, ◌≤◌, length, IfOk};
ghost use Rattle.std.specs.List.{All};
ghost use Rattle.oxii_defs.specs.Lawful.{IsLawfulTable, IsLawfulBlock};
ghost use Rattle.node_defs.specs.Admission.{pieces_of};
ghost use Rattle.node_defs.specs.LawfulItems.{IsLawfulItem, AreLawfulLimits};
ghost use Rattle.node_defs.specs.Cutting.{rejected_from};
ghost use Rattle.txn_core.specs.MeantTable.{table_of};
ghost use Rattle.command_text.specs.AgreedBlocks.{AreAgreedBlocks};

use block_cutter::cut;
use hash_ledger::chain;
use std::alloc::Global;
use txn_core::Table;
use txn_types::{Admitted, Blocks, CutLimits, Item, OutOfMemory, Rejects};

/// What orderers agree on: the rejected requests, what each item of the stream carries, and the blocks of the chain.
#[derive(Drop)]
pub struct Agreed {
    pub rejected: Rejects,
    pub admitted: Admitted,
    pub blocks: Blocks,
}

/// What orderers make of a stream.
#[tactic(auto, using(crate::proofs::AgreedLemmas::agreed_blocks, crate::proofs::LawfulBlocks::chain_lawful))]
pub fn agree(
    alloc: Global,
    table: &Table,
    items: &[Item],
    limits: &CutLimits,
) -> Result<Agreed, OutOfMemory>
    requires table { IsLawfulTable (table_of table.now) }
    requires count { length items.now ≤ 8192 }
    requires items { All (IsLawfulItem (table_of table.now)) items.now }
    requires limits { AreLawfulLimits limits.now }
    ensures rejected { IfOk result (λ agreed. agreed.rejected ≡ rejected_from (table_of table.now) 0 items.now) }
    ensures admitted { IfOk result (λ agreed. agreed.admitted ≡ pieces_of (table_of table.now) items.now) }
    ensures blocks { IfOk result (λ agreed. AreAgreedBlocks (table_of table.now) limits.now items.now agreed.blocks) }
    ensures lawful { IfOk result (λ agreed. All (IsLawfulBlock (table_of table.now)) agreed.blocks) }
{
    let cut = cut(alloc, table, items, limits)?;
    let blocks = chain(alloc, table, &cut.bodies)?;
    Ok(Agreed {
        rejected: cut.rejected,
        admitted: cut.admitted,
        blocks,
    })
}
