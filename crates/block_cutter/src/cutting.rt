//! The one cutting of a stream into blocks.

ghost use Rattle.std.specs.Prelude.{◌≡◌, ◌≤◌, length, IfOk};
ghost use Rattle.std.specs.List.{All};
ghost use Rattle.oxii_defs.specs.Lawful.{IsLawfulTable, IsLawfulBody};
ghost use Rattle.node_defs.specs.Admission.{pieces_of};
ghost use Rattle.node_defs.specs.LawfulItems.{IsLawfulItem, AreLawfulLimits};
ghost use Rattle.node_defs.specs.Cutting.{AreAgreed, rejected_from};
ghost use Rattle.txn_core.specs.MeantTable.{table_of};

use crate::cutter::{Cut, Cutter};
use std::alloc::Global;
use txn_core::Table;
use txn_types::{CutLimits, Item, OutOfMemory};

/// Cuts a stream into blocks. A block is closed at its greatest count, before a transaction that would pass the limit of bytes,
/// at a mark and at a configuration, which is a block by itself.
pub fn cut(
    alloc: Global,
    table: &Table,
    items: &[Item],
    limits: &CutLimits,
) -> Result<Cut, OutOfMemory>
    requires table { IsLawfulTable (table_of table.now) }
    requires count { length items.now ≤ 8192 }
    requires items { All (IsLawfulItem (table_of table.now)) items.now }
    requires limits { AreLawfulLimits limits.now }
    ensures agreed { IfOk result (λ cut. AreAgreed (table_of table.now) limits.now items.now cut.bodies) }
    ensures rejected { IfOk result (λ cut. cut.rejected ≡ rejected_from (table_of table.now) 0 items.now) }
    ensures admitted { IfOk result (λ cut. cut.admitted ≡ pieces_of (table_of table.now) items.now) }
    ensures lawful { IfOk result (λ cut. All (λ b. IsLawfulBody (table_of table.now) b.txns b.config) cut.bodies) }
{
    let mut cutter = Cutter::new(alloc);
    for (i, item) in items.iter().enumerate() {
        cutter.take(alloc, table, limits, i as u32, item)?;
    }
    cutter.finish(alloc)
}
