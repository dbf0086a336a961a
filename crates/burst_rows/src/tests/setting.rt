// The first block of a document.

ghost use Rattle.std.specs.Prelude.{◌≡◌, length, IfOk};
ghost use Rattle.oxii_defs.specs.Lawful.{IsLawfulTable, IsLawfulBlock};
ghost use Rattle.txn_core.specs.MeantTable.{table_of};

use row_settings::setting_of;
use std::alloc::Global;
use std::test::Fail;
use txn_core::Table;
use txn_types::{Block, Copies, Values};

/// The number of the block.
pub const NUMBER: u64 = 7;

/// A table, the values of its records, and a block.
#[derive(Drop)]
pub struct Setting {
    pub table: Table,
    pub base: Values,
    pub block: Block,
}

/// The first block of a document, which has ' for quotation marks.
pub fn set_up(alloc: Global, text: &str) -> Result<Setting, Fail>
    ensures table { IfOk result (λ setting. IsLawfulTable (table_of setting.table)) }
    ensures base { IfOk result (λ setting. length setting.base ≡ length setting.table.records) }
    ensures block { IfOk result (λ setting. IsLawfulBlock (table_of setting.table) setting.block) }
{
    let document = setting_of(alloc, text)?;
    let body = document.bodies.as_slice().first().ok_or("no block")?;
    let block = Block {
        number: NUMBER,
        prev: [0; 32],
        txns: body.txns.copy(alloc)?,
        config: body.config.copy(alloc)?,
    };
    Ok(Setting {
        table: document.table,
        base: document.genesis,
        block,
    })
}
