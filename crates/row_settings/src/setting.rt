//! What a document says of records and nodes, and the blocks that its stream is cut into.

ghost use Rattle.std.specs.Prelude.{◌≡◌, length, map, IfErr, IfOk};
ghost use Rattle.std.specs.List.{All};
ghost use Rattle.txn_types.specs.Values.{IsValue};
ghost use Rattle.oxii_defs.specs.Lawful.{IsLawfulTable, IsLawfulBody};
ghost use Rattle.txn_core.specs.MeantTable.{table_of};
ghost use Rattle.row_settings.specs.Settings.{HasSomeFault, IsOfDocument, quoted_byte};

use crate::quoting::quoted;
use block_cutter::cut;
use hash_ledger::chain;
use input_doc::{DocFault, Input, read_input};
use row_trouble::Trouble;
use std::alloc::Global;
use txn_core::Table;
use txn_types::{Blocks, Bodies, Values};

/// The table of a document, its values at the start, and the blocks that are agreed, with their bodies.
#[derive(Drop)]
pub struct Setting {
    pub table: Table,
    pub genesis: Values,
    pub bodies: Bodies,
    pub blocks: Blocks,
}

/// What a document in which ' stands for quotation marks says; `Trouble::Document` where it has a fault.
pub fn setting_of(alloc: Global, document: &str) -> Result<Setting, Trouble>
    ensures fault { IfErr result (λ trouble. trouble ≡ Trouble.Document → HasSomeFault (map quoted_byte document.now)) }
    ensures table { IfOk result (λ setting. IsLawfulTable (table_of setting.table)) }
    ensures genesis { IfOk result (λ setting. length setting.genesis ≡ length setting.table.records) }
    ensures values { IfOk result (λ setting. All IsValue setting.genesis) }
    ensures document { IfOk result (λ setting. IsOfDocument document.now setting.table setting.genesis setting.bodies setting.blocks) }
    ensures bodies { IfOk result (λ setting. All (λ body. IsLawfulBody (table_of setting.table) body.txns body.config) setting.bodies) }
{
    let bytes = quoted(alloc, document.as_bytes())?;
    let input = match read_input(alloc, bytes.as_slice()) {
        Ok(input) => input,
        Err(DocFault::OutOfMemory) => return Err(Trouble::Memory),
        Err(_) => return Err(Trouble::Document),
    };
    let Input {
        table,
        genesis,
        items,
        limits,
        ..
    } = input;
    let cut = cut(alloc, &table, items.as_slice(), &limits)?;
    let blocks = chain(alloc, &table, &cut.bodies)?;
    Ok(Setting {
        table,
        genesis,
        bodies: cut.bodies,
        blocks,
    })
}
