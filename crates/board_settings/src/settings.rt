//! The block of a document, of which nothing is known and all is to be run.

ghost use Rattle.std.specs.Prelude.{◌≡◌, ◌<◌, ℕ, IfOk, IfSome, None, true, length, replicate};
ghost use Rattle.std.specs.List.{All};
ghost use Rattle.oxii_defs.specs.Lawful.{IsLawfulBody};
ghost use Rattle.txn_core.specs.MeantTable.{table_of};
ghost use Rattle.board_defs.specs.Closure.{is_own};
ghost use Rattle.board_work.specs.Plans.{IsRunnable, plan_of};
ghost use Rattle.board_settings.specs.Settings.{IsSet, plan_with};

use crate::task::Task;
use board_words::no_outcomes;
use board_work::{Own, Plan, Work};
use dep_graph::build;
use row_settings::setting_of;
use row_trouble::Trouble;
use std::alloc::Global;
use txn_core::{Graph, Table};
use txn_types::{Block, Bodies, Known, OutOfMemory, Txns, Values};

/// What a plan is made of.
#[derive(Drop)]
pub struct Setting {
    pub table: Table,
    pub base: Values,
    pub block: Block,
    pub graph: Graph,
    pub known: Known,
    pub own: Own,
}

impl Setting {
    pub fn plan(&self) -> Plan<'_>
        requires { IsSet self.now.table self.now.base self.now.block self.now.graph self.now.known self.now.own }
        ensures runnable { IsRunnable result }
        ensures plan { plan_of result ≡ plan_with self.now.table self.now.base self.now.block self.now.known self.now.own }
        ensures own { (t : ℕ) → t < length result.block.now.txns → is_own (plan_of result) t ≡ true }
    {
        Plan {
            table: &self.table,
            block: &self.block,
            graph: &self.graph,
            known: &self.known,
            own: &self.own,
            base: &self.base,
        }
    }
}

impl Task for Setting {
    ghost plan = { λ s. plan_with s.table s.base s.block s.known s.own };

    fn run<W: Work>(&self, t: u16, inputs: &[u64; 16], taken: W::Taken) -> W::Evaluated {
        let txn = &self.block.txns.as_slice()[t as usize];
        W::evaluate(&self.table, txn, inputs, taken)
    }
}

fn all_own(alloc: Global, size: usize) -> Result<Own, OutOfMemory>
    ensures { IfOk result (λ own. own ≡ replicate size true) }
{
    let mut own = Own::new(alloc);
    for _ in 0..size {
        own.push(true)?;
    }
    Ok(own)
}

// The transactions of the last block, where it is one of transactions.
fn last_txns(table: &Table, mut bodies: Bodies) -> Option<Txns>
    requires { All (λ b. IsLawfulBody (table_of table.now) b.txns b.config) bodies }
    ensures { IfSome result (λ txns. IsLawfulBody (table_of table.now) txns None) }
{
    let _ = table;
    let body = bodies.pop()?;
    match body.config {
        None => Some(body.txns),
        Some(_) => None,
    }
}

/// The last block of a document, with its table and the values at the start; `Trouble::NotThere` where it isn't one of transactions.
pub fn set_up(alloc: Global, text: &str) -> Result<Setting, Trouble>
    ensures { IfOk result (λ s. IsSet s.table s.base s.block s.graph s.known s.own) }
{
    let document = setting_of(alloc, text)?;
    let bodies = document.bodies;
    let Some(txns) = last_txns(&document.table, bodies) else {
        return Err(Trouble::NotThere);
    };
    let block = Block {
        number: 1,
        prev: [0; 32],
        txns,
        config: None,
    };
    let size = block.txns.len();
    let graph = build(alloc, &block, document.table.kind)?;
    let known = no_outcomes(alloc, size)?;
    let own = all_own(alloc, size)?;
    Ok(Setting {
        table: document.table,
        base: document.genesis,
        block,
        graph,
        known,
        own,
    })
}
