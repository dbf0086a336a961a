//! A block that is done goes to the ledger.

ghost use Rattle.std.specs.Prelude.{◌≡◌, ◌<◌, ◌≤◌, ◌+◌, ◌++◌, ◌∷◌, [], length, drop, map, unwrap_or, OnOk};
ghost use Rattle.oxii_defs.specs.Lawful.{IsLawfulTable, IsLawfulBlock};
ghost use Rattle.oxii_defs.specs.BlockBytes.{block_hash};
ghost use Rattle.txn_core.specs.MeantTable.{table_of};
ghost use Rattle.txn_core.specs.States.{state_of};
ghost use Rattle.known_defs.specs.Known.{no_outcome};
ghost use Rattle.node_defs.specs.Ledger.{after_outcomes};
ghost use Rattle.hash_ledger.specs.Ledgers.{AllFit, tip_of};
ghost use Rattle.steal_pool.specs.Fitting.{AllFitAt};
ghost use Rattle.peer_work.specs.Completing.{AreLawful, IsBringable, forced_by, outcomes_in};

use hash_ledger::Ledger;
use peer_parts::{Force, outcomes_of};
use std::alloc::Global;
use txn_core::{Table, apply_to};
use txn_types::{Block, Config, Known, OutOfMemory, Outcome, Txn, Values};

/// Puts what outcomes wrote, in block order.
#[tactic(auto, using(crate::proofs::Finishing::after_next, crate::proofs::Finishing::after_end, crate::proofs::Finishing::fits_at, crate::proofs::Finishing::records_at))]
fn apply_all(table: &Table, values: &mut Values, txns: &[Txn], outcomes: &[Outcome])
    requires lawful { AreLawful (table_of table.now) txns.now }
    requires fit { AllFit txns.now outcomes.now }
    requires long { length outcomes.now ≡ length txns.now }
    requires values { length values.old ≡ length table.now.records }
    ensures state { state_of values.new ≡ after_outcomes (state_of values.old) txns.now outcomes.now }
    ensures length { length values.new ≡ length values.old }
{
    for t in 0..txns.len() {
        apply_to(values, &txns[t], &outcomes[t]);
    }
}

fn bring(force: &mut Force, config: &Option<Config>)
    requires { IsBringable (length force.old) config.now }
    ensures { force.new ≡ forced_by force.old config.now }
{
    if let Some(config) = config {
        force.change(config);
    }
}

/// Appends a block of which all is agreed, puts what its outcomes wrote, and brings its configuration in force.
pub fn complete(
    alloc: Global,
    table: &Table,
    ledger: &mut Ledger,
    state: &mut Values,
    force: &mut Force,
    block: Block,
    agreed: &Known,
) -> Result<(), OutOfMemory>
    requires lawful { IsLawfulBlock (table_of table.now) block }
    requires number { block.number ≡ length ledger.old + 1 }
    requires linked { block.prev ≡ tip_of ledger.old }
    requires long { length agreed.now ≡ length block.txns }
    requires fit { AllFitAt block.txns agreed.now }
    requires state { length state.old ≡ length table.now.records }
    requires force { length force.old ≡ length table.now.apps }
    ensures ledger { OnOk result (ledger.new ≡ ledger.old ++ record { block = block; outcomes = outcomes_in agreed.now; hash = block_hash (table_of table.now) block } ∷ []) }
    ensures state { OnOk result (state_of state.new ≡ after_outcomes (state_of state.old) block.txns (outcomes_in agreed.now)) }
    ensures values { OnOk result (length state.new ≡ length state.old) }
    ensures force { OnOk result (force.new ≡ forced_by force.old block.config) }
{
    let outcomes = outcomes_of(alloc, agreed)?;
    apply_all(table, state, block.txns.as_slice(), outcomes.as_slice());
    bring(force, &block.config);
    ledger.append(alloc, table, block, outcomes)?;
    Ok(())
}
