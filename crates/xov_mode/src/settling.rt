//! The state after a block.

ghost use Rattle.std.specs.Prelude.{◌≡◌, ◌<◌, ℕ, length, slice_index};
ghost use Rattle.std.specs.List.{All};
ghost use Rattle.txn_types.specs.Fitting.{Fits};
ghost use Rattle.txn_core.specs.States.{state_of};
ghost use Rattle.xov_mode.specs.Endorsed.{AllFit};
ghost use Rattle.xov_mode.specs.Verdicts.{settled, settled_one, HasRoom};

use crate::{Verdict, Verdicts};
use txn_core::apply_to;
use txn_types::{Block, Outcome, Outcomes, Txn, Values};

// Puts the outcome of one position, where it is valid.
fn settle_one(txn: &Txn, outcome: &Outcome, verdict: Verdict, state: &mut Values)
    requires fits { Fits txn.now outcome.now }
    requires room { HasRoom (length state.old) txn.now }
    ensures state { state_of state.new ≡ settled_one (state_of state.old) txn.now outcome.now verdict }
    ensures length { length state.new ≡ length state.old }
{
    match verdict {
        Verdict::Valid => apply_to(state, txn, outcome),
        Verdict::Invalid { .. } => {}
    }
}

/// Puts the outcomes of the valid positions, in order.
pub fn settle(block: &Block, outcomes: &Outcomes, verdicts: &Verdicts, state: &mut Values)
    requires outcomes { length outcomes.now ≡ length block.now.txns }
    requires verdicts { length verdicts.now ≡ length block.now.txns }
    requires fit { AllFit block.now.txns outcomes.now }
    requires room { All (HasRoom (length state.old)) block.now.txns }
    ensures state { state_of state.new ≡ settled (state_of state.old) block.now.txns outcomes.now verdicts.now }
    ensures length { length state.new ≡ length state.old }
{
    let txns = block.txns.as_slice();
    let outcomes = outcomes.as_slice();
    let verdicts = verdicts.as_slice();
    for t in 0..txns.len() {
        settle_one(&txns[t], &outcomes[t], verdicts[t], state);
    }
}
