// What a call comes to.

ghost use Rattle.std.specs.Prelude.{◌≡◌, ◌≤◌, ◌<◌, ℕ, slice_index, length, map, take};
ghost use Rattle.oxii_defs.specs.State.{State, value_in};
ghost use Rattle.oxii_defs.specs.WellFormed.{IsWellFormed, Match};
ghost use Rattle.oxii_defs.specs.Outcomes.{outcome};
ghost use Rattle.txn_types.specs.Fitting.{Fits};
ghost use Rattle.txn_types.specs.Values.{max_value};
ghost use Rattle.txn_core.specs.Meant.{op_of};

use crate::eval::{Given, run};
use crate::{Op, Scratch};
use txn_types::{Outcome, Txn};

/// The outcome of an operation in each state whose values at the read set are the inputs.
pub fn run_txn(op: &Op, txn: &Txn, inputs: &[u64; 16], scratch: &mut Scratch) -> Outcome
    requires well_formed { IsWellFormed (op_of op.now) }
    requires args { Match (op_of op.now).params txn.now.args }
    requires inputs { (i : ℕ) → i < length txn.now.reads → slice_index inputs.now i ≤ max_value }
    ensures meaning { (s : State) → map (value_in s) txn.now.reads ≡ take (length txn.now.reads) inputs.now →
        result ≡ outcome (op_of op.now).body txn.now s }
    ensures fits { Fits txn.now result }
{
    scratch.begin(&txn.writes);
    let call = Given {
        args: txn.args.as_slice(),
        reads: txn.reads.as_slice(),
        inputs: inputs.as_slice(),
    };
    match run(&call, scratch, op.body.as_slice()) {
        Ok(()) => Outcome::Commit(scratch.writes(&txn.writes)),
        Err(reason) => Outcome::Abort(reason),
    }
}
