//! A position that is taken, and what it came to: each can neither be copied nor dropped.
ghost use Rattle.std.specs.Prelude.{◌≡◌, ◌≤◌, ◌<◌, ℕ, length, take, map, slice_index};
ghost use Rattle.txn_types.specs.Values.{max_value};
ghost use Rattle.oxii_defs.specs.State.{State, value_in};
ghost use Rattle.oxii_defs.specs.Lawful.{IsLawfulTable, IsLawfulTxn};
ghost use Rattle.oxii_defs.specs.Outcomes.{outcome_in};
ghost use Rattle.txn_core.specs.MeantTable.{table_of};

use std::marker::Model;
use txn_core::{Scratch, Table, op_named, run_txn};
use txn_types::{Outcome, Txn};

/// A position that a pass has taken. Only a take makes one, and only `evaluate` consumes it.
pub struct Taken {
    pub(crate) t: u16,
}

impl Model for Taken {
    ghost use Rattle.std.specs.Prelude.{ℕ};

    ghost Value = { ℕ };

    ghost view = { λ x. x.t };
}

/// What a taken position came to. Only `evaluate` makes one, and only a finish consumes it.
pub struct Evaluated {
    pub(crate) t: u16,
    pub(crate) outcome: Outcome,
}

impl Model for Evaluated {
    ghost use Rattle.board_work.specs.PassStates.{Evaluation};

    ghost Value = { Evaluation };

    ghost view = { λ x. record { position = x.t; outcome = x.outcome } };
}

impl Evaluated {
    /// What it came to.
    pub fn outcome(&self) -> &Outcome
        ensures { result.now ≡ self.now.outcome }
    {
        &self.outcome
    }
}

/// Evaluates a taken position on what it reads.
pub fn evaluate(table: &Table, txn: &Txn, inputs: &[u64; 16], taken: Taken) -> Evaluated
    requires table { IsLawfulTable (table_of table.now) }
    requires lawful { IsLawfulTxn (table_of table.now) txn.now }
    requires range { (k : ℕ) → k < length txn.now.reads → slice_index inputs.now k ≤ max_value }
    ensures position { result.position ≡ taken }
    ensures outcome { (s : State) → map (value_in s) txn.now.reads ≡ take (length txn.now.reads) inputs.now → result.outcome ≡ outcome_in (table_of table.now) s txn.now }
{
    let Taken { t } = taken;
    let op = op_named(table, txn);
    let outcome = run_txn(op, txn, inputs, &mut Scratch::new());
    Evaluated { t, outcome }
}
