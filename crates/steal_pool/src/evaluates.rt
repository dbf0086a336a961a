//! What runs a transaction, as a type parameter: so threads share it by a bound.
ghost use Rattle.std.specs.Prelude.{◌≡◌, ◌<◌, ◌≤◌, ℕ, length, take, map, slice_index};
ghost use Rattle.txn_types.specs.Values.{max_value};
ghost use Rattle.oxii_defs.specs.State.{State, value_in};
ghost use Rattle.oxii_defs.specs.Lawful.{IsLawfulTable, IsLawfulTxn};
ghost use Rattle.oxii_defs.specs.Table.{Table as Meant};
ghost use Rattle.oxii_defs.specs.Outcomes.{outcome_in};

use board_work::Work;
use txn_core::Table;
use txn_types::Txn;

/// Evaluates a taken position on what its transaction reads.
pub(crate) trait Evaluates: Sync {
    ghost table: { Self → Meant };

    fn run<W: Work>(&self, txn: &Txn, inputs: &[u64; 16], taken: W::Taken) -> W::Evaluated
        requires table { IsLawfulTable (table self.now) }
        requires lawful { IsLawfulTxn (table self.now) txn.now }
        requires range { (k : ℕ) → k < length txn.now.reads → slice_index inputs.now k ≤ max_value }
        ensures position { (W.evaluation result).position ≡ W.position taken }
        ensures outcome { (s : State) → map (value_in s) txn.now.reads ≡ take (length txn.now.reads) inputs.now → (W.evaluation result).outcome ≡ outcome_in (table self.now) s txn.now };
}

impl Evaluates for Table {
    ghost use Rattle.txn_core.specs.MeantTable.{table_of};

    ghost table = { table_of };

    fn run<W: Work>(&self, txn: &Txn, inputs: &[u64; 16], taken: W::Taken) -> W::Evaluated {
        W::evaluate(self, txn, inputs, taken)
    }
}
