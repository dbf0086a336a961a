//! What several workers run a plan on.
ghost use Rattle.std.specs.Prelude.{◌≡◌, ◌<◌, ◌≤◌, ℕ, List, [], Option, IfOk, OnErr, MatchOption, Bool, true, false, length, take, map, slice_index};
ghost use Rattle.txn_types.specs.declared.txn.Kind.TheVariants.{Full};
ghost use Rattle.txn_types.specs.declared.txn.Outcome.{Outcome};
ghost use Rattle.txn_types.specs.Values.{max_value};
ghost use Rattle.oxii_defs.specs.State.{State, value_in};
ghost use Rattle.oxii_defs.specs.Lawful.{IsLawfulTable, IsLawfulTxn};
ghost use Rattle.oxii_defs.specs.Outcomes.{outcome_in};
ghost use Rattle.txn_core.specs.MeantTable.{table_of};
ghost use Rattle.board_defs.specs.Closure as meant;
ghost use Rattle.board_defs.specs.Trace as trace;
ghost use Rattle.board_work.specs.Plans.{plan_of, IsRunnable};
ghost use Rattle.board_work.specs.Spans.{span_of};
ghost use Rattle.board_work.specs.Scripts.{reads_at, state_before, meant_at};
ghost use Rattle.board_work.specs.PassStates.{Home, PassState, Evaluation, IsOf, IsFree, IsHolding, IsComplete, HasTried, IsFirst, new_state, split_state, Took, Ended, IsLeastUntried, joined_state, IsTraceOf};

use crate::made::Made;
use crate::plan::{Plan, Ran};
use board_core::Take;
use std::alloc::Global;
use txn_core::Table;
use txn_types::{OutOfMemory, Outcome, Txn};

/// A value that a plan was made into, and that passes work on. Passes may be held in threads of their own; no call waits, and all but `plan` and `split` take no memory.
pub trait Work: Sized + Sync + Drop {
    /// Whether plans of both kinds of graph are run, or those of kind full alone.
    const RAW: bool;

    ghost RAW: { Bool };

    /// What one worker holds of it.
    type Pass: Send + Drop;

    /// A position that a pass has taken. Only `take` makes one, only `evaluate` consumes it, and it can neither be copied nor dropped.
    type Taken: Send;

    /// What a taken position came to. Only `evaluate` makes one, only `finish` consumes it, and it can neither be copied nor dropped: so each position that is taken is evaluated exactly once.
    type Evaluated: Send;

    // Which value it is, and the plan that it was made of.
    ghost home: { Self → Home };

    ghost state: { Self.Pass → PassState };

    ghost position: { Self.Taken → ℕ };

    ghost evaluation: { Self.Evaluated → Evaluation };

    // Of a plan, and the outcomes and spans that were given for it.
    ghost closed: { meant.Plan → List (Option Outcome) → List trace.Span → Type 0 };

    /// Makes the value, and pass number 0, whose duties are the own positions that are ready.
    fn plan(alloc: Global, plan: &Plan<'_>) -> Result<(Self, Self::Pass), OutOfMemory>
        requires runnable { IsRunnable plan.now }
        requires kind { RAW ≡ false → plan.now.table.now.kind ≡ Full }
        ensures plan { IfOk result (λ r. (home r.0).plan ≡ plan_of plan.now) }
        ensures first { IfOk result (λ r. IsFirst (home r.0) (state r.1)) };

    /// A new pass with the next number and no duty.
    fn split(&self, alloc: Global, pass: &mut Self::Pass) -> Result<Self::Pass, OutOfMemory>
        requires of { IsOf (home self.now) (state pass.old) }
        requires few { (state pass.old).passes < 16 }
        ensures ok { IfOk result (λ p. (state pass.new ≡ split_state (state pass.old)) × (state p ≡ new_state (home self.now) (state pass.old).passes)) }
        ensures err { OnErr result (state pass.new ≡ state pass.old) };

    /// Takes an own position, where it is ready and no other pass has it.
    fn take(&self, pass: &mut Self::Pass, t: u16) -> Take<Self::Taken>
        requires of { IsOf (home self.now) (state pass.old) }
        requires own { meant.is_own (home self.now).plan t ≡ true }
        ensures took { Took position result t (state pass.old) (state pass.new) };

    /// The value of each record that a held position reads, in the serial order.
    fn inputs(&self, pass: &mut Self::Pass, t: u16, out: &mut [u64; 16])
        requires of { IsOf (home self.now) (state pass.old) }
        requires held { IsHolding (state pass.old) t }
        ensures same { state pass.new ≡ state pass.old }
        ensures values { take (length (reads_at (home self.now).plan t)) out.new ≡ map (value_in (state_before (home self.now).plan t)) (reads_at (home self.now).plan t) }
        ensures range { (k : ℕ) → k < length (reads_at (home self.now).plan t) → slice_index out.new k ≤ max_value };

    /// Evaluates a taken position on what it reads.
    fn evaluate(table: &Table, txn: &Txn, inputs: &[u64; 16], taken: Self::Taken) -> Self::Evaluated
        requires table { IsLawfulTable (table_of table.now) }
        requires lawful { IsLawfulTxn (table_of table.now) txn.now }
        requires range { (k : ℕ) → k < length txn.now.reads → slice_index inputs.now k ≤ max_value }
        ensures position { (evaluation result).position ≡ position taken }
        ensures outcome { (s : State) → map (value_in s) txn.now.reads ≡ take (length txn.now.reads) inputs.now → (evaluation result).outcome ≡ outcome_in (table_of table.now) s txn.now };

    /// What it came to.
    fn outcome(evaluated: &Self::Evaluated) -> &Outcome
        ensures { result.now ≡ (evaluation evaluated.now).outcome };

    /// Finishes a held position with what its operation means on its inputs. `made` lists the positions whose need reached 0 by this call.
    fn finish(&self, pass: &mut Self::Pass, evaluated: Self::Evaluated, made: &mut Made)
        requires of { IsOf (home self.now) (state pass.old) }
        requires held { IsHolding (state pass.old) (evaluation evaluated).position }
        requires meant { (evaluation evaluated).outcome ≡ meant_at (home self.now).plan (evaluation evaluated).position }
        requires empty { made.old ≡ [] }
        ensures ended { Ended (evaluation evaluated).position (state pass.old) (state pass.new) made.new };

    /// The least duty that was not tried.
    fn untried(pass: &Self::Pass) -> Option<u16>
        ensures { MatchOption result (HasTried (state pass.now)) (IsLeastUntried (state pass.now)) };

    /// One pass of two, with the number of the first.
    fn join(&self, keep: Self::Pass, other: Self::Pass) -> Self::Pass
        requires of { IsOf (home self.now) (state keep) × IsOf (home self.now) (state other) }
        requires free { IsFree (state keep) × IsFree (state other) }
        ensures { state result ≡ joined_state (state keep) (state other) };

    /// What ran. No position that can run is left.
    fn close(self, pass: Self::Pass) -> Ran
        requires of { IsOf (home self) (state pass) }
        requires complete { IsComplete (state pass) }
        requires tried { HasTried (state pass) }
        requires free { IsFree (state pass) }
        ensures outcomes { result.outcomes ≡ meant.run_outcomes (home self).plan }
        ensures positions { map (λ s. s.t) result.trace ≡ meant.ran_positions (home self).plan }
        ensures trace { IsTraceOf (state pass) (map span_of result.trace) }
        ensures closed { closed (home self).plan result.outcomes (map span_of result.trace) };
}
