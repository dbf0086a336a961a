//! What the positions of a plan come to.

ghost use Rattle.std.specs.Prelude.{◌≡◌, ◌<◌, ◌≤◌, ℕ, length, map, slice_index, take};
ghost use Rattle.txn_types.specs.Values.{max_value};
ghost use Rattle.oxii_defs.specs.State.{value_in};
ghost use Rattle.board_defs.specs.Closure.{IsLawfulPlan, Plan};
ghost use Rattle.board_work.specs.Scripts.{reads_at, state_before, meant_at};

use board_work::Work;

/// The positions of a plan, run on what they read.
pub trait Task {
    ghost plan: { Self → Plan };

    fn run<W: Work>(&self, t: u16, inputs: &[u64; 16], taken: W::Taken) -> W::Evaluated
        requires lawful { IsLawfulPlan (plan self.now) }
        requires place { t < length (plan self.now).txns }
        requires values { take (length (reads_at (plan self.now) t)) inputs.now ≡ map (value_in (state_before (plan self.now) t)) (reads_at (plan self.now) t) }
        requires range { (k : ℕ) → k < length (reads_at (plan self.now) t) → slice_index inputs.now k ≤ max_value }
        ensures position { (W.evaluation result).position ≡ W.position taken }
        ensures outcome { (W.evaluation result).outcome ≡ meant_at (plan self.now) t };
}
