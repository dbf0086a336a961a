//! A frame whose words keep a version for each record of each writer.
ghost use Rattle.std.specs.Prelude.{◌≡◌, ◌<◌, ◌≤◌, ℕ, true, length, map, take, slice_index};
ghost use Rattle.txn_types.specs.Values.{max_value};
ghost use Rattle.oxii_defs.specs.State.{value_in, contains};
ghost use Rattle.board_core.specs.Passes.{IsHeld};
ghost use Rattle.board_work.specs.PassStates.{IsOf, IsHolding};
ghost use Rattle.board_work.specs.Scripts.{reads_at, writes_at, state_before, outcome_at, gives};
ghost use Rattle.board_steps.specs.Abouts.{told};
ghost use Rattle.board_frame.specs.Seen.{pass_state};
ghost use Rattle.board_frame.specs.Frames.{IsPassOf, frame_home};

use crate::walk::place_of;
use board_frame::{Evaluated, Frame, Layout, Made, Pass, Plan, Ran, Take, Taken, Work, evaluate};
use board_words::read_cell;
use std::alloc::Global;
use std::marker::Model;
use txn_core::Table;
use txn_types::{Copies, OutOfMemory, Outcome, Txn, Values};

/// A plan with a graph of either kind, with a word for the version that each writer gives each record, which is set once, and the values before the block.
#[derive(Drop)]
pub struct Slots {
    frame: Frame,
    base: Values,
}

impl Model for Slots {
    ghost use Rattle.std.specs.Coded.{codes};
    ghost use Rattle.txn_core.specs.contracts.syntax.Stmt as e;
    ghost use Rattle.std.specs.Prelude.{◌≡◌, length};
    ghost use Rattle.txn_core.specs.States.{state_of};
    ghost use Rattle.board_work.specs.declared.layout.Layout.TheVariants.{Versions};
    ghost use Rattle.board_steps.specs.Abouts.{told, IsLaidOut};
    ghost use Rattle.board_frame.specs.Frames.{Standing};

    ghost Value = { Standing };

    ghost coded = { Prim.hlevel (codes, e.the_row.coded) };

    ghost view = { λ b. b.frame };

    ghost invariant = { λ b. IsLaidOut Versions b.frame.about × (state_of b.base ≡ (told b.frame.about).base) × (length b.base ≡ length (told b.frame.about).table.records) };
}

impl Slots {
    // What an earlier position gives a record that a held position reads.
    fn given_by(&self, pass: &mut Pass, t: usize, x: usize, r: u16) -> Option<u64>
        requires of { IsPassOf self.now pass.old }
        requires held { IsHeld pass.old.view t }
        requires earlier { x < t }
        requires reads { contains (reads_at (told self.now.about) t) r ≡ true }
        ensures of { IsPassOf self.now pass.new }
        ensures same { pass.new.view ≡ pass.old.view }
        ensures given { result ≡ gives (outcome_at (told self.now.about) x) (writes_at (told self.now.about) x) r }
    {
        self.frame.stands();
        self.frame.holds(pass, t);
        let writes = self.frame.txns()[x].writes.as_slice();
        let Some(j) = place_of(writes, r) else {
            return None;
        };
        read_cell(self.frame.part_at(pass, t, x, j + 1))
    }

    // The value of a record that a held position reads: that of the nearest earlier writer that wrote it, or the base.
    fn value_before(&self, pass: &mut Pass, t: usize, r: u16) -> u64
        requires of { IsPassOf self.now pass.old }
        requires held { IsHeld pass.old.view t }
        requires reads { contains (reads_at (told self.now.about) t) r ≡ true }
        ensures of { IsPassOf self.now pass.new }
        ensures same { pass.new.view ≡ pass.old.view }
        ensures value { result ≡ value_in (state_before (told self.now.about) t) r }
    {
        self.frame.stands();
        self.frame.holds(pass, t);
        for d in 0..t {
            if let Some(value) = self.given_by(pass, t, t - 1 - d, r) {
                return value;
            }
        }
        self.base.as_slice()[r as usize]
    }

    // The value of each record that a held position reads.
    fn inputs_at(&self, pass: &mut Pass, t: usize, out: &mut [u64; 16])
        requires of { IsPassOf self.now pass.old }
        requires held { IsHeld pass.old.view t }
        ensures of { IsPassOf self.now pass.new }
        ensures same { pass.new.view ≡ pass.old.view }
        ensures values { take (length (reads_at (told self.now.about) t)) out.new ≡ map (value_in (state_before (told self.now.about) t)) (reads_at (told self.now.about) t) }
        ensures range { (k : ℕ) → k < length (reads_at (told self.now.about) t) → slice_index out.new k ≤ max_value }
    {
        self.frame.stands();
        self.frame.holds(pass, t);
        let reads = self.frame.held_txn(pass, t).reads.as_slice();
        for k in 0..reads.len() {
            out[k] = self.value_before(pass, t, reads[k]);
        }
    }
}

impl Work for Slots {
    ghost use Rattle.std.specs.Prelude.{true};
    ghost use Rattle.board_frame.specs.Seen.{pass_state};
    ghost use Rattle.board_frame.specs.Frames.{frame_home, IsFrameClosed};

    const RAW: bool = true;

    ghost RAW = { true };

    type Pass = Pass;

    type Taken = Taken;

    type Evaluated = Evaluated;

    ghost home = { frame_home };

    ghost state = { pass_state };

    ghost position = { λ x. x };

    ghost evaluation = { λ x. x };

    ghost closed = { IsFrameClosed };

    fn plan(alloc: Global, plan: &Plan<'_>) -> Result<(Slots, Pass), OutOfMemory> {
        let base = plan.base.copy(alloc)?;
        let (frame, pass) = Frame::open(alloc, plan, Layout::Versions)?;
        Ok((Slots { frame, base }, pass))
    }

    fn split(&self, alloc: Global, pass: &mut Pass) -> Result<Pass, OutOfMemory> {
        self.frame.split(alloc, pass)
    }

    fn take(&self, pass: &mut Pass, t: u16) -> Take<Taken> {
        self.frame.take(pass, t)
    }

    fn inputs(&self, pass: &mut Pass, t: u16, out: &mut [u64; 16]) {
        self.inputs_at(pass, t as usize, out)
    }

    fn evaluate(table: &Table, txn: &Txn, inputs: &[u64; 16], taken: Taken) -> Evaluated {
        evaluate(table, txn, inputs, taken)
    }

    fn outcome(evaluated: &Evaluated) -> &Outcome {
        evaluated.outcome()
    }

    fn finish(&self, pass: &mut Pass, evaluated: Evaluated, made: &mut Made) {
        self.frame.finish(pass, evaluated, made)
    }

    fn untried(pass: &Pass) -> Option<u16> {
        Frame::untried(pass)
    }

    fn join(&self, keep: Pass, other: Pass) -> Pass {
        self.frame.join(keep, other)
    }

    fn close(self, pass: Pass) -> Ran {
        self.frame.close(pass)
    }
}
