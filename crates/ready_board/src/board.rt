//! A frame whose words keep the value of each record.
ghost use Rattle.std.specs.Prelude.{◌≡◌};

use board_frame::{Evaluated, Frame, Layout, Made, Pass, Plan, Ran, Take, Taken, Work, evaluate};
use std::alloc::Global;
use std::marker::Model;
use txn_core::Table;
use txn_types::{OutOfMemory, Outcome, Txn};

/// A plan whose graph has every conflict, with one value word a record.
#[derive(Drop)]
pub struct Board {
    frame: Frame,
}

impl Model for Board {
    ghost use Rattle.std.specs.Coded.{codes};
    ghost use Rattle.txn_core.specs.contracts.syntax.Stmt as e;
    ghost use Rattle.board_work.specs.declared.layout.Layout.TheVariants.{Values};
    ghost use Rattle.board_steps.specs.Abouts.{IsLaidOut};
    ghost use Rattle.board_frame.specs.Frames.{Standing};

    ghost Value = { Standing };

    ghost coded = { Prim.hlevel (codes, e.the_row.coded) };

    ghost view = { λ b. b.frame };

    ghost invariant = { λ b. IsLaidOut Values b.frame.about };
}

impl Work for Board {
    ghost use Rattle.std.specs.Prelude.{false};
    ghost use Rattle.board_frame.specs.Seen.{pass_state};
    ghost use Rattle.board_frame.specs.Frames.{frame_home, IsFrameClosed};

    const RAW: bool = false;

    ghost RAW = { false };

    type Pass = Pass;

    type Taken = Taken;

    type Evaluated = Evaluated;

    ghost home = { frame_home };

    ghost state = { pass_state };

    ghost position = { λ x. x };

    ghost evaluation = { λ x. x };

    ghost closed = { IsFrameClosed };

    fn plan(alloc: Global, plan: &Plan<'_>) -> Result<(Board, Pass), OutOfMemory> {
        let (frame, pass) = Frame::open(alloc, plan, Layout::Values)?;
        Ok((Board { frame }, pass))
    }

    fn split(&self, alloc: Global, pass: &mut Pass) -> Result<Pass, OutOfMemory> {
        self.frame.split(alloc, pass)
    }

    fn take(&self, pass: &mut Pass, t: u16) -> Take<Taken> {
        self.frame.take(pass, t)
    }

    fn inputs(&self, pass: &mut Pass, t: u16, out: &mut [u64; 16]) {
        self.frame.inputs(pass, t, out)
    }

    fn evaluate(table: &Table, txn: &Txn, inputs: &[u64; 16], taken: Taken) -> Evaluated {
        evaluate(table, txn, inputs, taken)
    }

    fn outcome(evaluated: &Evaluated) -> &Outcome {
        evaluated.outcome()
    }

    fn finish(&self, pass: &mut Pass, evaluated: Evaluated, made: &mut Made) {
        self.frame.finish(pass, evaluated, made)
    }

    fn untried(pass: &Pass) -> Option<u16> {
        Frame::untried(pass)
    }

    fn join(&self, keep: Pass, other: Pass) -> Pass {
        self.frame.join(keep, other)
    }

    fn close(self, pass: Pass) -> Ran {
        self.frame.close(pass)
    }
}
