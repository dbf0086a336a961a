//! The start: a frame and its first pass.
ghost use Rattle.std.specs.Prelude.{◌≡◌, IfOk};
ghost use Rattle.board_core.specs.Steps.{first_view};
ghost use Rattle.board_work.specs.Scripts.{script_of};
ghost use Rattle.board_work.specs.Plans.{plan_of};
ghost use Rattle.board_words.specs.Filled.{IsBoardPlan};
ghost use Rattle.board_steps.specs.Abouts.{told, IsLaidOut};
ghost use Rattle.board_frame.specs.Frames.{IsPassOf};

use crate::frame::Frame;
use crate::pass::{Marks, Pass, no_marks};
use atomic_table::Table;
use board_steps::About;
use board_words::{Opening, no_outcomes, no_spans, opening_of, own_copy};
use board_work::{Layout, Plan};
use std::alloc::Global;
use std::snapshot::Snapshot;
use txn_types::{Copies, OutOfMemory};

// The plan as clauses see it.
fn about_of(plan: &Plan<'_>, layout: Layout) -> About
    ensures plan { told result ≡ plan_of plan.now }
    ensures layout { IsLaidOut layout result }
{
    About {
        table: Snapshot::of(plan.table),
        txns: Snapshot::of(&plan.block.txns),
        known: Snapshot::of(plan.known),
        own: Snapshot::of(plan.own),
        base: Snapshot::of(plan.base),
        layout: Snapshot::of(&layout),
    }
}

pub(crate) fn open_frame(
    alloc: Global,
    plan: &Plan<'_>,
    layout: Layout,
) -> Result<(Frame, Pass), OutOfMemory>
    requires planned { IsBoardPlan layout plan.now }
    ensures of { IfOk result (λ r. IsPassOf r.0 r.1) }
    ensures plan { IfOk result (λ r. told r.0.about ≡ plan_of plan.now) }
    ensures layout { IfOk result (λ r. IsLaidOut layout r.0.about) }
    ensures first { IfOk result (λ r. r.1.view ≡ first_view (script_of layout (plan_of plan.now))) }
{
    let size = plan.block.txns.len();
    let Opening { rows, words, duty } = opening_of(alloc, plan, layout)?;
    let Marks {
        tried,
        begins,
        runs,
    } = no_marks(alloc, size)?;
    let txns = plan.block.txns.copy(alloc)?;
    let own = own_copy(alloc, plan.own.as_slice())?;
    let outcomes = no_outcomes(alloc, size)?;
    let trace = no_spans(alloc, size)?;
    let about = about_of(plan, layout);
    let told = Snapshot::of(&about);
    let (table, seat) = Table::of_words(alloc, words.as_slice(), &about)?;
    let frame = Frame {
        table,
        about,
        layout,
        txns,
        own,
        rows,
        outcomes,
        trace,
    };
    let pass = Pass {
        seat,
        about: told,
        number: 0,
        passes: 1,
        duty,
        tried,
        begins,
        runs,
    };
    Ok((frame, pass))
}
