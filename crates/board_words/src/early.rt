//! What the words hold of the known outcomes at the start.
ghost use Rattle.std.specs.Prelude.{◌≡◌, length, OnOk};
ghost use Rattle.board_work.specs.Plans.{plan_of};
ghost use Rattle.board_work.specs.Scripts.{AreHeld};
ghost use Rattle.board_steps.specs.Abouts.{HasRoom};
ghost use Rattle.board_words.specs.Filled.{IsBoardPlan, IsFilled};

use crate::values::{fill_values, known_values};
use crate::versions::fill_versions;
use board_work::{Layout, Plan};
use std::alloc::Global;
use txn_types::OutOfMemory;

/// Puts in the value of each record after the known outcomes, or the versions of the known writers.
pub(crate) fn fill_known(
    alloc: Global,
    words: &mut Vec<u64>,
    plan: &Plan<'_>,
    layout: Layout,
) -> Result<(), OutOfMemory>
    requires planned { IsBoardPlan layout plan.now }
    requires held { AreHeld (plan_of plan.now) }
    requires room { HasRoom (plan_of plan.now) (length words.old.items) }
    ensures { OnOk result (IsFilled layout (plan_of plan.now) words.old.items words.new.items) }
{
    let txns = plan.block.txns.as_slice();
    let known = plan.known.as_slice();
    match layout {
        Layout::Values => {
            let values = known_values(alloc, plan.base, txns, known)?;
            fill_values(words, &values);
        }
        Layout::Versions => fill_versions(words, txns, known),
    }
    Ok(())
}
