//! Positions, which a document numbers from 1.

ghost use Rattle.std.specs.Prelude.{◌<◌, IfOk};
ghost use Rattle.doc_forms.specs.Answers.{Gives};
ghost use Rattle.doc_forms.specs.Forms.{seen};
ghost use Rattle.doc_schedule.specs.Places.{place_in};

use doc_forms::{DocFault, Which, number_in};
use serde_json::Value;
use std::alloc::Global;

/// A number from 1 on, as a position from 0.
#[tactic(auto, using(doc_forms::proofs::Meant::number_means), unfolding(crate::specs::Places::place_in))]
pub fn place_in(
    alloc: Global,
    high: u64,
    which: Which,
    value: Option<&Value>,
) -> Result<u64, DocFault>
    ensures check { Gives (λ i. i) result (place_in high which (seen value.entry)) }
    ensures bound { IfOk result (λ i. i < high) }
{
    let n = number_in(alloc, 1, high, which, value)?;
    Ok(n - 1)
}

/// A position in a block, of which there are at most 256.
pub fn position(alloc: Global, which: Which, value: Option<&Value>) -> Result<u16, DocFault>
    ensures { Gives (λ i. i) result (place_in 256 which (seen value.entry)) }
{
    let place = place_in(alloc, 256, which, value)?;
    Ok(place as u16)
}
