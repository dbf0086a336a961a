//! The whole input.

ghost use Rattle.std.specs.Prelude.{◌≡◌, ◌≤◌, [], ◌∷◌, IfOk};
ghost use Rattle.txn_types.specs.declared.event.Event.TheVariants as event;
ghost use Rattle.input_doc.specs.LawfulInputs.{IsLawfulInput};
ghost use Rattle.input_doc.specs.Held.{input_of};
ghost use Rattle.soak_input.specs.Generator.{IsSoakInput};

use crate::payments::stream;
use crate::tables::{genesis, table};
use input_doc::Input;
use std::alloc::Global;
use txn_types::{CutLimits, Event, Events, NodeSet, OutOfMemory};

// Each message comes to each peer.
fn schedule(alloc: Global) -> Result<Events, OutOfMemory>
    ensures { IfOk result (λ events. events ≡ event.All ∷ []) }
{
    let mut events = Events::new(alloc);
    events.push(Event::All)?;
    Ok(events)
}

/// The input that the command `soak` runs for a seed and a count of transactions.
pub fn soak_input(alloc: Global, seed: u16, txns: u16) -> Result<Input, OutOfMemory>
    requires txns { (1 ≤ txns) × (txns ≤ 4096) }
    // What the seed makes, to the last part.
    ensures made { IfOk result (λ input. IsSoakInput seed txns (input_of input)) }
    // All that the calls that are given an input ask for.
    ensures lawful { IfOk result (λ input. IsLawfulInput (input_of input)) }
{
    Ok(Input {
        table: table(alloc)?,
        genesis: genesis(alloc)?,
        items: stream(alloc, seed, txns)?,
        limits: CutLimits {
            txns: 256,
            bytes: 1_048_576,
        },
        faulty: NodeSet::empty(),
        schedule: schedule(alloc)?,
    })
}
