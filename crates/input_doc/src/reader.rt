//! From bytes to what they mean.

ghost use Rattle.std.specs.Prelude.{◌≡◌, ◌⊎◌, ◌≤◌, IfOk, IfErr};
ghost use Rattle.serde_json.specs.View.{view};
ghost use Rattle.contract_text.specs.Verdict.{verdict};
ghost use Rattle.doc_forms.specs.declared.fault.DocFault.TheVariants as fault;
ghost use Rattle.doc_forms.specs.Answers.{Gives};
ghost use Rattle.input_doc.specs.LawfulInputs.{IsLawfulInput};
ghost use Rattle.input_doc.specs.Held.{input_of};
ghost use Rattle.input_doc.specs.Reading.{document, reading};
ghost use Rattle.input_doc.specs.Means.{Means};
ghost use Rattle.input_doc.specs.ExactlyOne.{ExactlyOne, GivesTree};
ghost use Rattle.input_doc.specs.FirstFaults.{IsFaultOf};

use crate::head::read_head;
use crate::input::Input;
use crate::stream_and_schedule::{read_faulty_schedule, read_items};
use crate::tables::read_tables;
use doc_forms::{DocFault, object};
use serde_json::Value;
use std::alloc::Global;

// The tree of the bytes.
fn tree(alloc: Global, bytes: &[u8]) -> Result<Value, DocFault>
    ensures { GivesTree bytes.now result }
{
    match Value::from_slice(alloc, bytes) {
        Ok(value) => Ok(value),
        Err(e) => {
            if e.is_memory() {
                Err(DocFault::OutOfMemory)
            } else {
                Err(DocFault::NotJson)
            }
        }
    }
}

#[tactic(auto, unfolding(crate::specs::Reading::document))]
fn read_document(alloc: Global, root: &Value) -> Result<Input, DocFault>
    ensures { Gives input_of result (document verdict (view root.now)) }
{
    let members = object(alloc, Some(root))?;
    let head = read_head(alloc, members)?;
    let tables = read_tables(alloc, head.kind, members)?;
    let items = read_items(alloc, &tables, members)?;
    let (table, genesis) = tables.into_table(alloc)?;
    let faulty_schedule = read_faulty_schedule(alloc, &table, items.as_slice(), members)?;
    Ok(Input {
        table,
        genesis,
        items,
        limits: head.limits,
        faulty: faulty_schedule.faulty,
        schedule: faulty_schedule.schedule,
    })
}

#[tactic(auto, unfolding(crate::specs::Reading::reading))]
fn read_exactly(alloc: Global, bytes: &[u8]) -> Result<Input, DocFault>
    ensures { Gives input_of result (reading verdict bytes.now) }
{
    let root = tree(alloc, bytes)?;
    read_document(alloc, &root)
}

/// What the bytes of a document mean, or its first fault in the order of the checks.
pub fn read_input(alloc: Global, bytes: &[u8]) -> Result<Input, DocFault>
    // What the document says, key by key.
    ensures meaning { IfOk result (λ input. Means bytes.now (input_of input)) }
    // A fault is the first one, at its place; want of memory alone is free.
    ensures fault { IfErr result (λ f. (f ≡ fault.OutOfMemory) ⊎ IsFaultOf bytes.now f) }
    // Each document has either a meaning or a fault, and one of it; what it means is lawful.
    ensures exactly_one { ExactlyOne bytes.now }
    // All that the calls that are given an input ask for.
    ensures lawful { IfOk result (λ input. IsLawfulInput (input_of input)) }
{
    read_exactly(alloc, bytes)
}
