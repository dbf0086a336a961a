//! The printed lines of a state.

ghost use Rattle.std.specs.Prelude.{◌≡◌, ◌≤◌, ◌<◌, ◌++◌, ◌+◌, length, codes, OnOk};
ghost use Rattle.oxii_defs.specs.State.{value_in};
ghost use Rattle.oxii_defs.specs.Lines.{values_count, value_line, value_lines, state_lines};
ghost use Rattle.txn_core.specs.MeantTable.{table_of};
ghost use Rattle.txn_core.specs.States.{state_of};

use crate::push_number;
use txn_core::Table;
use txn_types::{Name, OutOfMemory, Text, Values};

// How many records have a value other than 0.
#[tactic(auto, using(crate::proofs::LineSteps::count_next, crate::proofs::LineSteps::count_end))]
fn values_count(names: &[Name], values: &[u64]) -> u64
    requires { length values.now ≡ length names.now }
    ensures { result ≡ values_count (state_of values.now) 0 names.now }
{
    let mut count = 0u64;
    for i in 0..names.len() {
        if values[i] != 0 {
            count += 1;
        }
    }
    count
}

fn push_value(text: &mut Text, name: &Name, value: u64) -> Result<(), OutOfMemory>
    ensures { OnOk result (text.new ≡ text.old ++ value_line name.now value) }
{
    if value == 0 {
        return Ok(());
    }
    text.append(b"value ")?;
    text.append(name.as_slice())?;
    text.append(b" ")?;
    push_number(text, value)?;
    text.append(b"\n")
}

// Each record whose value isn't 0, in order of their numbers.
#[tactic(auto, using(crate::proofs::LineSteps::lines_next, crate::proofs::LineSteps::lines_end))]
fn push_values(text: &mut Text, names: &[Name], values: &[u64]) -> Result<(), OutOfMemory>
    requires { length values.now ≡ length names.now }
    ensures { OnOk result (text.new ≡ text.old ++ value_lines (state_of values.now) 0 names.now) }
{
    for i in 0..names.len() {
        push_value(text, &names[i], values[i])?;
    }
    Ok(())
}

/// The lines of a state: how many values aren't 0, and each of them.
#[tactic(auto, unfolding(oxii_defs::specs::Lines::state_lines))]
pub fn push_state(text: &mut Text, table: &Table, values: &Values) -> Result<(), OutOfMemory>
    requires { length values.now ≡ length table.now.records }
    ensures { OnOk result (text.new ≡ text.old ++ state_lines (table_of table.now) (state_of values.now)) }
{
    let names = table.records.as_slice();
    let values = values.as_slice();
    text.append(b"state ")?;
    push_number(text, values_count(names, values))?;
    text.append(b"\n")?;
    push_values(text, names, values)
}
