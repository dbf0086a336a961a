//! Paths into a document, as they are printed.

ghost use Rattle.std.specs.Prelude.{◌≡◌, ◌++◌, map, OnOk};
ghost use Rattle.std.specs.List.{flat_map};
ghost use Rattle.par_top.specs.Statuses.{printed_byte, key_text, step_text, first_text, path_text};

use crate::Step;
use report_text::push_number;
use txn_types::{OutOfMemory, Text};

fn printed_byte(byte: u8) -> u8
    ensures { result ≡ printed_byte byte }
{
    if b'a' <= byte && byte <= b'z' || b'0' <= byte && byte <= b'9' || byte == b'_' {
        byte
    } else {
        b'?'
    }
}

fn push_key(text: &mut Text, key: &[u8]) -> Result<(), OutOfMemory>
    ensures { OnOk result (text.new ≡ text.old ++ key_text key.now) }
{
    for byte in key {
        text.push(printed_byte(*byte))?;
    }
    Ok(())
}

fn push_index(text: &mut Text, index: u32) -> Result<(), OutOfMemory>
    ensures { OnOk result (text.new ≡ text.old ++ first_text (Step.Index index)) }
{
    text.append(b"[")?;
    push_number(text, u64::from(index))?;
    text.append(b"]")
}

fn push_first(text: &mut Text, step: &Step) -> Result<(), OutOfMemory>
    ensures { OnOk result (text.new ≡ text.old ++ first_text step.now) }
{
    match step {
        Step::Key(key) => push_key(text, key.as_slice()),
        Step::Index(index) => push_index(text, *index),
    }
}

fn push_step(text: &mut Text, step: &Step) -> Result<(), OutOfMemory>
    ensures { OnOk result (text.new ≡ text.old ++ step_text step.now) }
{
    match step {
        Step::Key(key) => {
            text.append(b".")?;
            push_key(text, key.as_slice())
        }
        Step::Index(index) => push_index(text, *index),
    }
}

fn push_steps(text: &mut Text, steps: &[Step]) -> Result<(), OutOfMemory>
    ensures { OnOk result (text.new ≡ text.old ++ flat_map step_text steps.now) }
{
    for step in steps {
        push_step(text, step)?;
    }
    Ok(())
}

/// The steps of a path; the root is a dot.
pub fn push_path(text: &mut Text, steps: &[Step]) -> Result<(), OutOfMemory>
    ensures { OnOk result (text.new ≡ text.old ++ path_text steps.now) }
{
    match steps {
        [] => text.append(b"."),
        [first, rest @ ..] => {
            push_first(text, first)?;
            push_steps(text, rest)
        }
    }
}
