//! What a run of the program came to: its status, with its number and its line.

ghost use Rattle.std.specs.Prelude.{◌≡◌, ◌++◌, decimal, IfOk, OnOk};
ghost use Rattle.par_top.specs.Statuses.{which_word, text_fault_word, byte_of, path_text, fault_text, line_of, code_of};
ghost use Rattle.par_top.specs.Sayable.{CanBeSaid, CanSay};

use crate::paths::push_path;
use crate::{DocFault, Path, Which};
use contract_text::TextFault;
use report_text::push_number;
use std::alloc::Global;
use txn_types::{OutOfMemory, Text};

/// What a run of the program came to.
#[derive(Drop)]
pub enum Status {
    /// The document was read to its end and the whole text was written.
    Ok,
    /// The words are no command.
    Usage,
    /// The document has this fault, which is never one of memory.
    Refused(DocFault),
    /// Memory ran out.
    OutOfMemory,
    /// The source failed.
    ReadFault,
    /// The sink failed.
    WriteFault,
}

impl From<OutOfMemory> for Status {
    ghost use Rattle.std.specs.Prelude.{◌≡◌};
    ghost use Rattle.par_top.specs.declared.status.Status.TheVariants as status;

    ghost from_gives = { λ _ s. s ≡ status.OutOfMemory };

    fn from(_: OutOfMemory) -> Status {
        Status::OutOfMemory
    }
}

/// The number that the program ends with: 0, or 2 to 6.
pub fn status_code(status: &Status) -> u8
    ensures { result ≡ code_of status.now }
{
    match status {
        Status::Ok => 0,
        Status::Usage => 2,
        Status::Refused(_) => 3,
        Status::OutOfMemory => 4,
        Status::ReadFault => 5,
        Status::WriteFault => 6,
    }
}

fn which_word(which: Which) -> &'static [u8]
    ensures { result.now ≡ which_word which }
{
    match which {
        Which::Document => b"document",
        Which::Cut => b"cut",
        Which::Records => b"records",
        Which::Value => b"value",
        Which::Orderers => b"orderers",
        Which::Quorum => b"quorum",
        Which::Peers => b"peers",
        Which::Apps => b"apps",
        Which::Items => b"items",
        Which::Faulty => b"faulty",
        Which::Schedule => b"schedule",
        Which::Agents => b"agents",
        Which::Tau => b"tau",
        Which::Clients => b"clients",
        Which::Contract => b"contract",
        Which::Transactions => b"transactions",
        Which::Args => b"args",
        Which::Set => b"set",
        Which::All => b"all",
        Which::False => b"false",
        Which::Msg => b"msg",
        Which::Number => b"number",
        Which::Txns => b"txns",
        Which::Item => b"item",
        Which::Preds => b"preds",
        Which::Block => b"block",
        Which::Votes => b"votes",
        Which::Txn => b"txn",
        Which::Out => b"out",
        Which::FalseTxns => b"false_txns",
        Which::FalseVotes => b"false_votes",
        Which::Configs => b"configs",
    }
}

fn text_fault_word(fault: TextFault) -> &'static [u8]
    ensures { result.now ≡ text_fault_word fault }
{
    match fault {
        TextFault::Syntax { .. } => b"syntax",
        TextFault::UnknownName { .. } => b"unknown_name",
        TextFault::Kind { .. } => b"kind",
        TextFault::Limit { .. } => b"limit",
        TextFault::Double { .. } => b"double",
        TextFault::OutOfMemory => b"",
    }
}

// The byte where a text's fault stands.
fn byte_of(fault: TextFault) -> u32
    ensures { result ≡ byte_of fault }
{
    match fault {
        TextFault::Syntax { at } => at,
        TextFault::UnknownName { at } => at,
        TextFault::Kind { at } => at,
        TextFault::Limit { at } => at,
        TextFault::Double { at } => at,
        TextFault::OutOfMemory => 0,
    }
}

fn push_limit(text: &mut Text, which: Which, limit: u64) -> Result<(), OutOfMemory>
    ensures { OnOk result (text.new ≡ text.old ++ fault_text (DocFault.Limit which limit)) }
{
    text.append(b"limit ")?;
    text.append(which_word(which))?;
    text.append(b" ")?;
    push_number(text, limit)
}

fn push_contract(text: &mut Text, app: u32, fault: TextFault) -> Result<(), OutOfMemory>
    ensures { OnOk result (text.new ≡ text.old ++ fault_text (DocFault.Contract app fault)) }
{
    text.append(b"contract ")?;
    push_number(text, u64::from(app))?;
    text.append(b" ")?;
    text.append(text_fault_word(fault))?;
    text.append(b" ")?;
    push_number(text, u64::from(byte_of(fault)))
}

// A word, and the path.
fn push_placed(text: &mut Text, word: &[u8], path: &Path) -> Result<(), OutOfMemory>
    ensures { OnOk result (text.new ≡ text.old ++ word.now ++ path_text path.now) }
{
    text.append(word)?;
    push_path(text, path.as_slice())
}

fn push_fault(text: &mut Text, fault: &DocFault) -> Result<(), OutOfMemory>
    requires { CanBeSaid fault.now }
    ensures { OnOk result (text.new ≡ text.old ++ fault_text fault.now) }
{
    match fault {
        DocFault::NotJson => text.append(b"not json"),
        DocFault::Field { path } => push_placed(text, b"field ", path),
        DocFault::Limit { which, limit } => push_limit(text, *which, *limit),
        DocFault::Contract { app, fault } => push_contract(text, *app, *fault),
        DocFault::Name { path } => push_placed(text, b"name ", path),
        DocFault::Double { path } => push_placed(text, b"double ", path),
        DocFault::OutOfMemory => Ok(()),
    }
}

fn push_refused(text: &mut Text, fault: &DocFault) -> Result<(), OutOfMemory>
    requires { CanBeSaid fault.now }
    ensures { OnOk result (text.new ≡ text.old ++ line_of (Status.Refused fault.now)) }
{
    text.append(b"parblock: refused: ")?;
    push_fault(text, fault)?;
    text.append(b"\n")
}

/// The line for standard error, with its line feed; none for `Status::Ok`.
pub fn status_line(alloc: Global, status: &Status) -> Result<Text, OutOfMemory>
    requires { CanSay status.now }
    ensures { IfOk result (λ line. line ≡ line_of status.now) }
{
    let mut line = Text::new(alloc);
    match status {
        Status::Ok => {}
        Status::Usage => line.append(b"parblock: usage\n")?,
        Status::Refused(fault) => push_refused(&mut line, fault)?,
        Status::OutOfMemory => line.append(b"parblock: out of memory\n")?,
        Status::ReadFault => line.append(b"parblock: read fault\n")?,
        Status::WriteFault => line.append(b"parblock: write fault\n")?,
    }
    Ok(line)
}
