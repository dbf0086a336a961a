//! From a contract's text to its typed operations, or its first fault.

ghost use Rattle.std.specs.Prelude.{◌≡◌, ◌≤◌, IfErr, IfOk, length, map};
ghost use Rattle.std.specs.List.{All};
ghost use Rattle.contract_grammar.specs.Held.{operation, operations};
ghost use Rattle.contract_grammar.specs.Reading.{reading};
ghost use Rattle.oxii_defs.specs.WellFormed.{IsWellFormed};
ghost use Rattle.oxii_defs.specs.NameLists.{AllDiffer};
ghost use Rattle.txn_core.specs.Meant.{op_of};
ghost use Rattle.contract_text.specs.Laws.{AreLawfulOps};
ghost use Rattle.contract_text.specs.Room.{HasRoomInOp};
ghost use Rattle.contract_text.specs.Flaws.{first_flaw};
ghost use Rattle.contract_text.specs.TextMeaning.{IsContract};
ghost use Rattle.contract_text.specs.TextFaults.{HasTextFault, flawed};
ghost use Rattle.contract_text.specs.Verdict.{judged, told, verdict, GivesVerdict};

use crate::faults::{Contract, TextFault};
use crate::flaws::{Flaw, FlawKind};
use crate::operations::put_ops;
use contract_reader::{Operation, ReadFault, read};
use std::alloc::Global;
use txn_core::Ops;
use txn_types::Names;

/// A flaw as a fault.
fn fault_of(flaw: Flaw) -> TextFault
    ensures { GivesVerdict (Err result) (flawed flaw) }
{
    let at = flaw.at;
    match flaw.kind {
        FlawKind::Double => TextFault::Double { at },
        FlawKind::UnknownName => TextFault::UnknownName { at },
        FlawKind::Kind => TextFault::Kind { at },
    }
}

/// The second pass over the operations of a text.
fn judge(alloc: Global, raw: &[Operation]) -> Result<Contract, TextFault>
    requires { All (λ op. HasRoomInOp (operation op)) raw.now }
    ensures { GivesVerdict result (judged (first_flaw (operations raw.now)) (operations raw.now)) }
{
    let mut first = None;
    let mut ops = Ops::new(alloc);
    let Ok(()) = put_ops(alloc, &mut Names::new(alloc), &mut first, &mut ops, raw) else {
        return Err(TextFault::OutOfMemory);
    };
    match first {
        Some(flaw) => Err(fault_of(flaw)),
        None => Ok(Contract { ops }),
    }
}

/// A text of at most 65,536 bytes, by its verdict.
fn read_exactly(alloc: Global, text: &[u8]) -> Result<Contract, TextFault>
    requires { length text.now ≤ 65536 }
    ensures { GivesVerdict result (verdict text.now) }
{
    match read(alloc, text) {
        Ok(raw) => judge(alloc, raw.as_slice()),
        Err(ReadFault::Syntax { at }) => Err(TextFault::Syntax { at }),
        Err(ReadFault::Limit { at }) => Err(TextFault::Limit { at }),
        Err(ReadFault::OutOfMemory) => Err(TextFault::OutOfMemory),
    }
}

/// The contract that a text of at most 65,536 bytes is, or its first fault.
pub fn read_contract(alloc: Global, text: &str) -> Result<Contract, TextFault>
    requires { length text.now ≤ 65536 }
    // The verdict on the text, unless memory runs out.
    ensures exact { GivesVerdict result (verdict text.now) }
    // The text spells operations within the limits, without flaws, and the contract has what they stand for.
    ensures contract { IfOk result (λ contract. IsContract text.now (map op_of contract.ops)) }
    // A fault is the first one, at its byte.
    ensures fault { IfErr result (HasTextFault text.now) }
    // Each operation is well formed.
    ensures fine { IfOk result (λ contract. All IsWellFormed (map op_of contract.ops)) }
    // No two operations have one name.
    ensures names { IfOk result (λ contract. AllDiffer (map (λ op. op.name) (map op_of contract.ops))) }
    ensures count { IfOk result (λ contract. length contract.ops ≤ 16) }
    // The operations can be those of an application.
    ensures lawful { IfOk result (λ contract. AreLawfulOps (map op_of contract.ops)) }
{
    read_exactly(alloc, text.as_bytes())
}
