//! Operations: name, parameters and block.

ghost use Rattle.std.specs.Prelude.{◌≡◌, ◌≤◌, ℕ, List, length, IfOk, OnOk, map};
ghost use Rattle.txn_core.specs.Meant.{kind_of, formal_of, op_of};
ghost use Rattle.contract_text.specs.TextMeaning.{IsContract};
ghost use Rattle.contract_printer.specs.Plain.{plain_kind, plain_param, plain_op};
ghost use Rattle.contract_printer.specs.Printed.{kind_word, printed_param, printed_more, printed_params, printed_head, printed_op, printed_ops};
ghost use Rattle.contract_printer.specs.Canonical.{canonical};
ghost use Rattle.contract_printer.specs.SpacedTexts.{put_all, blank};

use crate::spaced_text::SpacedText;
use crate::statements::put_block;
use contract_grammar::Mark;
use contract_text::Contract;
use std::alloc::Global;
use txn_core::{Op, Param, ParamKind};
use txn_types::{Names, OutOfMemory, Text};

fn kind_word(kind: ParamKind) -> Mark
    ensures { result ≡ kind_word (plain_kind (kind_of kind)) }
{
    match kind {
        ParamKind::Rec => Mark::WordRecord,
        ParamKind::Num => Mark::WordNumber,
    }
}

/// Writes a parameter.
fn put_param(out: &mut SpacedText, param: &Param) -> Result<(), OutOfMemory>
    ensures { OnOk result (out.new ≡ put_all out.old (printed_param (plain_param (formal_of param.now)))) }
{
    out.put_name(param.name.as_slice())?;
    out.put_mark(Mark::Colon)?;
    out.put_mark(kind_word(param.kind))
}

/// Writes further parameters.
#[tactic(auto, using(crate::proofs::Forms::put_both))]
fn put_more(out: &mut SpacedText, params: &[Param]) -> Result<(), OutOfMemory>
    ensures { OnOk result (out.new ≡ put_all out.old (printed_more (map plain_param (map formal_of params.now)))) }
{
    match params {
        [] => Ok(()),
        [param, rest @ ..] => {
            out.put_mark(Mark::Comma)?;
            put_param(out, param)?;
            put_more(out, rest)
        }
    }
}

/// Writes the parameters of an operation.
#[tactic(auto, using(crate::proofs::Forms::put_both))]
fn put_params(out: &mut SpacedText, params: &[Param]) -> Result<(), OutOfMemory>
    ensures { OnOk result (out.new ≡ put_all out.old (printed_params (map plain_param (map formal_of params.now)))) }
{
    match params {
        [] => Ok(()),
        [param, rest @ ..] => {
            put_param(out, param)?;
            put_more(out, rest)
        }
    }
}

/// Writes what is before an operation's block.
#[tactic(auto, using(crate::proofs::Forms::put_both))]
fn put_head(out: &mut SpacedText, op: &Op) -> Result<(), OutOfMemory>
    ensures { OnOk result (out.new ≡ put_all out.old (printed_head (plain_op (op_of op.now)).head)) }
{
    out.put_mark(Mark::WordOp)?;
    out.put_name(op.name.as_slice())?;
    out.open()?;
    put_params(out, op.params.as_slice())?;
    out.close()
}

/// Writes operations.
#[tactic(auto, using(crate::proofs::Forms::put_both))]
fn put_ops(alloc: Global, out: &mut SpacedText, ops: &[Op]) -> Result<(), OutOfMemory>
    ensures { OnOk result (out.new ≡ put_all out.old (printed_ops (map plain_op (map op_of ops.now)))) }
{
    match ops {
        [] => Ok(()),
        [op, rest @ ..] => {
            put_head(out, op)?;
            put_block(
                out,
                op.params.as_slice(),
                &mut Names::new(alloc),
                op.body.as_slice(),
            )?;
            put_ops(alloc, out, rest)
        }
    }
}

/// Operations as a text.
#[tactic(auto, using(crate::proofs::SpacedTexts::written), unfolding(crate::specs::Canonical::canonical))]
fn print_ops(alloc: Global, ops: &[Op]) -> Result<Text, OutOfMemory>
    ensures { IfOk result (λ t. t ≡ canonical (map op_of ops.now)) }
{
    let mut out = SpacedText::new(alloc);
    put_ops(alloc, &mut out, ops)?;
    Ok(out.into_text())
}

/// The canonical text of a contract that came from a text.
pub fn print_contract(alloc: Global, contract: &Contract) -> Result<Text, OutOfMemory>
    // The contract came from a text.
    requires { (text : List ℕ) × IsContract text (map op_of contract.now.ops) }
    ensures canonical { IfOk result (λ t. t ≡ canonical (map op_of contract.now.ops)) }
    // The text is one of the same contract.
    ensures reads { IfOk result (λ t. IsContract t (map op_of contract.now.ops)) }
    // No text of this contract is shorter.
    ensures shortest { IfOk result (λ t. (other : List ℕ) → IsContract other (map op_of contract.now.ops) → length t ≤ length other) }
{
    print_ops(alloc, contract.ops.as_slice())
}
