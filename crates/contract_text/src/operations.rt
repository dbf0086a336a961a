//! Operations, typed.

ghost use Rattle.std.specs.Prelude.{◌≡◌, ◌++◌, IfOk, OnOk, map};
ghost use Rattle.std.specs.List.{All};
ghost use Rattle.contract_grammar.specs.Held.{operation, operations};
ghost use Rattle.txn_core.specs.Meant.{kind_of, formal_of, op_of};
ghost use Rattle.contract_text.specs.Flaws.{noted, param_flaws, op_flaws, flaws_behind};
ghost use Rattle.contract_text.specs.Typed.{typed_kind, formal, typed_op};
ghost use Rattle.contract_text.specs.Room.{HasRoomInOp};

use crate::flaws::Flaw;
use crate::statements::{note_double, typed_block};
use crate::symbols::is_named;
use contract_grammar::{Operation, Param as RawParam, ParamKind as RawKind};
use std::alloc::Global;
use txn_core::{Op, Ops, Param, ParamKind, Params};
use txn_types::{Names, OutOfMemory};

/// Notes the first parameter whose name an earlier one has, after those of these names.
#[tactic(auto, using(crate::proofs::Noted::noted_both))]
fn find_params(
    seen: &mut Names,
    first: &mut Option<Flaw>,
    params: &[RawParam],
) -> Result<(), OutOfMemory>
    ensures { OnOk result (first.new ≡ noted first.old (param_flaws seen.old params.now)) }
{
    match params {
        [] => Ok(()),
        [param, rest @ ..] => {
            note_double(first, param.at, is_named(seen.as_slice(), &param.name));
            seen.push(param.name.copy())?;
            find_params(seen, first, rest)
        }
    }
}

fn typed_kind(kind: RawKind) -> ParamKind
    ensures { kind_of result ≡ typed_kind kind }
{
    match kind {
        RawKind::Record => ParamKind::Rec,
        RawKind::Number => ParamKind::Num,
    }
}

/// Puts the parameters after those that are there.
fn put_params(all: &mut Params, params: &[RawParam]) -> Result<(), OutOfMemory>
    ensures { OnOk result (map formal_of all.new ≡ map formal_of all.old ++ map formal params.now) }
{
    match params {
        [] => Ok(()),
        [param, rest @ ..] => {
            all.push(Param {
                name: param.name.copy(),
                kind: typed_kind(param.kind),
            })?;
            put_params(all, rest)
        }
    }
}

/// An operation; the first flaw but for its name is noted.
#[tactic(auto, using(crate::proofs::Noted::noted_both, crate::proofs::Forms::stmts_sequence))]
fn typed_op(alloc: Global, first: &mut Option<Flaw>, raw: &Operation) -> Result<Op, OutOfMemory>
    requires { HasRoomInOp (operation raw.now) }
    ensures typed { IfOk result (λ typed. op_of typed ≡ typed_op (operation raw.now)) }
    ensures flaws { OnOk result (first.new ≡ noted first.old (op_flaws (operation raw.now))) }
{
    let raw_params = raw.head.params.as_slice();
    find_params(&mut Names::new(alloc), first, raw_params)?;
    let mut params = Params::new(alloc);
    put_params(&mut params, raw_params)?;
    let mut locals = Names::new(alloc);
    let body = typed_block(alloc, raw_params, &mut locals, first, &raw.body)?;
    Ok(Op {
        name: raw.head.name.copy(),
        params,
        body,
    })
}

/// Puts the operations after those that are there, whose names are these; the first flaw is noted.
#[tactic(auto, using(crate::proofs::Noted::noted_both))]
pub fn put_ops(
    alloc: Global,
    seen: &mut Names,
    first: &mut Option<Flaw>,
    all: &mut Ops,
    raw: &[Operation],
) -> Result<(), OutOfMemory>
    requires { All (λ op. HasRoomInOp (operation op)) raw.now }
    ensures typed { OnOk result (map op_of all.new ≡ map op_of all.old ++ map typed_op (operations raw.now)) }
    ensures flaws { OnOk result (first.new ≡ noted first.old (flaws_behind seen.old (operations raw.now))) }
{
    match raw {
        [] => Ok(()),
        [op, rest @ ..] => {
            note_double(first, op.head.at, is_named(seen.as_slice(), &op.head.name));
            seen.push(op.head.name.copy())?;
            all.push(typed_op(alloc, first, op)?)?;
            put_ops(alloc, seen, first, all, rest)
        }
    }
}
