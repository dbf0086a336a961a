//! What names stand for.

ghost use Rattle.std.specs.Prelude.{◌≡◌, ◌+◌, ◌≤◌, length};
ghost use Rattle.oxii_defs.specs.NameLists.{is_named};
ghost use Rattle.contract_text.specs.Symbols.{parameter_symbol, among_params, among_locals, symbol_of};

use contract_grammar::{Param, ParamKind};
use txn_types::Name;

/// What a name stands for: a record parameter or a number parameter by its position from the left, or a local by its position among the visible ones, the oldest first.
#[derive(Clone, Copy, Debug, PartialEq, Eq)]
pub enum Symbol {
    Rec(u8),
    Num(u8),
    Local(u8),
}

fn parameter_symbol(kind: ParamKind, place: u8) -> Symbol
    ensures { result ≡ parameter_symbol kind place }
{
    match kind {
        ParamKind::Record => Symbol::Rec(place),
        ParamKind::Number => Symbol::Num(place),
    }
}

fn among_params(place: u8, params: &[Param], name: &Name) -> Option<Symbol>
    requires { place + length params.now ≤ 32 }
    ensures { result ≡ among_params place params.now name.now }
{
    match params {
        [] => None,
        [first, rest @ ..] => {
            if first.name.as_slice() == name.as_slice() {
                return Some(parameter_symbol(first.kind, place));
            }
            among_params(place + 1, rest, name)
        }
    }
}

fn among_locals(place: u8, locals: &[Name], name: &Name) -> Option<Symbol>
    requires { place + length locals.now ≤ 32 }
    ensures { result ≡ among_locals place locals.now name.now }
{
    match locals {
        [] => None,
        [first, rest @ ..] => {
            if first.as_slice() == name.as_slice() {
                return Some(Symbol::Local(place));
            }
            among_locals(place + 1, rest, name)
        }
    }
}

/// What a name stands for, or none where it isn't known.
pub fn symbol_of(params: &[Param], locals: &[Name], name: &Name) -> Option<Symbol>
    requires params { length params.now ≤ 16 }
    requires locals { length locals.now ≤ 32 }
    ensures { result ≡ symbol_of params.now locals.now name.now }
{
    match among_params(0, params, name) {
        Some(symbol) => Some(symbol),
        None => among_locals(0, locals, name),
    }
}

/// Whether one of these names is this one.
pub fn is_named(names: &[Name], name: &Name) -> bool
    ensures { result ≡ is_named names.now name.now }
{
    match names {
        [] => false,
        [first, rest @ ..] => first.as_slice() == name.as_slice() || is_named(rest, name),
    }
}
