//! The first flaw of an expression.

ghost use Rattle.std.specs.Prelude.{◌≡◌, ◌≤◌, length};
ghost use Rattle.contract_grammar.specs.Held.{tree};
ghost use Rattle.contract_text.specs.Flaws.{noted, expr_flaws};

use crate::flaws::{Flaw, FlawKind, ValueKind, note, note_kind, operand_kind, result_kind};
use crate::symbols::symbol_of;
use contract_grammar::{Expr, Param};
use txn_types::Name;

/// Notes the first flaw of an expression of which a kind is expected.
#[tactic(auto, using(crate::proofs::Noted::noted_both))]
pub fn find(
    params: &[Param],
    locals: &[Name],
    wanted: ValueKind,
    e: &Expr,
    first: &mut Option<Flaw>,
)
    requires params { length params.now ≤ 16 }
    requires locals { length locals.now ≤ 32 }
    ensures { first.new ≡ noted first.old (expr_flaws params.now locals.now wanted (tree e.now)) }
{
    match e {
        Expr::Number(at, _) => note_kind(first, *at, ValueKind::Number, wanted),
        Expr::Named { at, own, name } => match symbol_of(params, locals, name) {
            Some(_) => note_kind(first, *at, ValueKind::Number, wanted),
            None => note(first, *own, FlawKind::UnknownName),
        },
        Expr::Not(at, a) => {
            note_kind(first, *at, ValueKind::Truth, wanted);
            find(params, locals, ValueKind::Truth, a, first);
        }
        Expr::Binary(at, op, a, b) => {
            let operands = operand_kind(*op);
            note_kind(first, *at, result_kind(*op), wanted);
            find(params, locals, operands, a, first);
            find(params, locals, operands, b, first);
        }
    }
}
