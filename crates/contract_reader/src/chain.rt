//! Chains of operators: whether the 33rd of one was read.

ghost use Rattle.std.specs.Prelude.{◌≡◌, nat_le};
ghost use Rattle.contract_grammar.specs.Held.{tree};
ghost use Rattle.contract_grammar.specs.Limits.{chain_length, is_chain};
ghost use Rattle.contract_grammar.specs.Reading.{is_chain_end, ends_chain};
ghost use Rattle.contract_reader.specs.Views.{mode_of, partial_of};

use crate::expression::level;
use crate::state::{Mode, Partial, Pending};
use contract_grammar::{Expr, Operator};

/// Whether a chain of this level has so many operators.
fn reaches(own: u8, e: &Expr, count: u8) -> bool
    ensures { result ≡ nat_le count (chain_length own (tree e.now)) }
{
    if count == 0 {
        return true;
    }
    match e {
        Expr::Binary(_, op, a, _) => level(*op) == own && reaches(own, a, count - 1),
        Expr::Number(_, _) | Expr::Named { .. } | Expr::Not(_, _) => false,
    }
}

/// Whether operators like it make chains.
fn is_chain(op: Operator) -> bool
    ensures { result ≡ is_chain op }
{
    level(op) != 3
}

/// Whether the operator that was just read is the 33rd of its chain.
fn is_chain_end(partial: &Partial) -> bool
    ensures { result ≡ is_chain_end (partial_of partial.now) }
{
    if partial.operand.is_some() {
        return false;
    }
    match partial.pending.last() {
        Some(Pending::Left(op, e)) => is_chain(*op) && reaches(level(*op), e, 32),
        Some(Pending::Group(_)) | Some(Pending::Not(_)) | None => false,
    }
}

/// The same of any mode.
pub fn ends_chain(mode: &Mode) -> bool
    ensures { result ≡ ends_chain (mode_of mode.now) }
{
    match mode {
        Mode::Expr(_, partial) => is_chain_end(partial),
        _ => false,
    }
}
