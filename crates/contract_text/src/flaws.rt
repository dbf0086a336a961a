//! Flaws of names and kinds, of which the first is kept.

ghost use Rattle.std.specs.Prelude.{◌≡◌, [], ◌∷◌};
ghost use Rattle.contract_text.specs.Flaws.{rank, is_before, earlier, noted, flaw, kind_flaws, operand_kind, result_kind};

use contract_grammar::Operator;

/// What an expression is: a number, or a truth value.
#[derive(Clone, Copy, Debug, PartialEq, Eq)]
pub enum ValueKind {
    Number,
    Truth,
}

/// What is wrong with a name or an expression.
#[derive(Clone, Copy, Debug, PartialEq, Eq)]
pub enum FlawKind {
    /// The name is taken.
    Double,
    /// The name is no parameter and no visible local.
    UnknownName,
    /// The expression isn't of the expected kind, or the name's value can't change.
    Kind,
}

/// A fault of the second pass, with its byte from 0.
#[derive(Clone, Copy, Debug, PartialEq, Eq)]
pub struct Flaw {
    pub at: u32,
    pub kind: FlawKind,
}

fn rank(kind: FlawKind) -> u8
    ensures { result ≡ rank kind }
{
    match kind {
        FlawKind::Double => 0,
        FlawKind::UnknownName => 1,
        FlawKind::Kind => 2,
    }
}

fn is_before(one: Flaw, other: Flaw) -> bool
    ensures { result ≡ is_before one other }
{
    one.at < other.at || one.at == other.at && rank(one.kind) < rank(other.kind)
}

/// Keeps the earlier one of this flaw and the first so far.
pub fn note(first: &mut Option<Flaw>, at: u32, kind: FlawKind)
    ensures { first.new ≡ noted first.old (flaw at kind ∷ []) }
{
    let flaw = Flaw { at, kind };
    match *first {
        Some(other) => {
            if is_before(flaw, other) {
                *first = Some(flaw);
            }
        }
        None => *first = Some(flaw),
    }
}

/// Notes an expression of another kind than the expected one.
pub fn note_kind(first: &mut Option<Flaw>, at: u32, has: ValueKind, wanted: ValueKind)
    ensures { first.new ≡ noted first.old (kind_flaws has wanted at) }
{
    match (has, wanted) {
        (ValueKind::Number, ValueKind::Number) | (ValueKind::Truth, ValueKind::Truth) => {}
        (ValueKind::Number, ValueKind::Truth) | (ValueKind::Truth, ValueKind::Number) => {
            note(first, at, FlawKind::Kind);
        }
    }
}

/// The kind of an operator's operands.
pub fn operand_kind(op: Operator) -> ValueKind
    ensures { result ≡ operand_kind op }
{
    match op {
        Operator::Or | Operator::And => ValueKind::Truth,
        Operator::Equal
        | Operator::NotEqual
        | Operator::Less
        | Operator::LessEqual
        | Operator::Greater
        | Operator::GreaterEqual
        | Operator::Plus
        | Operator::Minus
        | Operator::Times
        | Operator::Divide
        | Operator::Remainder => ValueKind::Number,
    }
}

/// The kind of what an operator gives.
pub fn result_kind(op: Operator) -> ValueKind
    ensures { result ≡ result_kind op }
{
    match op {
        Operator::Plus
        | Operator::Minus
        | Operator::Times
        | Operator::Divide
        | Operator::Remainder => ValueKind::Number,
        Operator::Or
        | Operator::And
        | Operator::Equal
        | Operator::NotEqual
        | Operator::Less
        | Operator::LessEqual
        | Operator::Greater
        | Operator::GreaterEqual => ValueKind::Truth,
    }
}
