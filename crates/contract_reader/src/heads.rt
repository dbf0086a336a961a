//! How the next token goes on with the head of an operation.

ghost use Rattle.std.specs.Prelude.{◌≡◌, IfOk};
ghost use Rattle.contract_grammar.specs.Held.{operations};
ghost use Rattle.contract_grammar.specs.Grammar.{parameter};
ghost use Rattle.contract_grammar.specs.Modes.{on_op, on_op_name, on_open, on_first, on_param, on_colon, on_kind, on_more, with_param};
ghost use Rattle.contract_reader.specs.Views.{blocks_of, Goes};

use crate::state::{Mode, Nest, Purpose, Refusal};
use contract_grammar::{Head, Mark, Param, ParamKind, Token};
use std::alloc::Global;
use txn_types::{GrowingList, Name, OutOfMemory};

/// Takes the word that begins an operation.
pub fn on_op(token: &Token, nest: &Nest) -> Result<Mode, Refusal>
    ensures { Goes result nest.now (on_op token.now (blocks_of nest.now.blocks.items) (operations nest.now.done)) }
{
    match token {
        Token::Fixed(Mark::WordOp) => Ok(Mode::OpName),
        _ => Err(Refusal::Syntax),
    }
}

/// Takes an operation's name.
pub fn on_op_name(at: u32, token: &Token, nest: &Nest) -> Result<Mode, Refusal>
    ensures { Goes result nest.now (on_op_name at token.now (blocks_of nest.now.blocks.items) (operations nest.now.done)) }
{
    match token {
        Token::Named(name, _) => Ok(Mode::Open(at, name.copy())),
        _ => Err(Refusal::Syntax),
    }
}

/// Takes the parenthesis before the parameters.
pub fn on_open(
    alloc: Global,
    at: u32,
    name: Name,
    token: &Token,
    nest: &Nest,
) -> Result<Mode, Refusal>
    ensures { Goes result nest.now (on_open at name token.now (blocks_of nest.now.blocks.items) (operations nest.now.done)) }
{
    match token {
        Token::Open => Ok(Mode::First(Head {
            at,
            name,
            params: GrowingList::new(alloc),
        })),
        _ => Err(Refusal::Syntax),
    }
}

/// Takes the first parameter's name, or the parenthesis after no parameters.
pub fn on_first(head: Head, at: u32, token: &Token, nest: &Nest) -> Result<Mode, Refusal>
    ensures { Goes result nest.now (on_first head at token.now (blocks_of nest.now.blocks.items) (operations nest.now.done)) }
{
    match token {
        Token::Named(name, _) => Ok(Mode::Colon(head, at, name.copy())),
        Token::Close => Ok(Mode::Block(Purpose::Whole(head))),
        _ => Err(Refusal::Syntax),
    }
}

/// Takes a further parameter's name.
pub fn on_param(head: Head, at: u32, token: &Token, nest: &Nest) -> Result<Mode, Refusal>
    ensures { Goes result nest.now (on_param head at token.now (blocks_of nest.now.blocks.items) (operations nest.now.done)) }
{
    match token {
        Token::Named(name, _) => Ok(Mode::Colon(head, at, name.copy())),
        _ => Err(Refusal::Syntax),
    }
}

/// Takes the colon after a parameter's name.
pub fn on_colon(
    head: Head,
    at: u32,
    name: Name,
    token: &Token,
    nest: &Nest,
) -> Result<Mode, Refusal>
    ensures { Goes result nest.now (on_colon head at name token.now (blocks_of nest.now.blocks.items) (operations nest.now.done)) }
{
    match token {
        Token::Fixed(Mark::Colon) => Ok(Mode::Kind(head, at, name)),
        _ => Err(Refusal::Syntax),
    }
}

/// A head with a further parameter.
fn with_param(head: Head, at: u32, name: Name, kind: ParamKind) -> Result<Head, OutOfMemory>
    ensures { IfOk result (λ h. h ≡ with_param head (parameter at name kind)) }
{
    let mut head = head;
    head.params.push(Param { at, name, kind })?;
    Ok(head)
}

/// Takes a parameter's kind.
pub fn on_kind(head: Head, at: u32, name: Name, token: &Token, nest: &Nest) -> Result<Mode, Refusal>
    ensures { Goes result nest.now (on_kind head at name token.now (blocks_of nest.now.blocks.items) (operations nest.now.done)) }
{
    match token {
        Token::Fixed(Mark::WordRecord) => Ok(Mode::More(with_param(
            head,
            at,
            name,
            ParamKind::Record,
        )?)),
        Token::Fixed(Mark::WordNumber) => Ok(Mode::More(with_param(
            head,
            at,
            name,
            ParamKind::Number,
        )?)),
        _ => Err(Refusal::Syntax),
    }
}

/// Takes what is after a parameter: a comma, or the parenthesis.
pub fn on_more(head: Head, token: &Token, nest: &Nest) -> Result<Mode, Refusal>
    ensures { Goes result nest.now (on_more head token.now (blocks_of nest.now.blocks.items) (operations nest.now.done)) }
{
    match token {
        Token::Fixed(Mark::Comma) => Ok(Mode::Param(head)),
        Token::Close => Ok(Mode::Block(Purpose::Whole(head))),
        _ => Err(Refusal::Syntax),
    }
}
