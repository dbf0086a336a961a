//! The reading of a contract's text, token by token.

ghost use Rattle.std.specs.Prelude.{◌≡◌, ◌≤◌, IfErr, IfOk, length};
ghost use Rattle.contract_grammar.specs.Held.{operations};
ghost use Rattle.contract_grammar.specs.Lexer.{tokens};
ghost use Rattle.contract_grammar.specs.Grammar.{SpellsContract};
ghost use Rattle.contract_grammar.specs.Modes.{advance, at_end};
ghost use Rattle.contract_grammar.specs.Limits.{IsWithinLimits};
ghost use Rattle.contract_grammar.specs.Reading.{ending, reading};
ghost use Rattle.contract_reader.specs.Views.{at_of, Goes};
ghost use Rattle.contract_reader.specs.Exact.{GivesReading, HasReadFault};

use crate::chain::ends_chain;
use crate::counts::{Counts, count, passes};
use crate::fault::ReadFault;
use crate::state::{Mode, Nest, Refusal};
use crate::{heads, statements};
use contract_grammar::{Operations, Placed, tokens};
use std::alloc::Global;
use txn_types::GrowingList;

/// Takes the next token.
#[tactic(auto, unfolding(contract_grammar::specs::Modes::advance))]
fn advance(alloc: Global, mode: Mode, nest: &mut Nest, placed: &Placed) -> Result<Mode, Refusal>
    ensures { Goes result nest.new (advance (at_of mode nest.old) placed.now) }
{
    let at = placed.span.start;
    let token = &placed.token;
    match mode {
        Mode::Op => heads::on_op(token, nest),
        Mode::OpName => heads::on_op_name(at, token, nest),
        Mode::Open(begun, name) => heads::on_open(alloc, begun, name, token, nest),
        Mode::First(head) => heads::on_first(head, at, token, nest),
        Mode::Param(head) => heads::on_param(head, at, token, nest),
        Mode::Colon(head, begun, name) => heads::on_colon(head, begun, name, token, nest),
        Mode::Kind(head, begun, name) => heads::on_kind(head, begun, name, token, nest),
        Mode::More(head) => heads::on_more(head, token, nest),
        Mode::Block(purpose) => statements::on_block(purpose, token, nest),
        Mode::Stmt => statements::on_stmt(alloc, at, token, nest),
        Mode::Let => statements::on_let(at, token, nest),
        Mode::Equals(purpose) => statements::on_equals(alloc, purpose, token, nest),
        Mode::Expr(purpose, partial) => {
            statements::on_expr(alloc, purpose, partial, at, token, nest)
        }
        Mode::Count => statements::on_count(token, nest),
        Mode::Else(e, yes) => statements::on_else(alloc, e, yes, at, token, nest),
    }
}

/// The operations at the end of a text of this length.
#[tactic(auto, unfolding(contract_grammar::specs::Modes::at_end))]
fn end(mode: Mode, nest: Nest, len: u32) -> Result<Operations, ReadFault>
    ensures { GivesReading result (ending len (at_end (at_of mode nest))) }
{
    let Nest { blocks: _, done } = nest;
    match mode {
        Mode::Op => {
            if done.len() == 0 {
                Err(ReadFault::Syntax { at: len })
            } else {
                Ok(done)
            }
        }
        _ => Err(ReadFault::Syntax { at: len }),
    }
}

/// The operations of a contract's text.
fn read_exactly(alloc: Global, text: &[u8]) -> Result<Operations, ReadFault>
    requires { length text.now ≤ 65536 }
    ensures { GivesReading result (reading text.now) }
{
    let Ok(all) = tokens(alloc, text) else {
        return Err(ReadFault::OutOfMemory);
    };
    let mut mode = Mode::Op;
    let mut nest = Nest {
        blocks: Vec::new(alloc),
        done: GrowingList::new(alloc),
    };
    let mut counts = Counts::new(alloc);
    for placed in all.as_slice() {
        let at = placed.span.start;
        let over = passes(&counts, placed);
        mode = match advance(alloc, mode, &mut nest, placed) {
            Ok(next) => next,
            Err(Refusal::Syntax) => return Err(ReadFault::Syntax { at }),
            Err(Refusal::OutOfMemory) => return Err(ReadFault::OutOfMemory),
        };
        if over || ends_chain(&mode) {
            return Err(ReadFault::Limit { at });
        }
        let Ok(()) = count(&mut counts, placed) else {
            return Err(ReadFault::OutOfMemory);
        };
    }
    end(mode, nest, text.len() as u32)
}

/// The operations of a contract's text of at most 65,536 bytes, or its first fault.
pub fn read(alloc: Global, text: &[u8]) -> Result<Operations, ReadFault>
    requires { length text.now ≤ 65536 }
    // The reading of the text, unless memory runs out.
    ensures exact { GivesReading result (reading text.now) }
    // What is read is spelled so, within the limits.
    ensures contract { IfOk result (λ ops. SpellsContract (tokens text.now) (operations ops) × IsWithinLimits (tokens text.now)) }
    // A fault is the first one, at its byte.
    ensures fault { IfErr result (HasReadFault text.now) }
{
    read_exactly(alloc, text)
}
