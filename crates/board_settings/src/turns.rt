//! What a run of positions one after another comes to.

use crate::calls::Want;
use board_work::{Ran, Span};
use row_trouble::Trouble;
use txn_types::Outcome;

fn committed(outcome: &Option<Outcome>, want: &Want) -> bool {
    matches!(outcome, Some(Outcome::Commit(entries)) if entries.as_slice() == [want.wrote].as_slice())
}

// The span of a position, where the positions ran in order.
fn is_in_turn(span: &Span, t: usize) -> bool {
    let begin = 2 * (span.t as u64);
    span.t as usize == t && span.begin == begin && span.finish == begin + 1
}

/// Each position came to a commit of its value, and they ran one after another; else `Trouble::Answer`.
pub fn ran_in_turn(ran: &Ran, wanted: &[Want]) -> Result<(), Trouble> {
    if ran.outcomes.len() != wanted.len() || ran.trace.len() != wanted.len() {
        return Err(Trouble::Answer);
    }
    for (outcome, want) in ran.outcomes.as_slice().iter().zip(wanted) {
        if !committed(outcome, want) {
            return Err(Trouble::Answer);
        }
    }
    for (t, span) in ran.trace.as_slice().iter().enumerate() {
        if !is_in_turn(span, t) {
            return Err(Trouble::Answer);
        }
    }
    Ok(())
}
