//! The room for what a board keeps and gives.
ghost use Rattle.std.specs.Prelude.{◌≡◌, ℕ, length, slice_index_or, None, IfOk};

use board_work::{Own, Span, Spans};
use std::alloc::Global;
use txn_types::{Known, OutOfMemory};

/// A copy of the flags.
pub fn own_copy(alloc: Global, own: &[bool]) -> Result<Own, OutOfMemory>
    ensures { IfOk result (λ copied. copied ≡ own.now) }
{
    let mut copied = Own::new(alloc);
    for flag in own {
        copied.push(*flag)?;
    }
    Ok(copied)
}

/// So many positions without an outcome.
pub fn no_outcomes(alloc: Global, size: usize) -> Result<Known, OutOfMemory>
    ensures { IfOk result (λ known. (length known ≡ size) × ((t : ℕ) → slice_index_or known t None ≡ None)) }
{
    let mut known = Known::new(alloc);
    for _ in 0..size {
        known.push(None)?;
    }
    Ok(known)
}

/// The room for so many spans.
pub fn no_spans(alloc: Global, size: usize) -> Result<Spans, OutOfMemory>
    ensures { IfOk result (λ spans. length spans ≡ size) }
{
    let mut spans = Spans::new(alloc);
    for _ in 0..size {
        spans.push(Span {
            t: 0,
            worker: 0,
            begin: 0,
            finish: 0,
        })?;
    }
    Ok(spans)
}
