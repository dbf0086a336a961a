//! Set-once versions: transactions of a block run along their dependencies, and no writer waits for an earlier reader or writer.
#![tactic(auto)]

mod slots;
mod walk;

pub use board_frame::{Made, Own, Pass, Plan, Ran, Span, Spans, Take, Work};
pub use slots::Slots;
