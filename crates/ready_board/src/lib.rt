//! The board: transactions of a block run along their dependencies by several passes at once, without a lock.
#![tactic(auto)]

mod board;

pub use board::Board;
pub use board_frame::{Made, Own, Pass, Plan, Ran, Span, Spans, Take, Work};
