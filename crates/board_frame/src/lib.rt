//! What the passes of a plan work on: the words under their rule, and the calls that both boards have.
#![tactic(auto)]

mod frame;
mod opening;
mod pass;
mod taken;

pub use board_work::{Layout, Made, Own, Plan, Ran, Span, Spans, Take, Work};
pub use frame::Frame;
pub use pass::Pass;
pub use taken::{Evaluated, Taken, evaluate};
