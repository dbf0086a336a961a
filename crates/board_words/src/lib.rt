//! What the words of a board hold: filled from a plan at the start, read at the close.
#![tactic(auto)]

mod closing;
mod early;
mod opening;
mod reading;
mod room;
mod values;
mod versions;

pub use closing::spans_of;
pub use opening::{Opening, opening_of};
pub use reading::{read_all, read_cell};
pub use room::{no_outcomes, no_spans, own_copy};
