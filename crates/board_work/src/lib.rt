//! What runs the transactions of a block: the plan of a run, what the run came to, and the trait of all that several workers run a plan on.
#![tactic(auto)]

mod layout;
mod made;
mod plan;
mod work;

pub use board_core::Take;
pub use layout::Layout;
pub use made::Made;
pub use plan::{Own, Plan, Ran, Span, Spans};
pub use work::Work;
