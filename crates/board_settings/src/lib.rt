//! For tests of what runs a plan: plans of the blocks of documents, of which all is to be run, and the calls on a pass with what a row says of their answers.
#![tactic(auto)]

mod calls;
mod documents;
mod settings;
mod task;
mod turns;

pub use calls::{Want, misses, runs, takes, written};
pub use documents::{
    ANTI_DEPENDENCY, RAW_ANTI_DEPENDENCY, READ_FIRST, RELAY, RELAYED, WRITERS, WRITTEN_FIRST,
    WRITTEN_IN_TURN,
};
pub use settings::{Setting, set_up};
pub use task::Task;
pub use turns::ran_in_turn;
