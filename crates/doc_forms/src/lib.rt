//! The forms that a document's values have, each checked with its first fault, and tables of names.
#![tactic(auto)]

mod agents;
mod fault;
mod forms;
mod references;
mod sorted;
mod turns;
mod unused;

pub use agents::{AgentsAndTau, read_agents_and_tau};
pub use fault::{DocFault, Path, Step, Which};
pub use forms::{
    at, at_item, double_fault, field_fault, list_in, member, name, name_fault, number_in, object,
};
pub use references::{NamedTable, NewName, NewReference, NodeNames, Target, has_name, reference};
pub use sorted::SortedNames;
pub use turns::{Turn, each, items, list_at, name_at, number_at};
pub use unused::only;
