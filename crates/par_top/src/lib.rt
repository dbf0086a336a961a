//! The top call: from command words and a document's bytes to the printed text.
#![tactic(auto)]

mod document;
mod paths;
mod status;
mod top;

pub use command_text::{FreeGate, Gate, graph_report, report};
pub use input_doc::{DocFault, Path, Step, Which};
pub use status::{Status, status_code, status_line};
pub use top::run;
