//! The printed lines: a peer's ledger and state, the agreed blocks with their graphs, and what is around them.
#![tactic(auto)]

mod burst;
mod evidence;
mod graph;
mod lines;
mod peer;
mod report_parts;
mod state;

pub use graph::{push_graph_block, push_rejects};
pub use lines::{push_blocks_line, push_entry_lines, push_number, push_peer_line, push_tail};
pub use report_parts::{burst_part, evidence_part, head, peer_part, tail};
pub use state::push_state;
