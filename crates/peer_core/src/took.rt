//! What one delivery came to.

use peer_laws::Note;
use peer_turns::BlockSpansList;
use txn_types::Commits;

/// What one delivery came to: its note, the COMMITs that are sent, and for each block of which transactions ran their spans, in block order.
#[derive(Drop)]
pub struct Took {
    pub note: Note,
    pub sent: Commits,
    pub spans: BlockSpansList,
}
