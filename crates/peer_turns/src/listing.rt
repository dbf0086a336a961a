//! The spans of one delivery.

ghost use Rattle.std.specs.Prelude.{◌≡◌, ◌++◌, OnOk};
ghost use Rattle.peer_turns.specs.Traces.{spans_listed};

use board_work::Spans;
use txn_types::{GrowingList, OutOfMemory};

/// The spans of the transactions of one block that ran in one delivery.
#[derive(Drop)]
pub struct BlockSpans {
    pub n: u64,
    pub spans: Spans,
}

pub type BlockSpansList = GrowingList<BlockSpans>;

/// Lists the spans of block `n`, if there are any.
pub fn list(all: &mut BlockSpansList, n: u64, spans: Spans) -> Result<(), OutOfMemory>
    ensures { OnOk result (all.new ≡ all.old ++ spans_listed n spans) }
{
    if spans.as_slice().is_empty() {
        return Ok(());
    }
    all.push(BlockSpans { n, spans })
}
