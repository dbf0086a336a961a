//! The whole summary.

ghost use Rattle.std.specs.Prelude.{◌≤◌, IfOk};
ghost use Rattle.soak_text.specs.Summary.{IsSoakText};
ghost use Rattle.soak_text.specs.Played.{IsSoakWorld};

use crate::ledger_counts::tip;
use crate::lines::{push_chain, push_count, push_ledger, push_options, push_tip};
use crate::values::total;
use schedule_run::World;
use std::alloc::Global;
use txn_types::{Blocks, OutOfMemory, Text};

/// The summary of the world that a seed and a count of transactions make: the options, how many blocks are agreed and how many pairs of their transactions are dependent, how many transactions the first peer has as commits and as aborts, what its state sums up to, how many messages there were, and the hash of its last block.
pub fn soak_report(
    alloc: Global,
    world: &World<'_>,
    blocks: &Blocks,
    seed: u16,
    txns: u16,
) -> Result<Text, OutOfMemory>
    requires txns { (1 ≤ txns) × (txns ≤ 4096) }
    requires world { IsSoakWorld seed txns world.now blocks.now }
    ensures { IfOk result (IsSoakText seed txns) }
{
    let table = world.table();
    let peer = world.peer(0).unwrap();
    let mut text = Text::new(alloc);
    push_options(&mut text, seed, txns)?;
    push_chain(alloc, &mut text, table.kind, blocks.as_slice())?;
    push_ledger(&mut text, peer.ledger())?;
    push_count(&mut text, b"sum", total(peer.state().as_slice()))?;
    push_count(&mut text, b"messages", u128::from(world.messages()))?;
    push_tip(&mut text, &tip(table, peer.ledger()))?;
    Ok(text)
}
