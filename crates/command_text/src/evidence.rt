//! Who was seen to say two different things, as printed.

ghost use Rattle.std.specs.Prelude.{◌≡◌, ◌<◌, ◌++◌, length, OnOk};
ghost use Rattle.node_defs.specs.World.{count_from};
ghost use Rattle.txn_core.specs.MeantTable.{table_of};
ghost use Rattle.world_laws.specs.Worlds.{peer_in};
ghost use Rattle.report_text.specs.EvidenceText.{evidence_lines};
ghost use Rattle.command_text.specs.Marked.{marked_lines, shown_lines, slot_lines};

use peer_core::Peer;
use report_text::evidence_part;
use schedule_run::World;
use std::alloc::Global;
use txn_core::Table;
use txn_types::{OutOfMemory, Text};

fn push_seen(
    alloc: Global,
    text: &mut Text,
    table: &Table,
    number: u8,
    peer: &Peer<'_>,
) -> Result<(), OutOfMemory>
    ensures { OnOk result (text.new ≡ text.old ++ evidence_lines (table_of table.now) number peer.now.inbox.marks peer.now.book.marks) }
{
    let evidence = peer.evidence();
    evidence_part(alloc, text, table, number, &evidence)
}

// The lines of a peer that isn't faulty, and nothing for a faulty one.
fn push_slot(
    alloc: Global,
    text: &mut Text,
    table: &Table,
    number: u8,
    slot: Option<&Peer<'_>>,
) -> Result<(), OutOfMemory>
    ensures { OnOk result (text.new ≡ text.old ++ slot_lines (table_of table.now) number (peer_in slot.entry)) }
{
    match slot {
        None => Ok(()),
        Some(peer) => push_seen(alloc, text, table, number, peer),
    }
}

// The lines of the peers that aren't faulty, in table order.
fn push_marked(alloc: Global, text: &mut Text, world: &World<'_>) -> Result<(), OutOfMemory>
    ensures { OnOk result (text.new ≡ text.old ++ marked_lines (table_of world.now.table) world.now.peers (count_from 0 (length world.now.table.peers))) }
{
    let table = world.table();
    let count = table.peers.as_slice().len() as u8;
    for number in 0..count {
        push_slot(alloc, text, table, number, world.peer(number))?;
    }
    Ok(())
}

/// Who was seen to say two different things, where it is asked for.
pub fn push_evidence(
    alloc: Global,
    text: &mut Text,
    world: &World<'_>,
    evidence: bool,
) -> Result<(), OutOfMemory>
    ensures { OnOk result (text.new ≡ text.old ++ shown_lines evidence world.now.table world.now.peers) }
{
    if evidence {
        push_marked(alloc, text, world)
    } else {
        Ok(())
    }
}
