//! The printed text of a world.

ghost use Rattle.std.specs.Prelude.{◌≡◌, ◌<◌, ◌++◌, ℕ, List, [], length, OnOk, IfOk, IfSome, if◌then◌else◌};
ghost use Rattle.std.specs.List.{flat_map};
ghost use Rattle.txn_types.specs.declared.event.Event as event;
ghost use Rattle.txn_types.specs.declared.message.Node.TheVariants as node;
ghost use Rattle.oxii_defs.specs.State.{State};
ghost use Rattle.node_defs.specs.Log.{Log};
ghost use Rattle.node_defs.specs.Programs.{rules_of};
ghost use Rattle.node_defs.specs.World as meant;
ghost use Rattle.node_defs.specs.World.{Setting, IsWorld, count_from, is_faulty, peers_of};
ghost use Rattle.node_defs.specs.Text as printed;
ghost use Rattle.node_defs.specs.Text.{part_of, parts_of};
ghost use Rattle.txn_core.specs.MeantTable.{table_of};
ghost use Rattle.peer_turns.specs.Relation.{StandsFor};
ghost use Rattle.world_laws.specs.Shown.{IsPeerFor, IsShown};
ghost use Rattle.world_laws.specs.Worlds.{IsWorldOf, peer_in};
ghost use Rattle.command_text.specs.Evident.{IsShownOf};
ghost use Rattle.command_text.specs.Traced.{bursts_lines, trace_lines};

use crate::evidence::push_evidence;
use peer_core::Peer;
use report_text::{burst_part, head, peer_part, tail};
use schedule_run::{Burst, World};
use std::alloc::Global;
use txn_core::Table;
use txn_types::{OutOfMemory, Rejects, Text};

// The lines of a peer.
fn push_peer(
    alloc: Global,
    text: &mut Text,
    table: &Table,
    number: u8,
    peer: &Peer<'_>,
) -> Result<(), OutOfMemory>
    requires table { peer.now.table ≡ table.now }
    requires number { number < length table.now.peers }
    ensures { OnOk result ((genesis : State) (s : Setting) (L : Log) → s.rules ≡ rules_of (table_of table.now) genesis → peer.now.me ≡ number → StandsFor peer.now genesis L → text.new ≡ text.old ++ part_of s number L) }
{
    peer_part(
        alloc,
        text,
        table,
        number,
        peer.ledger(),
        peer.state(),
        peer.halted(),
    )?;
    Ok(())
}

// The lines of a peer that isn't faulty, and nothing for a faulty one.
fn push_slot(
    alloc: Global,
    text: &mut Text,
    table: &Table,
    number: u8,
    slot: Option<&Peer<'_>>,
) -> Result<(), OutOfMemory>
    requires table { IfSome slot (λ p. p.now.table ≡ table.now) }
    requires number { number < length table.now.peers }
    ensures { OnOk result ((genesis : State) (s : Setting) (L : Log) → s.rules ≡ rules_of (table_of table.now) genesis → IsPeerFor table.now genesis s number L (peer_in slot.entry) → text.new ≡ text.old ++ (if is_faulty s (node.Peer number) then [] else part_of s number L)) }
{
    match slot {
        None => Ok(()),
        Some(peer) => push_peer(alloc, text, table, number, peer),
    }
}

// The lines of the peers that aren't faulty, in table order.
fn push_parts(alloc: Global, text: &mut Text, world: &World<'_>) -> Result<(), OutOfMemory>
    ensures { OnOk result ((genesis : State) (s : Setting) (v : meant.World) → IsShown world.now.table world.now.pool world.now.idle world.now.peers genesis s v → text.new ≡ text.old ++ parts_of s v (count_from 0 (peers_of s))) }
{
    let table = world.table();
    let count = table.peers.as_slice().len() as u8;
    for number in 0..count {
        push_slot(alloc, text, table, number, world.peer(number))?;
    }
    Ok(())
}

// The lines of bursts, in order.
fn push_bursts(
    alloc: Global,
    text: &mut Text,
    table: &Table,
    bursts: &[Burst],
) -> Result<(), OutOfMemory>
    ensures { OnOk result (text.new ≡ text.old ++ bursts_lines (table_of table.now) bursts.now) }
{
    for burst in bursts {
        burst_part(
            alloc,
            text,
            table,
            burst.peer,
            burst.spans.n,
            &burst.spans.spans,
        )?;
    }
    Ok(())
}

// What ran, where it is traced.
fn push_trace(
    alloc: Global,
    text: &mut Text,
    world: &World<'_>,
    trace: bool,
) -> Result<(), OutOfMemory>
    ensures { OnOk result (text.new ≡ text.old ++ trace_lines trace (table_of world.now.table) world.now.bursts) }
{
    if trace {
        push_bursts(alloc, text, world.table(), world.bursts().as_slice())
    } else {
        Ok(())
    }
}

/// The printed text of a world: the rejected requests, how many blocks are agreed, the ledger and state of each peer that isn't faulty, and how many messages and idle deliveries there were; after that, where it is asked for, who was seen to say two different things; and after that, where it is traced, what ran.
pub fn report(
    alloc: Global,
    world: &World<'_>,
    rejected: &Rejects,
    blocks: u64,
    evidence: bool,
    trace: bool,
) -> Result<Text, OutOfMemory>
    ensures { IfOk result (λ lines. (genesis : State) (s : Setting) (events : List event.Event) → length s.chain ≡ blocks → IsWorldOf world.now genesis s events → (v : meant.World) × (shown : List ℕ) × IsWorld s events v × IsShownOf evidence s v shown × (lines ≡ printed.text s rejected.now v ++ shown ++ trace_lines trace (table_of world.now.table) world.now.bursts)) }
{
    let mut text = Text::new(alloc);
    head(alloc, &mut text, rejected, blocks)?;
    push_parts(alloc, &mut text, world)?;
    tail(alloc, &mut text, world.messages(), world.idle())?;
    push_evidence(alloc, &mut text, world, evidence)?;
    push_trace(alloc, &mut text, world, trace)?;
    Ok(text)
}
