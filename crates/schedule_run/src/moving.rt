//! What an event makes of a scene.

ghost use Rattle.std.specs.Prelude.{ℕ, ◌≡◌, ◌<◌, ◌≤◌, ◌^◌, ◌+◌, [], ◌∷◌, length, OnOk};
ghost use Rattle.oxii_defs.specs.Lawful.{IsLawfulBody};
ghost use Rattle.txn_types.specs.Values.{max_false};
ghost use Rattle.txn_types.specs.declared.event.Event.TheVariants as event;
ghost use Rattle.txn_core.specs.MeantTable.{table_of};
ghost use Rattle.node_defs.specs.Sayings.{config_named, txns_named};
ghost use Rattle.world_laws.specs.Shown.{idles};
ghost use Rattle.world_laws.specs.Worlds.{CanTake, Follows, IsWellKept, with_said};
ghost use Rattle.schedule_run.specs.declared.basis.Basis as basis;
ghost use Rattle.schedule_run.specs.Scenes.{world_of};

use crate::basis::Basis;
use crate::each::{give_all, give_one};
use crate::scene::Scene;
use message_pool::{Letter, said_block, said_newblock};
use std::alloc::Global;
use std::thread::Threads;
use steal_pool::Gate;
use txn_types::{Commit, Copies, Event, Items, Message, Node, OutOfMemory, Preds};

/// Each message comes to each peer that isn't faulty.
fn all<'t, R: Threads + Sync, G: Gate>(
    rt: &R,
    alloc: Global,
    basis: &Basis<'t>,
    scene: &mut Scene<'t>,
    workers: u8,
    gate: &G,
) -> Result<(), OutOfMemory>
    requires kept { IsWellKept (world_of basis.now scene.old) }
    requires workers { (1 ≤ workers) × (workers ≤ 16) }
    ensures kept { OnOk result (IsWellKept (world_of basis.now scene.new)) }
    ensures follows { OnOk result (Follows workers (world_of basis.now scene.old) (event.All ∷ []) (world_of basis.now scene.new)) }
{
    give_all(
        rt,
        alloc,
        basis.table,
        scene.peers.as_mut_slice(),
        &mut scene.pool,
        &mut scene.bursts,
        workers,
        gate,
    )?;
    Ok(())
}

/// One more idle delivery, or not.
fn idles(idly: bool, idle: u32) -> u32
    requires { idle + 1 < 2 ^ 32 }
    ensures { result ≡ idles idly idle }
{
    if idly { idle + 1 } else { idle }
}

/// Message `msg`, from 1, comes to peer `to`.
fn deliver<'t, R: Threads + Sync, G: Gate>(
    rt: &R,
    alloc: Global,
    basis: &Basis<'t>,
    scene: &mut Scene<'t>,
    msg: u32,
    to: u8,
    workers: u8,
    gate: &G,
) -> Result<(), OutOfMemory>
    requires kept { IsWellKept (world_of basis.now scene.old) }
    requires to { to < length basis.now.table.now.peers }
    requires idle { scene.old.idle + 1 < 2 ^ 32 }
    requires workers { (1 ≤ workers) × (workers ≤ 16) }
    ensures kept { OnOk result (IsWellKept (world_of basis.now scene.new)) }
    ensures follows { OnOk result (Follows workers (world_of basis.now scene.old) (event.Deliver msg to ∷ []) (world_of basis.now scene.new)) }
{
    let idly = give_one(
        rt,
        alloc,
        basis.table,
        scene.peers.as_mut_slice(),
        &mut scene.pool,
        &mut scene.bursts,
        msg,
        to,
        workers,
        gate,
    )?;
    scene.idle = idles(idly, scene.idle);
    Ok(())
}

/// A node sends a message, which names so many items.
fn said(scene: &mut Scene, from: Node, message: Message, named: u32) -> Result<(), OutOfMemory>
    requires falses { scene.old.falses + 1 ≤ max_false }
    requires items { scene.old.items + named ≤ 16384 }
    ensures { OnOk result ((b : basis.Basis) → world_of b scene.new ≡ with_said (world_of b scene.old) from message named) }
{
    scene.pool.push(Letter::new(from, message))?;
    scene.falses += 1;
    scene.items += named;
    Ok(())
}

/// A node says a block of items of the stream.
fn say_block<'t>(
    alloc: Global,
    basis: &Basis<'t>,
    scene: &mut Scene<'t>,
    from: Node,
    number: u64,
    prev: Option<[u8; 32]>,
    items: &Items,
    preds: Option<Preds>,
) -> Result<(), OutOfMemory>
    requires kept { IsWellKept (world_of basis.now scene.old) }
    requires body { IsLawfulBody (table_of basis.now.table.now) (txns_named basis.now.pieces items.now) (config_named basis.now.pieces items.now) }
    requires falses { scene.old.falses + 1 ≤ max_false }
    requires items { scene.old.items + length items.now ≤ 16384 }
    ensures kept { OnOk result (IsWellKept (world_of basis.now scene.new)) }
    ensures follows { OnOk result ((workers : ℕ) → Follows workers (world_of basis.now scene.old) (event.SayBlock from number prev items.now preds ∷ []) (world_of basis.now scene.new)) }
{
    let block = said_block(alloc, &basis.hashes, &basis.pieces, number, prev, items)?;
    let message = said_newblock(alloc, basis.table.kind, block, preds)?;
    said(scene, from, message, items.len() as u32)?;
    Ok(())
}

/// A node says results.
fn say_commit<'t>(
    basis: &Basis<'t>,
    scene: &mut Scene<'t>,
    from: Node,
    commit: Commit,
) -> Result<(), OutOfMemory>
    requires kept { IsWellKept (world_of basis.now scene.old) }
    requires falses { scene.old.falses + 1 ≤ max_false }
    requires items { scene.old.items ≤ 16384 }
    ensures kept { OnOk result (IsWellKept (world_of basis.now scene.new)) }
    ensures follows { OnOk result ((workers : ℕ) → Follows workers (world_of basis.now scene.old) (event.SayCommit from commit ∷ []) (world_of basis.now scene.new)) }
{
    said(scene, from, Message::Commit(commit), 0)?;
    Ok(())
}

/// Does one event.
pub fn happen<'t, R: Threads + Sync, G: Gate>(
    rt: &R,
    alloc: Global,
    basis: &Basis<'t>,
    scene: &mut Scene<'t>,
    event: &Event,
    workers: u8,
    gate: &G,
) -> Result<(), OutOfMemory>
    requires kept { IsWellKept (world_of basis.now scene.old) }
    requires event { CanTake (world_of basis.now scene.old) (event.now ∷ []) }
    requires workers { (1 ≤ workers) × (workers ≤ 16) }
    ensures kept { OnOk result (IsWellKept (world_of basis.now scene.new)) }
    ensures follows { OnOk result (Follows workers (world_of basis.now scene.old) (event.now ∷ []) (world_of basis.now scene.new)) }
{
    match event {
        Event::Deliver { msg, to } => {
            deliver(rt, alloc, basis, scene, *msg, *to, workers, gate)?;
            Ok(())
        }
        Event::All => {
            all(rt, alloc, basis, scene, workers, gate)?;
            Ok(())
        }
        Event::SayBlock {
            from,
            number,
            prev,
            items,
            preds,
        } => {
            let preds = preds.copy(alloc)?;
            say_block(alloc, basis, scene, *from, *number, *prev, items, preds)?;
            Ok(())
        }
        Event::SayCommit { from, commit } => {
            let commit = commit.copy(alloc)?;
            say_commit(basis, scene, *from, commit)?;
            Ok(())
        }
    }
}

/// Does the events in their order.
pub fn play<'t, R: Threads + Sync, G: Gate>(
    rt: &R,
    alloc: Global,
    basis: &Basis<'t>,
    scene: &mut Scene<'t>,
    events: &[Event],
    workers: u8,
    gate: &G,
) -> Result<(), OutOfMemory>
    requires kept { IsWellKept (world_of basis.now scene.old) }
    requires events { CanTake (world_of basis.now scene.old) events.now }
    requires workers { (1 ≤ workers) × (workers ≤ 16) }
    ensures kept { OnOk result (IsWellKept (world_of basis.now scene.new)) }
    ensures follows { OnOk result (Follows workers (world_of basis.now scene.old) events.now (world_of basis.now scene.new)) }
{
    for event in events {
        happen(rt, alloc, basis, scene, event, workers, gate)?;
    }
    Ok(())
}
