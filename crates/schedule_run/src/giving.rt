//! A message to one peer, and what comes of it.

ghost use Rattle.std.specs.Prelude.{◌≡◌, ◌≤◌, ◌++◌, map, reverse, OnOk, IfOk, IfSome};
ghost use Rattle.txn_core.specs.MeantTable.{table_of};
ghost use Rattle.node_defs.specs.World.{said_by};
ghost use Rattle.peer_turns.specs.Peers.{IsLawfulMessage};
ghost use Rattle.world_laws.specs.Deliveries.{burst_at};
ghost use Rattle.world_laws.specs.Shown.{Gave};

use message_pool::Letter;
use peer_core::{BlockSpansList, Peer};
use std::alloc::Global;
use std::thread::Threads;
use steal_pool::Gate;
use txn_types::{Commits, GrowingList, Message, Node, OutOfMemory};
use world_laws::{Burst, Bursts};

/// What came of a message: the COMMITs that are sent, and the spans of what ran.
#[derive(Drop)]
pub struct Made {
    pub sent: Commits,
    pub spans: BlockSpansList,
}

/// Delivers a message to a peer; a faulty one has no slot and takes nothing. After OutOfMemory the peer is gone.
pub fn give<'t, R: Threads + Sync, G: Gate>(
    rt: &R,
    alloc: Global,
    slot: &mut Option<Peer<'t>>,
    letter: &Letter,
    workers: u8,
    gate: &G,
) -> Result<Made, OutOfMemory>
    requires lawful { IfSome slot.old (λ p. IsLawfulMessage (table_of p.table) letter.now.message) }
    requires workers { (1 ≤ workers) × (workers ≤ 16) }
    ensures gave { IfOk result (λ r. Gave workers letter.now slot.old slot.new r.sent r.spans) }
{
    match slot.take() {
        None => Ok(Made {
            sent: Commits::new(alloc),
            spans: BlockSpansList::new(alloc),
        }),
        Some(peer) => {
            let (next, took) = peer.take(
                rt,
                alloc,
                letter.from(),
                letter.message(),
                workers,
                gate,
            )?;
            *slot = Some(next);
            Ok(Made {
                sent: took.sent,
                spans: took.spans,
            })
        }
    }
}

/// The items of a list, the last one first.
fn turned<T: Drop>(alloc: Global, list: GrowingList<T>) -> Result<GrowingList<T>, OutOfMemory>
    ensures { IfOk result (λ r. r ≡ reverse list) }
{
    let mut rest = list;
    let mut all = GrowingList::new(alloc);
    while let Some(item) = rest.pop() {
        all.push(item)?;
    }
    Ok(all)
}

/// Puts what a peer sends into the pool.
pub fn send(
    alloc: Global,
    pool: &mut GrowingList<Letter>,
    from: u8,
    commits: Commits,
) -> Result<(), OutOfMemory>
    ensures sent { OnOk result (pool.new ≡ pool.old ++ map (said_by from) commits) }
{
    let mut rest = turned(alloc, commits)?;
    while let Some(commit) = rest.pop() {
        pool.push(Letter::new(Node::Peer(from), Message::Commit(commit)))?;
    }
    Ok(())
}

/// Lists what ran at a peer.
pub fn list(
    alloc: Global,
    bursts: &mut Bursts,
    peer: u8,
    spans: BlockSpansList,
) -> Result<(), OutOfMemory>
    ensures listed { OnOk result (bursts.new ≡ bursts.old ++ map (burst_at peer) spans) }
{
    let mut rest = turned(alloc, spans)?;
    while let Some(spans) = rest.pop() {
        bursts.push(Burst { peer, spans })?;
    }
    Ok(())
}
