//! A message to each peer, each message to each peer, and one message to one peer.

ghost use Rattle.std.specs.Prelude.{ℕ, suc, ◌≡◌, ◌≤◌, ◌<◌, length, false, Some, OnOk, IfOk, List};
ghost use Rattle.std.specs.List.{AllByRecursion};
ghost use Rattle.txn_types.specs.declared.message.Node as sender;
ghost use Rattle.txn_types.specs.declared.event.Event.TheVariants as event;
ghost use Rattle.oxii_defs.specs.State.{State};
ghost use Rattle.oxii_defs.specs.Lawful.{IsLawfulTable};
ghost use Rattle.txn_core.specs.MeantTable.{table_of};
ghost use Rattle.node_defs.specs.Log as log;
ghost use Rattle.node_defs.specs.World as world;
ghost use Rattle.node_defs.specs.World.{Setting, count_from, given_all, message_at, peers_of};
ghost use Rattle.world_laws.specs.Deliveries.{AddsBursts, deliveries_each};
ghost use Rattle.world_laws.specs.Shown.{AreOfTable, IsLawfulLetter, IsReached, IsShown, Moves};

use crate::giving::{give, list, send};
use message_pool::Letter;
use peer_core::Peer;
use std::alloc::Global;
use std::thread::Threads;
use steal_pool::Gate;
use txn_core::Table;
use txn_types::{GrowingList, OutOfMemory};
use world_laws::Bursts;

/// Message `m`, from 0, to each peer that isn't faulty.
fn give_each<'t, R: Threads + Sync, G: Gate>(
    rt: &R,
    alloc: Global,
    table: &'t Table,
    peers: &mut [Option<Peer<'t>>],
    pool: &mut GrowingList<Letter>,
    bursts: &mut Bursts,
    m: usize,
    workers: u8,
    gate: &G,
) -> Result<(), OutOfMemory>
    requires here { m < length pool.old }
    requires table { IsLawfulTable (table_of table.now) }
    requires lawful { AllByRecursion (IsLawfulLetter (table_of table.now)) pool.old }
    requires of_table { AreOfTable table.now peers.old }
    requires count { length peers.old ≡ length table.now.peers }
    requires workers { (1 ≤ workers) × (workers ≤ 16) }
    ensures lawful { OnOk result (AllByRecursion (IsLawfulLetter (table_of table.now)) pool.new) }
    ensures of_table { OnOk result (AreOfTable table.now peers.new) }
    ensures count { OnOk result (length peers.new ≡ length table.now.peers) }
    ensures given { OnOk result ((idle : ℕ) (genesis : State) (s : Setting) (w : world.World) (x : log.Letter) → message_at w (suc m) ≡ Some x → IsShown table.now pool.old idle peers.old genesis s w →
        IsShown table.now pool.new idle peers.new genesis s (given_all s x w) × AddsBursts s workers (deliveries_each s x (count_from 0 (peers_of s)) w) bursts.old bursts.new) }
{
    let n = table.peers.as_slice().len() as u8;
    for i in 0..n {
        let letter = &pool.as_slice()[m];
        let made = give(rt, alloc, &mut peers[i as usize], letter, workers, gate)?;
        send(alloc, pool, i, made.sent)?;
        list(alloc, bursts, i, made.spans)?;
    }
    Ok(())
}

/// Each message to each peer that isn't faulty, new ones too.
pub fn give_all<'t, R: Threads + Sync, G: Gate>(
    rt: &R,
    alloc: Global,
    table: &'t Table,
    peers: &mut [Option<Peer<'t>>],
    pool: &mut GrowingList<Letter>,
    bursts: &mut Bursts,
    workers: u8,
    gate: &G,
) -> Result<(), OutOfMemory>
    requires table { IsLawfulTable (table_of table.now) }
    requires lawful { AllByRecursion (IsLawfulLetter (table_of table.now)) pool.old }
    requires of_table { AreOfTable table.now peers.old }
    requires count { length peers.old ≡ length table.now.peers }
    requires reached { (faulty : List sender.Node) × (falses : ℕ) × (items : ℕ) × IsReached table.now faulty pool.old peers.old falses items }
    requires workers { (1 ≤ workers) × (workers ≤ 16) }
    ensures lawful { OnOk result (AllByRecursion (IsLawfulLetter (table_of table.now)) pool.new) }
    ensures of_table { OnOk result (AreOfTable table.now peers.new) }
    ensures count { OnOk result (length peers.new ≡ length table.now.peers) }
    ensures moves { OnOk result (Moves table.now workers event.All false pool.old peers.old bursts.old pool.new peers.new bursts.new) }
{
    let mut m: usize = 0;
    while m < pool.len() {
        give_each(rt, alloc, table, peers, pool, bursts, m, workers, gate)?;
        m += 1;
    }
    Ok(())
}

/// Message `msg`, from 1, to peer `to`. Says whether the delivery was idle.
pub fn give_one<'t, R: Threads + Sync, G: Gate>(
    rt: &R,
    alloc: Global,
    table: &'t Table,
    peers: &mut [Option<Peer<'t>>],
    pool: &mut GrowingList<Letter>,
    bursts: &mut Bursts,
    msg: u32,
    to: u8,
    workers: u8,
    gate: &G,
) -> Result<bool, OutOfMemory>
    requires to { to < length table.now.peers }
    requires lawful { AllByRecursion (IsLawfulLetter (table_of table.now)) pool.old }
    requires of_table { AreOfTable table.now peers.old }
    requires count { length peers.old ≡ length table.now.peers }
    requires workers { (1 ≤ workers) × (workers ≤ 16) }
    ensures lawful { IfOk result (λ r. AllByRecursion (IsLawfulLetter (table_of table.now)) pool.new) }
    ensures of_table { IfOk result (λ r. AreOfTable table.now peers.new) }
    ensures count { IfOk result (λ r. length peers.new ≡ length table.now.peers) }
    ensures moves { IfOk result (λ r. Moves table.now workers (event.Deliver msg to) r pool.old peers.old bursts.old pool.new peers.new bursts.new) }
{
    if msg == 0 || pool.len() < msg as usize {
        return Ok(true);
    }
    let faulty = peers[to as usize].is_none();
    if faulty {
        return Ok(faulty);
    }
    let letter = &pool.as_slice()[msg as usize - 1];
    let made = give(rt, alloc, &mut peers[to as usize], letter, workers, gate)?;
    send(alloc, pool, to, made.sent)?;
    list(alloc, bursts, to, made.spans)?;
    Ok(false)
}
