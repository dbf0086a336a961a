//! The world, moved by events.

ghost use Rattle.std.specs.Prelude.{ℕ, ◌≡◌, ◌<◌, ◌≤◌, ◌↔◌, List, [], ◌∷◌, length, true, is_some, count_by, sum_by, get_or, None, IfOk, IfSome, IsNone};
ghost use Rattle.std.specs.List.{All};
ghost use Rattle.oxii_defs.specs.State.{State};
ghost use Rattle.oxii_defs.specs.Lawful.{IsLawfulBlock, IsLawfulTable};
ghost use Rattle.txn_types.specs.declared.event.Event as happening;
ghost use Rattle.txn_types.specs.declared.message.Node.TheVariants as node;
ghost use Rattle.txn_core.specs.MeantTable.{table_of};
ghost use Rattle.txn_core.specs.States.{state_of};
ghost use Rattle.node_defs.specs.LawfulItems.{AreLawfulPieces};
ghost use Rattle.node_defs.specs.World as world;
ghost use Rattle.node_defs.specs.World.{IsWorld, Setting, log_of, start};
ghost use Rattle.node_laws.specs.Named.{is_named};
ghost use Rattle.world_laws.specs.Deliveries.{AreBursts, AreDeliveries, Delivery};
ghost use Rattle.world_laws.specs.Shown.{IsPeerFor};
ghost use Rattle.world_laws.specs.Worlds.{CanTake, Follows, HasBursts, IsWorldOf, peer_in, setting_with};

use crate::basis::Basis;
use crate::moving::{happen, play};
use crate::scene::Scene;
use crate::start::{copy_pieces, new_slots};
use message_pool::{first_pool, hashes_of};
use peer_core::Peer;
use std::alloc::Global;
use std::marker::Model;
use std::thread::Threads;
use steal_pool::Gate;
use txn_core::Table;
use txn_types::{Admitted, Blocks, Copies, Event, NodeSet, OutOfMemory, Values};
use world_laws::Bursts;

/// A pool of messages and the peers, as what they make of the events of a schedule.
#[derive(Drop)]
pub struct World<'t> {
    basis: Basis<'t>,
    scene: Scene<'t>,
}

impl<'t> Model for World<'t> {
    ghost use Rattle.std.specs.Coded.{codes};
    ghost use Rattle.txn_core.specs.contracts.syntax.Expr as expr;
    ghost use Rattle.txn_core.specs.contracts.syntax.Cond as cond;
    ghost use Rattle.txn_core.specs.contracts.syntax.Stmt as stmt;
    ghost use Rattle.world_laws.specs.Worlds.{KeptWorld, IsWellKept};
    ghost use Rattle.schedule_run.specs.Scenes.{world_of};

    ghost Value = { KeptWorld };

    ghost coded = { Prim.hlevel (codes, expr.the_row.coded, cond.the_row.coded, stmt.the_row.coded) };

    ghost view = { λ w. world_of w.basis w.scene };

    ghost invariant = { λ w. IsWellKept (world_of w.basis w.scene) };
}

impl<'t> World<'t> {
    /// The world before the first event: each orderer that isn't faulty has sent the agreed blocks, and no peer has heard a message. `admitted` is what each item of the stream carries.
    pub fn new(
        alloc: Global,
        table: &'t Table,
        genesis: &Values,
        blocks: &Blocks,
        admitted: &Admitted,
        faulty: &NodeSet,
    ) -> Result<World<'t>, OutOfMemory>
        requires table { IsLawfulTable (table_of table.now) }
        requires genesis { length genesis.now ≡ length table.now.records }
        requires blocks { All (IsLawfulBlock (table_of table.now)) blocks.now }
        requires admitted { AreLawfulPieces (table_of table.now) admitted.now }
        requires txns { sum_by (λ b. length b.txns) blocks.now ≤ 4096 }
        requires configs { count_by (λ b. is_some b.config) blocks.now ≤ 256 }
        ensures stands { IfOk result (λ r. IsWorldOf r (state_of genesis.now) (setting_with (table_of table.now) (state_of genesis.now) blocks.now admitted.now faulty.now) []) }
        ensures bursts { IfOk result (λ r. (n : ℕ) (s : Setting) → HasBursts n r s []) }
        ensures ground { IfOk result (λ r. (r.table ≡ table.now) × (r.pieces ≡ admitted.now) × (r.faulty ≡ faulty.now)) }
        ensures none { IfOk result (λ r. (r.idle ≡ 0) × (r.falses ≡ 0) × (r.items ≡ 0)) }
    {
        let hashes = hashes_of(alloc, table, blocks)?;
        let pieces = copy_pieces(alloc, admitted)?;
        let pool = first_pool(alloc, table, faulty, blocks)?;
        let peers = new_slots(alloc, table, faulty, genesis)?;
        let basis = Basis {
            table,
            hashes,
            pieces,
            faulty: faulty.copy(),
        };
        let scene = Scene {
            pool,
            idle: 0,
            falses: 0,
            items: 0,
            peers,
            bursts: Bursts::new(alloc),
        };
        Ok(World { basis, scene })
    }

    /// Does one event. After OutOfMemory the world is gone.
    pub fn step<R: Threads + Sync, G: Gate>(
        self,
        rt: &R,
        alloc: Global,
        event: &Event,
        workers: u8,
        gate: &G,
    ) -> Result<World<'t>, OutOfMemory>
        requires event { CanTake self (event.now ∷ []) }
        requires workers { (1 ≤ workers) × (workers ≤ 16) }
        ensures follows { IfOk result (λ r. Follows workers self.entry (event.now ∷ []) r) }
    {
        let World { basis, mut scene } = self;
        happen(rt, alloc, &basis, &mut scene, event, workers, gate)?;
        Ok(World { basis, scene })
    }

    /// Does the events in their order. After OutOfMemory the world is gone.
    pub fn run<R: Threads + Sync, G: Gate>(
        self,
        rt: &R,
        alloc: Global,
        events: &[Event],
        workers: u8,
        gate: &G,
    ) -> Result<World<'t>, OutOfMemory>
        requires events { CanTake self events.now }
        requires workers { (1 ≤ workers) × (workers ≤ 16) }
        ensures follows { IfOk result (λ r. Follows workers self.entry events.now r) }
    {
        let World { basis, mut scene } = self;
        play(rt, alloc, &basis, &mut scene, events, workers, gate)?;
        Ok(World { basis, scene })
    }

    /// Peer `i`, unless it is faulty.
    pub fn peer(&self, i: u8) -> Option<&Peer<'t>>
        requires { i < length self.now.table.peers }
        ensures faulty { IsNone result ↔ (is_named self.now.faulty (node.Peer i) ≡ true) }
        ensures table { IfSome result (λ p. p.now.table ≡ self.now.table) }
        ensures kept { peer_in result ≡ get_or self.now.peers i None }
        ensures stands { (genesis : State) (s : Setting) (events : List happening.Event) → IsWorldOf self.now genesis s events → (v : world.World) × IsWorld s events v × IsPeerFor self.now.table genesis s i (log_of v i) (peer_in result) }
    {
        self.scene.peers[i as usize].as_ref()
    }

    /// How many messages were sent so far.
    pub fn messages(&self) -> u32
        ensures kept { result ≡ length self.now.pool }
        ensures stands { (genesis : State) (s : Setting) (events : List happening.Event) → IsWorldOf self.now genesis s events → (v : world.World) × IsWorld s events v × (result ≡ length v.pool) }
    {
        self.scene.pool.len() as u32
    }

    /// How many deliveries were idle.
    pub fn idle(&self) -> u32
        ensures kept { result ≡ self.now.idle }
        ensures stands { (genesis : State) (s : Setting) (events : List happening.Event) → IsWorldOf self.now genesis s events → (v : world.World) × IsWorld s events v × (result ≡ v.idle) }
    {
        self.scene.idle
    }

    /// What ran with the deliveries so far: for each delivery, in order, each block of which transactions ran.
    pub fn bursts(&self) -> &Bursts
        ensures kept { result.now ≡ self.now.bursts }
        ensures stands { (n : ℕ) (s : Setting) (events : List happening.Event) → HasBursts n self.now s events → (deliveries : List Delivery) × AreDeliveries s (start s) events deliveries × AreBursts s n deliveries result.now }
    {
        &self.scene.bursts
    }

    /// The table.
    pub fn table(&self) -> &'t Table
        ensures kept { result.now ≡ self.now.table }
        ensures lawful { IsLawfulTable (table_of self.now.table) }
    {
        self.basis.table
    }
}
