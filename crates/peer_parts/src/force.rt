//! What is in force: for each application its agents, and how many of their votes agree.

ghost use Rattle.std.specs.Prelude.{◌≡◌, ◌<◌, ◌≤◌, ℕ, List, [], length, map, slice_set, Some, None, IfOk, OnOk, IfSome};
ghost use Rattle.std.specs.List.{slice_index_or};
ghost use Rattle.peer_parts.specs.InForce.{AreCounted, force_in, changed_force};
ghost use Rattle.oxii_defs.specs.Lawful.{IsLawfulTable, IsLawfulConfig};
ghost use Rattle.txn_core.specs.MeantTable.{table_of};

use std::alloc::Global;
use std::marker::Model;
use txn_core::Table;
use txn_types::{Config, GrowingList, OutOfMemory, PeerSet};

/// An application's agents, and how many of their votes agree.
#[derive(Drop)]
pub struct Seats {
    pub agents: PeerSet,
    pub tau: u8,
}

/// What is in force for each application of a table.
#[derive(Drop)]
pub struct Force {
    seats: GrowingList<Seats>,
}

impl Model for Force {
    ghost use Rattle.std.specs.Prelude.{List};
    ghost use Rattle.peer_parts.specs.declared.force.Seats.{Seats};
    ghost use Rattle.peer_parts.specs.InForce.{AreCounted};

    ghost Value = { List Seats };

    ghost view = { λ force. force.seats };

    ghost invariant = { λ force. AreCounted force.seats };
}

impl Force {
    /// What a table says.
    pub fn new(alloc: Global, table: &Table) -> Result<Force, OutOfMemory>
        requires { IsLawfulTable (table_of table.now) }
        ensures { IfOk result (λ force. force ≡ force_in (table_of table.now)) }
    {
        let mut seats = GrowingList::new(alloc);
        for app in table.apps.as_slice() {
            seats.push(Seats {
                agents: app.agents.copy(),
                tau: app.tau,
            })?;
        }
        Ok(Force { seats })
    }

    /// The agents of an application.
    pub fn agents(&self, app: u8) -> &PeerSet
        requires { app < length self.now }
        ensures { result.now ≡ slice_index_or (map (λ s. s.agents) self.now) app [] }
    {
        &self.seats.as_slice()[app as usize].agents
    }

    /// How many of their votes agree.
    pub fn tau(&self, app: u8) -> u8
        requires { app < length self.now }
        ensures tau { result ≡ slice_index_or (map (λ s. s.tau) self.now) app 0 }
        ensures some { 0 < result }
    {
        self.seats.as_slice()[app as usize].tau
    }

    /// Brings a configuration in force.
    pub fn change(&mut self, config: &Config)
        requires app { config.now.app < length self.old }
        requires tau { 0 < config.now.tau }
        ensures { self.new ≡ changed_force self.old config.now }
    {
        self.seats.set(
            config.app as usize,
            Seats {
                agents: config.agents.copy(),
                tau: config.tau,
            },
        );
    }
}
