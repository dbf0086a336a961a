//! The names of what a table numbers.

ghost use Rattle.std.specs.Prelude.{◌≡◌, ◌<◌, length, map};
ghost use Rattle.oxii_defs.specs.BlockBytes.{record_name, peer_name, app_name, ops_of, op_name};
ghost use Rattle.txn_core.specs.Meant.{op_of};
ghost use Rattle.txn_core.specs.MeantTable.{table_of};

use crate::{App, Table};
use txn_types::Name;

impl Table {
    /// The name of a record.
    pub fn record_name(&self, record_number: u16) -> &Name
        requires { record_number < length self.now.records }
        ensures { result.now ≡ record_name (table_of self.now) record_number }
    {
        &self.records.as_slice()[record_number as usize]
    }

    /// The name of a peer.
    pub fn peer_name(&self, peer: u8) -> &Name
        requires { peer < length self.now.peers }
        ensures { result.now ≡ peer_name (table_of self.now) peer }
    {
        &self.peers.as_slice()[peer as usize]
    }

    // An application, by what its parts stand for.
    fn app(&self, app: u8) -> &App
        requires { app < length self.now.apps }
        ensures name { result.now.name ≡ app_name (table_of self.now) app }
        ensures ops { map op_of result.now.ops ≡ ops_of (table_of self.now) app }
    {
        &self.apps.as_slice()[app as usize]
    }

    /// The name of an application.
    pub fn app_name(&self, app: u8) -> &Name
        requires { app < length self.now.apps }
        ensures { result.now ≡ app_name (table_of self.now) app }
    {
        &self.app(app).name
    }

    /// The name of an operation of an application.
    pub fn op_name(&self, app: u8, op: u8) -> &Name
        requires app { app < length self.now.apps }
        requires op { op < length (ops_of (table_of self.now) app) }
        ensures { result.now ≡ op_name (table_of self.now) app op }
    {
        &self.app(app).ops.as_slice()[op as usize].name
    }
}
