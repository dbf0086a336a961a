// What a document says of records, nodes and applications.

ghost use Rattle.std.specs.Prelude.{◌≡◌, Some};
ghost use Rattle.oxii_defs.specs.Table.{op_in};
ghost use Rattle.oxii_defs.specs.Lawful.{IsLawfulTxn};
ghost use Rattle.txn_core.specs.Meant.{op_of};
ghost use Rattle.txn_core.specs.MeantTable.{table_of};

use crate::{Op, Ops};
use txn_types::{GrowingList, Kind, Name, Names, PeerSet, Txn};

/// An application: the peers that run its transactions, how many equal votes of theirs agree on an outcome, who may call it, and its operations.
#[derive(Drop)]
pub struct App {
    pub name: Name,
    pub agents: PeerSet,
    pub tau: u8,
    pub clients: Names,
    pub ops: Ops,
}

/// A list of applications.
pub type Apps = GrowingList<App>;

/// The kind of graphs, and all names; what is numbered is at its number.
#[derive(Drop)]
pub struct Table {
    pub kind: Kind,
    pub records: Names,
    pub orderers: Names,
    pub quorum: u8,
    pub peers: Names,
    pub apps: Apps,
}

/// The operation that a lawful transaction names.
pub fn op_named<'a>(table: &'a Table, txn: &Txn) -> &'a Op
    requires { IsLawfulTxn (table_of table.now) txn.now }
    ensures { op_in (table_of table.now) txn.now ≡ Some (op_of result.now) }
{
    let app = &table.apps.as_slice()[txn.app as usize];
    &app.ops.as_slice()[txn.op as usize]
}
