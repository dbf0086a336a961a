// How long the bytes of a transaction are.

ghost use Rattle.std.specs.Prelude.{◌≡◌, ◌+◌, ◌≤◌, length};
ghost use Rattle.std.specs.List.{All};
ghost use Rattle.oxii_defs.specs.Lawful.{IsLawfulTxn, IsKnown, IsRecord};
ghost use Rattle.oxii_defs.specs.BlockBytes.{name_bytes, arg_bytes, args_bytes, records_bytes, txn_bytes};
ghost use Rattle.txn_core.specs.MeantTable.{table_of};

use crate::Table;
use txn_types::{Arg, Name, Txn};

/// How many bytes a transaction has, 1,669 at most.
pub fn bytes_len(table: &Table, txn: &Txn) -> u32
    requires { IsLawfulTxn (table_of table.now) txn.now }
    ensures length { result ≡ length (txn_bytes (table_of table.now) txn.now) }
    ensures short { result ≤ 1669 }
{
    let app = name_len(table.app_name(txn.app));
    let op = name_len(table.op_name(txn.app, txn.op));
    let args = args_len(table, txn.args.as_slice());
    let reads = records_len(table, txn.reads.as_slice());
    let writes = records_len(table, txn.writes.as_slice());
    app + op + args + reads + writes
}

fn name_len(name: &Name) -> u32
    ensures length { result ≡ length (name_bytes name.now) }
    ensures short { result ≤ 33 }
{
    name.as_slice().len() as u32 + 1
}

fn arg_len(table: &Table, arg: &Arg) -> u32
    requires { IsKnown (table_of table.now) arg.now }
    ensures length { result ≡ length (arg_bytes (table_of table.now) arg.now) }
    ensures short { result ≤ 34 }
{
    match *arg {
        Arg::Rec(record) => 1 + name_len(table.record_name(record)),
        Arg::Num(_) => 9,
    }
}

fn args_len(table: &Table, args: &[Arg]) -> u32
    requires lawful { All (IsKnown (table_of table.now)) args.now }
    requires count { length args.now ≤ 16 }
    ensures length { result ≡ length (args_bytes (table_of table.now) args.now) }
    ensures short { result ≤ 545 }
{
    let mut total = 1;
    for arg in args {
        total += arg_len(table, arg);
    }
    total
}

fn records_len(table: &Table, records: &[u16]) -> u32
    requires lawful { All (IsRecord (table_of table.now)) records.now }
    requires count { length records.now ≤ 16 }
    ensures length { result ≡ length (records_bytes (table_of table.now) records.now) }
    ensures short { result ≤ 529 }
{
    let mut total = 1;
    for record in records {
        total += name_len(table.record_name(*record));
    }
    total
}
