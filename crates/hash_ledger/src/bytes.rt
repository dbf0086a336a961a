//! The bytes of a block.

ghost use Rattle.std.specs.Prelude.{◌≡◌, ◌<◌, ◌≤◌, ◌++◌, ◌∷◌, [], List, ℕ, Option, Some, None, length, map, OnOk, IfOk};
ghost use Rattle.std.specs.List.{All, flat_map};
ghost use Rattle.oxii_defs.specs.Lawful.{IsLawfulTxn, IsRecord, IsKnown, IsLawfulBody, IsLawfulConfig, IsLawfulBlock};
ghost use Rattle.oxii_defs.specs.BlockBytes.{record_name, peer_name, name_bytes, arg_bytes, args_bytes, records_bytes, peers_bytes, txn_bytes, config_bytes, body_bytes, block_bytes, block_hash};
ghost use Rattle.txn_core.specs.MeantTable.{table_of};

use crate::feed::{Feed, Hashing};
use std::alloc::Global;
use txn_core::Table;
use txn_types::{Arg, Block, Bytes, Config, Name, OutOfMemory, Txn};

fn feed_name<F: Feed>(out: &mut F, name: &Name) -> Result<(), F::Refusal>
    ensures { OnOk result ((m : List ℕ) → F.has out.old m → F.has out.new (m ++ name_bytes name.now)) }
{
    let bytes = name.as_slice();
    out.feed(&[bytes.len() as u8])?;
    out.feed(bytes)
}

fn feed_records<F: Feed>(out: &mut F, table: &Table, records: &[u16]) -> Result<(), F::Refusal>
    requires lawful { All (IsRecord (table_of table.now)) records.now }
    requires short { length records.now ≤ 16 }
    ensures { OnOk result ((m : List ℕ) → F.has out.old m → F.has out.new (m ++ records_bytes (table_of table.now) records.now)) }
{
    out.feed(&[records.len() as u8])?;
    for record in records {
        feed_name(out, table.record_name(*record))?;
    }
    Ok(())
}

fn feed_arg<F: Feed>(out: &mut F, table: &Table, arg: &Arg) -> Result<(), F::Refusal>
    requires { IsKnown (table_of table.now) arg.now }
    ensures { OnOk result ((m : List ℕ) → F.has out.old m → F.has out.new (m ++ arg_bytes (table_of table.now) arg.now)) }
{
    match *arg {
        Arg::Rec(record) => {
            out.feed(&[1])?;
            feed_name(out, table.record_name(record))
        }
        Arg::Num(number) => {
            out.feed(&[2])?;
            out.feed(&number.to_be_bytes())
        }
    }
}

fn feed_args<F: Feed>(out: &mut F, table: &Table, args: &[Arg]) -> Result<(), F::Refusal>
    requires lawful { All (IsKnown (table_of table.now)) args.now }
    requires short { length args.now ≤ 16 }
    ensures { OnOk result ((m : List ℕ) → F.has out.old m → F.has out.new (m ++ args_bytes (table_of table.now) args.now)) }
{
    out.feed(&[args.len() as u8])?;
    for arg in args {
        feed_arg(out, table, arg)?;
    }
    Ok(())
}

fn feed_txn<F: Feed>(out: &mut F, table: &Table, txn: &Txn) -> Result<(), F::Refusal>
    requires { IsLawfulTxn (table_of table.now) txn.now }
    ensures { OnOk result ((m : List ℕ) → F.has out.old m → F.has out.new (m ++ txn_bytes (table_of table.now) txn.now)) }
{
    feed_name(out, table.app_name(txn.app))?;
    feed_name(out, table.op_name(txn.app, txn.op))?;
    feed_args(out, table, txn.args.as_slice())?;
    feed_records(out, table, txn.reads.as_slice())?;
    feed_records(out, table, txn.writes.as_slice())
}

fn feed_txns<F: Feed>(out: &mut F, table: &Table, txns: &[Txn]) -> Result<(), F::Refusal>
    requires lawful { All (IsLawfulTxn (table_of table.now)) txns.now }
    requires short { length txns.now ≤ 256 }
    ensures { OnOk result ((m : List ℕ) → F.has out.old m → F.has out.new (m ++ body_bytes (table_of table.now) txns.now None)) }
{
    out.feed(&(txns.len() as u32).to_be_bytes())?;
    for txn in txns {
        feed_txn(out, table, txn)?;
    }
    Ok(())
}

fn feed_peers<F: Feed>(out: &mut F, table: &Table, peers: &[u8]) -> Result<(), F::Refusal>
    requires lawful { All (λ p. p < length table.now.peers) peers.now }
    requires short { length peers.now ≤ 16 }
    ensures { OnOk result ((m : List ℕ) → F.has out.old m → F.has out.new (m ++ peers_bytes (table_of table.now) peers.now)) }
{
    out.feed(&[peers.len() as u8])?;
    for peer in peers {
        feed_name(out, table.peer_name(*peer))?;
    }
    Ok(())
}

fn feed_config<F: Feed>(out: &mut F, table: &Table, config: &Config) -> Result<(), F::Refusal>
    requires { IsLawfulConfig (table_of table.now) config.now }
    ensures { OnOk result ((m : List ℕ) → F.has out.old m → F.has out.new (m ++ config_bytes (table_of table.now) config.now)) }
{
    feed_name(out, table.app_name(config.app))?;
    feed_peers(out, table, config.agents.as_slice())?;
    out.feed(&[config.tau])
}

fn feed_body<F: Feed>(out: &mut F, table: &Table, block: &Block) -> Result<(), F::Refusal>
    requires { IsLawfulBody (table_of table.now) block.now.txns block.now.config }
    ensures { OnOk result ((m : List ℕ) → F.has out.old m → F.has out.new (m ++ body_bytes (table_of table.now) block.now.txns block.now.config)) }
{
    match &block.config {
        None => feed_txns(out, table, block.txns.as_slice()),
        Some(config) => {
            out.feed(&0u32.to_be_bytes())?;
            feed_config(out, table, config)
        }
    }
}

fn feed_block<F: Feed>(out: &mut F, table: &Table, block: &Block) -> Result<(), F::Refusal>
    requires { IsLawfulBlock (table_of table.now) block.now }
    ensures { OnOk result ((m : List ℕ) → F.has out.old m → F.has out.new (m ++ block_bytes (table_of table.now) block.now)) }
{
    out.feed(&block.number.to_be_bytes())?;
    out.feed(&block.prev)?;
    feed_body(out, table, block)
}

/// The bytes of a block: its number, the previous hash, and its transactions or its configuration.
pub fn block_bytes(alloc: Global, table: &Table, block: &Block) -> Result<Bytes, OutOfMemory>
    requires { IsLawfulBlock (table_of table.now) block.now }
    ensures { IfOk result (λ bytes. bytes ≡ block_bytes (table_of table.now) block.now) }
{
    let mut bytes = Bytes::new(alloc);
    feed_block(&mut bytes, table, block)?;
    Ok(bytes)
}

/// The SHA-256 of the bytes of a block. It takes no memory.
#[tactic(auto, unfolding(oxii_defs::specs::BlockBytes::block_hash))]
pub fn block_hash(table: &Table, block: &Block) -> [u8; 32]
    requires { IsLawfulBlock (table_of table.now) block.now }
    ensures { result ≡ block_hash (table_of table.now) block.now }
{
    let mut hashing = Hashing::new();
    match feed_block(&mut hashing, table, block) {
        Ok(()) => hashing.digest(),
        Err(never) => match never {},
    }
}
