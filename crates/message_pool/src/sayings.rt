//! Blocks that nodes say, made of items of the stream.

ghost use Rattle.std.specs.Prelude.{◌≡◌, ◌≤◌, ◌++◌, length, get_or, None, IfOk, OnOk};
ghost use Rattle.node_defs.specs.Sayings.{config_named, config_of_piece, hash_behind, said_block, said_newblock, txns_named, txns_of_piece};

use crate::hashes::Hashes;
use dep_graph::build;
use std::alloc::Global;
use txn_types::{
    Admitted, Block, Config, Items, Kind, Message, NewBlock, OutOfMemory, Piece, Preds, Txns,
};

fn push_call(pieces: &[Option<Piece>], i: u32, txns: &mut Txns) -> Result<(), OutOfMemory>
    ensures { OnOk result (txns.new ≡ txns.old ++ txns_of_piece (get_or pieces.now i None)) }
{
    let i = i as usize;
    if pieces.len() <= i {
        return Ok(());
    }
    match &pieces[i] {
        Some(Piece::Call(txn)) => {
            txns.push(txn.copy())?;
            Ok(())
        }
        Some(Piece::Config(_)) => Ok(()),
        None => Ok(()),
    }
}

fn config_at(pieces: &[Option<Piece>], i: u32) -> Option<Config>
    ensures { result ≡ config_of_piece (get_or pieces.now i None) }
{
    let i = i as usize;
    if pieces.len() <= i {
        return None;
    }
    match &pieces[i] {
        Some(Piece::Call(_)) => None,
        Some(Piece::Config(config)) => Some(config.copy()),
        None => None,
    }
}

fn calls_of(alloc: Global, pieces: &Admitted, items: &Items) -> Result<Txns, OutOfMemory>
    ensures { IfOk result (λ r. r ≡ txns_named pieces.now items.now) }
{
    let mut txns = Txns::new(alloc);
    for i in items.as_slice() {
        push_call(pieces.as_slice(), *i, &mut txns)?;
    }
    Ok(txns)
}

fn config_of(pieces: &Admitted, items: &Items) -> Option<Config>
    ensures { result ≡ config_named pieces.now items.now }
{
    for i in items.as_slice() {
        let config = config_at(pieces.as_slice(), *i);
        if config.is_some() {
            return config;
        }
    }
    None
}

fn hash_behind(hashes: &Hashes, number: u64) -> [u8; 32]
    ensures { result ≡ hash_behind hashes.now number }
{
    if number < 2 {
        return [0; 32];
    }
    let m = (number - 2) as usize;
    if hashes.len() <= m {
        return [0; 32];
    }
    hashes.as_slice()[m]
}

/// A block of these items, after the agreed block of the number before where no other hash is said.
pub fn said_block(
    alloc: Global,
    hashes: &Hashes,
    pieces: &Admitted,
    number: u64,
    prev: Option<[u8; 32]>,
    items: &Items,
) -> Result<Block, OutOfMemory>
    ensures { IfOk result (λ r. r ≡ said_block hashes.now pieces.now number prev items.now) }
{
    let txns = calls_of(alloc, pieces, items)?;
    let config = config_of(pieces, items);
    let prev = match prev {
        Some(hash) => hash,
        None => hash_behind(hashes, number),
    };
    Ok(Block {
        number,
        prev,
        txns,
        config,
    })
}

/// The NEWBLOCK of a block, with its graph where no other lists are said.
pub fn said_newblock(
    alloc: Global,
    kind: Kind,
    block: Block,
    preds: Option<Preds>,
) -> Result<Message, OutOfMemory>
    requires { length block.txns ≤ 256 }
    ensures { IfOk result (λ r. r ≡ said_newblock kind block preds) }
{
    let preds = match preds {
        Some(lists) => lists,
        None => build(alloc, &block, kind)?.lists(alloc)?,
    };
    Ok(Message::NewBlock(NewBlock { block, preds }))
}
