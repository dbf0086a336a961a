//! The peers before the first event.

ghost use Rattle.std.specs.Prelude.{◌≡◌, ◌<◌, length, IfOk};
ghost use Rattle.oxii_defs.specs.Lawful.{IsLawfulTable};
ghost use Rattle.txn_core.specs.MeantTable.{table_of};
ghost use Rattle.txn_core.specs.States.{state_of};
ghost use Rattle.world_laws.specs.Starts.{AreNewSlots, IsNewSlot};

use message_pool::is_named;
use peer_core::Peer;
use std::alloc::Global;
use txn_core::Table;
use txn_types::{Admitted, Node, NodeSet, OutOfMemory, Piece, Values};

fn new_slot<'t>(
    alloc: Global,
    table: &'t Table,
    faulty: &NodeSet,
    me: u8,
    genesis: &Values,
) -> Result<Option<Peer<'t>>, OutOfMemory>
    requires lawful { IsLawfulTable (table_of table.now) }
    requires me { me < length table.now.peers }
    requires genesis { length genesis.now ≡ length table.now.records }
    ensures { IfOk result (λ r. IsNewSlot table.now faulty.now (state_of genesis.now) me r) }
{
    if is_named(faulty, Node::Peer(me)) {
        return Ok(None);
    }
    let peer = Peer::new(alloc, table, me, genesis)?;
    Ok(Some(peer))
}

/// A slot for each peer of the table.
pub fn new_slots<'t>(
    alloc: Global,
    table: &'t Table,
    faulty: &NodeSet,
    genesis: &Values,
) -> Result<Vec<Option<Peer<'t>>>, OutOfMemory>
    requires lawful { IsLawfulTable (table_of table.now) }
    requires genesis { length genesis.now ≡ length table.now.records }
    ensures { IfOk result (λ r. AreNewSlots table.now faulty.now (state_of genesis.now) (length table.now.peers) r.items) }
{
    let n = table.peers.as_slice().len() as u8;
    let mut slots = Vec::new(alloc);
    for i in 0..n {
        let slot = new_slot(alloc, table, faulty, i, genesis)?;
        slots.push(slot)?;
    }
    Ok(slots)
}

fn copy_piece(piece: &Option<Piece>) -> Option<Piece>
    ensures { result ≡ piece.now }
{
    match piece {
        Some(Piece::Call(txn)) => Some(Piece::Call(txn.copy())),
        Some(Piece::Config(config)) => Some(Piece::Config(config.copy())),
        None => None,
    }
}

/// A copy of what the items of a stream carry.
pub fn copy_pieces(alloc: Global, pieces: &Admitted) -> Result<Admitted, OutOfMemory>
    ensures { IfOk result (λ r. r ≡ pieces.now) }
{
    let mut all = Admitted::new(alloc);
    for piece in pieces.as_slice() {
        all.push(copy_piece(piece))?;
    }
    Ok(all)
}
