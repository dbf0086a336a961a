//! What a message brings.

ghost use Rattle.std.specs.Prelude.{◌≡◌, IfOk, OnOk};
ghost use Rattle.txn_core.specs.MeantTable.{table_of};
ghost use Rattle.peer_turns.specs.Peers.{IsLawfulMessage, IsWellKept, peer_of};
ghost use Rattle.peer_turns.specs.Relation.{HearsOf, NotesOf, is_me, letter_from};

use crate::desk::Desk;
use crate::noting::{put_note, votes_note};
use newblock_quorum::commits_leave_an_inbox;
use peer_laws::Note;
use peer_parts::hear as hear_votes;
use std::alloc::Global;
use txn_core::Table;
use txn_types::{Copies, Message, Node, OutOfMemory};

fn is_me(me: u8, from: Node) -> bool
    ensures { result ≡ is_me me from }
{
    match from {
        Node::Peer(p) => p == me,
        Node::Orderer(_) => false,
    }
}

/// Puts what a message brings: a NEWBLOCK, or the votes of a COMMIT that isn't this peer's own.
pub fn hear(
    alloc: Global,
    table: &Table,
    desk: &mut Desk,
    from: Node,
    message: &Message,
) -> Result<Note, OutOfMemory>
    requires kept { IsWellKept (peer_of table.now desk.old) }
    requires lawful { IsLawfulMessage (table_of table.now) message.now }
    ensures kept { OnOk result (IsWellKept (peer_of table.now desk.new)) }
    ensures me { OnOk result (desk.new.me ≡ desk.old.me) }
    ensures heard { OnOk result (HearsOf (letter_from from message.now) (peer_of table.now desk.old) (peer_of table.now desk.new)) }
    ensures noted { IfOk result (λ note. NotesOf from message.now (peer_of table.now desk.old) note) }
{
    match message {
        Message::NewBlock(newblock) => {
            let copied = newblock.copy(alloc)?;
            let answer = desk.inbox.put(alloc, from, copied)?;
            Ok(put_note(answer))
        }
        Message::Commit(commit) => {
            commits_leave_an_inbox();
            let peers = table.peers.as_slice().len();
            if is_me(desk.me, from) {
                return Ok(votes_note(peers, from, false));
            }
            let new = hear_votes(alloc, &mut desk.book, from, commit)?;
            Ok(votes_note(peers, from, new))
        }
    }
}
