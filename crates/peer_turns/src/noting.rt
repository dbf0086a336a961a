//! The note of a message, by what is put.

ghost use Rattle.std.specs.Prelude.{◌≡◌};
ghost use Rattle.peer_turns.specs.Answering.{put_note, votes_note};

use newblock_quorum::NewBlockPut;
use peer_laws::Note;
use txn_types::Node;

/// That of a NEWBLOCK.
pub fn put_note(answer: NewBlockPut) -> Note
    ensures { result ≡ put_note answer }
{
    match answer {
        NewBlockPut::Stranger => Note::Stranger,
        NewBlockPut::WrongGraph => Note::WrongGraph,
        NewBlockPut::Repeat => Note::Repeat,
        NewBlockPut::Counted => Note::Counted,
    }
}

/// That of a COMMIT to one of so many peers, by whether a vote of it is new.
pub fn votes_note(peers: usize, from: Node, new: bool) -> Note
    ensures { result ≡ votes_note peers from new }
{
    match from {
        Node::Orderer(_) => Note::Stranger,
        Node::Peer(p) if (p as usize) < peers => { if new { Note::Counted } else { Note::Repeat } }
        Node::Peer(_) => Note::Stranger,
    }
}
