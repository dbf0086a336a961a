/// What became of a message that was delivered to a peer.
#[derive(Clone, Copy, Debug, PartialEq, Eq)]
pub enum Note {
    /// It is the first of its kind: a NEWBLOCK that counts, or a COMMIT with a vote that counts.
    Counted,
    /// It brings nothing new, or it is the peer's own.
    Repeat,
    /// The sender of a NEWBLOCK is no orderer of the table, or that of a COMMIT no peer of it.
    Stranger,
    /// The lists of a NEWBLOCK are not the graph of its block.
    WrongGraph,
    /// The peer is halted after it.
    Halted,
}
