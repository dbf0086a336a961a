//! The agreed stream: requests, marks and configurations, and what they carry.

use crate::{Arg, Config, GrowingList, Name, Txn};

/// The arguments of a request, of any count.
pub type RequestArgs = GrowingList<Arg>;

/// Record numbers, of any count.
pub type RecordList = GrowingList<u16>;

/// What a client asks for: a call of an application's operation, all by name, with the records to read and to write, rising.
#[derive(Drop)]
pub struct Request {
    pub client: Name,
    pub app: Name,
    pub op: Name,
    pub args: RequestArgs,
    pub reads: RecordList,
    pub writes: RecordList,
}

/// An item of the agreed stream: a request, a mark that closes a block, or a configuration.
#[derive(Drop)]
pub enum Item {
    Ask(Request),
    Mark,
    Config(Config),
}

/// The agreed stream.
pub type ItemList = GrowingList<Item>;

/// What an admitted item carries into a block.
#[derive(Drop)]
pub enum Piece {
    Call(Txn),
    Config(Config),
}

/// For each item of the stream what it carries, where it is admitted.
pub type Admitted = GrowingList<Option<Piece>>;

/// When a block is closed: its greatest count of transactions, 1 to 256, and of their bytes together, 2,048 to 1,048,576.
#[derive(Clone, Copy, Debug, PartialEq, Eq)]
pub struct CutLimits {
    pub txns: u16,
    pub bytes: u32,
}

/// Why a request is not admitted.
#[derive(Clone, Copy, Debug, PartialEq, Eq)]
pub enum Reject {
    UnknownApp,
    ClientNotAllowed,
    UnknownOp,
    ArgCount,
    ArgKind,
    SetTooLarge,
}

/// A request that is not admitted, by the position of its item in the stream, from 0.
#[derive(Clone, Copy, Debug, PartialEq, Eq)]
pub struct Rejected {
    pub item: u32,
    pub why: Reject,
}

/// A list of rejected requests.
pub type Rejects = GrowingList<Rejected>;
