//! The tokens of the contract language, at their positions.

use txn_types::Name;

/// What is between two operands.
#[derive(Clone, Copy, Debug, PartialEq, Eq)]
pub enum Operator {
    Or,
    And,
    Equal,
    NotEqual,
    Less,
    LessEqual,
    Greater,
    GreaterEqual,
    Plus,
    Minus,
    Times,
    Divide,
    Remainder,
}

/// A word or a sign that shapes operations and statements.
#[derive(Clone, Copy, Debug, PartialEq, Eq)]
pub enum Mark {
    WordOp,
    WordLet,
    WordRequire,
    WordIf,
    WordElse,
    WordRepeat,
    WordRecord,
    WordNumber,
    OpenBlock,
    CloseBlock,
    Colon,
    Comma,
    Semicolon,
    Becomes,
}

/// A token of the contract language.
#[derive(Drop)]
pub enum Token {
    /// A number, or 2^62 for a larger one.
    Number(u64),
    /// The first 32 bytes of a name, and whether it has more.
    Named(Name, bool),
    Infix(Operator),
    Not,
    Open,
    Close,
    Fixed(Mark),
    /// A byte that begins no token.
    Bad,
}

/// Where a token is: its first byte, and the byte after it, from 0.
#[derive(Clone, Copy, Debug, PartialEq, Eq)]
pub struct Extent {
    pub start: u32,
    pub end: u32,
}

/// A token at its position.
#[derive(Drop)]
pub struct Placed {
    pub span: Extent,
    pub token: Token,
}
