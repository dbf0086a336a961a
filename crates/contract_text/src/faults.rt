//! A contract, and why a text is none.

use txn_core::Ops;

/// A contract: its operations, in the order of the text.
#[derive(Drop)]
pub struct Contract {
    pub ops: Ops,
}

/// Why a text is no contract: the first fault, with its byte from 0.
#[derive(Clone, Copy, Debug, PartialEq, Eq)]
pub enum TextFault {
    /// A token, or the end, that the grammar doesn't allow there.
    Syntax { at: u32 },
    /// A name that is no parameter and no visible local.
    UnknownName { at: u32 },
    /// An expression that isn't of the expected kind, or a number parameter left of `=`.
    Kind { at: u32 },
    /// A token that passes a limit.
    Limit { at: u32 },
    /// A name that is taken already.
    Double { at: u32 },
    OutOfMemory,
}
