/// Why a text is no contract: the first fault, with its byte from 0.
#[derive(Clone, Copy, Debug, PartialEq, Eq)]
pub enum ReadFault {
    /// A token, or the end, that the grammar doesn't allow there.
    Syntax { at: u32 },
    /// A token that passes a limit.
    Limit { at: u32 },
    OutOfMemory,
}
