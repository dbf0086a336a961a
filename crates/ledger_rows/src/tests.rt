//! The bytes of blocks, a ledger of two, and the parts of a text, with ample memory.

mod ledgers;
mod parts;
