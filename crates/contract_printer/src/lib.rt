//! The canonical text of a contract.
#![tactic(auto)]

mod expressions;
mod laws;
mod operations;
mod spaced_text;
mod statements;

pub use laws::{
    canonical_texts_are_shortest, canonical_texts_have_their_tokens,
    canonical_texts_read_as_their_contracts, contracts_have_one_canonical_text,
};
pub use operations::print_contract;
