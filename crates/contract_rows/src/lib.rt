//! Texts of the contract language with what they come to, on the public calls of its crates.
#![tactic(auto)]

#[cfg(test)]
mod tests;
