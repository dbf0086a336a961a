//! Tables of ledgers and of the parts of a printed text.
#![tactic(auto)]

#[cfg(test)]
mod tests;
