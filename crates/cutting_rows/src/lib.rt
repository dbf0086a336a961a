//! Worked cuts and rejects.
#![tactic(auto)]

#[cfg(test)]
mod tests;
