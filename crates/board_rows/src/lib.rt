//! Worked rows of boards.
#![tactic(auto)]

#[cfg(test)]
mod tests;
