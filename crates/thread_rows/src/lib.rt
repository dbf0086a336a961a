//! Worked rows of boards, by two threads.
#![tactic(auto)]

#[cfg(test)]
mod tests;
