//! A table of runs on one thread, and of what their gate is called for.
#![tactic(auto)]

#[cfg(test)]
mod tests;
