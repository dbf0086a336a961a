//! Rows of calls on trees made by hand, and of serial runs.
#![tactic(auto)]

#[cfg(test)]
mod tests;
