//! Tables of lists, copies, sources and sinks.
#![tactic(auto)]

#[cfg(test)]
mod tests;
