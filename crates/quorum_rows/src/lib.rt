//! Tables of graphs, votes and NEWBLOCKs.
#![tactic(auto)]

#[cfg(test)]
mod tests;
