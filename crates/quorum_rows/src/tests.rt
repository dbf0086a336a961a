//! What is said of a graph, and what votes and NEWBLOCKs come to, with ample memory.

mod graphs;
mod newblocks;
mod votes;
