//! What the proofs can't show: that trees made by hand come out as worked by hand, and that the stack is there.
mod forms;
mod nesting;
mod rows;
mod serial;
mod trees;
