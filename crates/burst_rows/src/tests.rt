//! What a burst comes to, and what its gate is called for, with ample memory.

mod calls;
mod gates;
mod plans;
mod rows;
mod setting;
