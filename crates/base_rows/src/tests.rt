//! Lists, copies, sources and sinks, with ample memory.

mod io;
mod types;
