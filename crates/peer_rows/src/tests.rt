//! What one peer answers to each message, and holds after them, with ample memory.

mod documents;
mod evidence;
mod notes;
mod readings;
mod rows;
