//! Tables of what one peer answers to each message, and of what it holds after them.
#![tactic(auto)]

#[cfg(test)]
mod tests;
