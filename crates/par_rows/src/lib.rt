//! Worked rows and faults of whole documents, on the top call.
#![tactic(auto)]

#[cfg(test)]
mod tests;
