//! What is known of a block's positions, and what that means for a state and for a transaction.
#![tactic(auto)]
