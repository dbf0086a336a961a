//! What a plan's run comes to, and what a lawful trace of it is.
#![tactic(auto)]
