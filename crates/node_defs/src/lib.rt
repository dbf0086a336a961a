//! What a peer and a world come to: definitions over logs and events.
#![tactic(auto)]
