//! What writes and compactions make of the stored bytes of a shard: definitions and laws.
#![tactic(auto)]

pub mod laws;
