//! What the metadata of shards says: definitions, and rows that they are computed on.
#![tactic(auto)]

pub mod laws;
