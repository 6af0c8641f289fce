//! What the metadata of codecs says: definitions, and a law of chains inside of chains.
#![tactic(auto)]

pub mod laws;
