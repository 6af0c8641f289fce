//! Boxes of cells through an array codec: definitions, and laws of them.
#![tactic(auto)]

pub mod laws;
