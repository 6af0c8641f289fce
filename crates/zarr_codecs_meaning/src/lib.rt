//! What chains of Zarr codecs mean: definitions, worked examples and laws.
#![tactic(auto)]

pub mod laws;
