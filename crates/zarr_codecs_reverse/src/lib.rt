//! A bytes to bytes codec of this project's own, `x-reverse`: it reverses bytes.
#![tactic(auto)]

pub mod laws;
pub mod reverse_codec;

pub use reverse_codec::ReverseCodec;
