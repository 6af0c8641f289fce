//! Coders of parts: a codec between arrays and bytes, an array of its own, and a lent source of the
//! array's value.
#![tactic(auto)]

pub mod decoder;
pub mod encoder;

pub use decoder::CodecPartialDecoder;
pub use encoder::CodecPartialEncoder;
