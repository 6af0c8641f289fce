//! The codec `packbits`: the bits that are kept of elements of one size, one after another.
#![tactic(auto)]

mod bits;
pub mod codec;
mod eights;
mod kept;
mod metadata;
mod packing;
mod padding;
mod part;
mod partial;
mod reading;
mod restoring;
mod sizes;
mod spans;
mod turning;
mod unpacking;

pub use codec::{PackBitsCodec, PackBitsCodecConfiguration, PackBitsPaddingEncoding};
