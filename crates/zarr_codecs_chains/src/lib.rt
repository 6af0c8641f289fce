//! Codec chains: array to array codecs, an array to bytes codec, and the caller's bytes to bytes
//! codecs.
#![tactic(auto)]

mod allowing;
pub mod array_to_bytes;
mod bytes_chain;
pub mod chain;
pub mod chain_metadata;
mod chosen;
mod coders;
mod copying;
mod decoding;
mod depth;
mod encoding;
mod fitting;
mod inner;
pub mod optional;
mod reading;
mod representing;
mod selecting;
mod sharding;
pub mod vlen;
mod whole_values;
mod writing;

pub use array_to_bytes::ArrayToBytesCodec;
pub use chain::CodecChain;
pub use optional::OptionalCodec;
pub use reading::read_allowed;
pub use vlen::VlenCodec;
pub use zarr_codecs_bytes::{BytesCodec, BytesCodecConfiguration, Endianness};
pub use zarr_codecs_configurations::{
    OptionalCodecConfiguration, VlenCodecConfiguration, any_too_deep,
};
pub use zarr_codecs_sections::{VlenIndexDataType, VlenIndexLocation};
