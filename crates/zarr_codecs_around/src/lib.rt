//! What stands around a codec between arrays and bytes: array to array codecs before it, and the
//! caller's bytes to bytes codecs after it.
#![tactic(auto)]

pub mod array_codecs;
pub mod array_metadata;
mod boxes;
pub mod byte_codecs;
pub mod byte_metadata;
pub mod inner_codec;
mod moved_boxes;
mod moved_numbers;
pub mod part_reading;
pub mod part_writing;
pub mod pieces_after;
pub mod stored_parts;
pub mod then_bytes;
mod then_bytes_values;
pub mod whole_arrays;

pub use then_bytes::ThenBytes;
pub use zarr_sharding_inner::InnerCodec;
