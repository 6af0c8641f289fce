//! What codecs promise: between arrays and bytes, and between bytes; and what sources
//! of bytes do, which can be read, and written, in part.
#![tactic(auto)]

pub mod array_part;
pub mod array_to_array;
pub mod array_to_bytes;
pub mod by_pieces;
pub mod byte_range;
pub mod byte_source;
pub mod byte_target;
pub mod bytes_representation;
pub mod bytes_to_bytes;
pub mod indexer;
pub mod interval_source;
pub mod laws;
pub mod memory_source;
pub mod pieces;
pub mod target;
pub mod target_bytes;
pub mod value_patch;
pub mod whole;

pub use array_part::{ArrayPart, EncodedArray, GivenPart, WholeArray};
pub use array_to_array::ArrayToArrayCodecTraits;
pub use array_to_bytes::ArrayToBytesCodecTraits;
pub use byte_range::ByteRange;
pub use byte_source::BytesPartialDecoderTraits;
pub use byte_target::BytesPartialEncoderTraits;
pub use bytes_representation::BytesRepresentation;
pub use bytes_to_bytes::BytesToBytesCodecTraits;
pub use indexer::Indexer;
pub use interval_source::IntervalSource;
pub use memory_source::MemorySource;
pub use pieces::{ArrayPieces, PiecePlaces, PieceSlice, SplitArray, SplitValue, ValuePieces};
pub use target::{ArrayBytesDecodeIntoTarget, OptionalTarget};
pub use target_bytes::TargetBytes;
pub use value_patch::{ValuePatch, ValuePatches};
pub use whole::read_value;
