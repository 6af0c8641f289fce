//! Data types, elements, and the codecs that store them, for any program that reads or writes Zarr
//! arrays.
//!
//! - Data types and fill values: a `DataType` says what the elements of an array are, and a
//!   `FillValue` is one of them. Both are read from their metadata and written as it.
//! - Elements: `ArrayBytes` are elements as calls take and give them, and `Elements` say of what
//!   type they are and which value they fill with. An `Indexer` asks for a box of places or for a
//!   list of them.
//! - Boxes: an `ArraySubset` is a box of places, by its start and its shape, and `Indices` and
//!   `LinearisedIndices` walk over it.
//! - Codecs: an `ArrayToArrayCodec` gives elements another order or shape, an `ArrayToBytesCodec`
//!   stores them as bytes. Each codec is made by `new`, by its configuration, or from its metadata,
//!   which it is also written as. A caller brings codecs between bytes as a type with
//!   `BytesToBytesCodecTraits`.
//! - Chains: a `CodecChain` is array to array codecs, an array to bytes codec and bytes to bytes
//!   codecs. It encodes and decodes by `ArrayToBytesCodecTraits`, whole or in part.
//! - Sources: `BytesPartialDecoderTraits` is what a stored value is read by in part,
//!   `BytesPartialEncoderTraits` what it is written by. A `MemorySource` is one in memory, and an
//!   `IntervalSource` is a part of another one's value.
//! - Coders: a `CodecPartialDecoder` and a `CodecPartialEncoder` are a codec, an array and a lent
//!   source, whose parts they decode and encode; `partial_decoder` and `partial_encoder` of a chain
//!   give them.
//! - Targets: `ArrayBytesDecodeIntoTarget` takes decoded elements into a box of lent bytes.
//! - Options: `CodecOptions` of calls that encode and decode, all false by default.
//! - Errors: a `CodecError` says why a codec refuses, a `PluginCreateError` why none is made of
//!   metadata.
#![tactic(auto)]

pub use zarr_codecs_array_to_array::{
    ArrayToArrayCodec, ReshapeCodec, ReshapeCodecConfiguration, ReshapeDim, ReshapeShape,
    SqueezeCodec, SqueezeCodecConfiguration, TransposeCodec, TransposeCodecConfiguration,
    TransposeOrder,
};
pub use zarr_codecs_arrays::{ArrayBytes, ArrayBytesOffsets, CodecError, Elements};
pub use zarr_codecs_bytes::{BytesCodec, BytesCodecConfiguration, Endianness};
pub use zarr_codecs_chains::{ArrayToBytesCodec, CodecChain, OptionalCodec, VlenCodec};
pub use zarr_codecs_coders::{CodecPartialDecoder, CodecPartialEncoder};
pub use zarr_codecs_configurations::{OptionalCodecConfiguration, VlenCodecConfiguration};
pub use zarr_codecs_options::{CodecMetadataOptions, CodecOptions};
pub use zarr_codecs_packbits::{
    PackBitsCodec, PackBitsCodecConfiguration, PackBitsPaddingEncoding,
};
pub use zarr_codecs_regions::{copy_fill_value_into, extract_array_subset, update_array_bytes};
pub use zarr_codecs_sections::{VlenIndexDataType, VlenIndexLocation};
pub use zarr_codecs_traits::{
    ArrayBytesDecodeIntoTarget, ArrayPart, ArrayPieces, ArrayToArrayCodecTraits,
    ArrayToBytesCodecTraits, ByteRange, BytesPartialDecoderTraits, BytesPartialEncoderTraits,
    BytesRepresentation, BytesToBytesCodecTraits, EncodedArray, GivenPart, Indexer, IntervalSource,
    MemorySource, OptionalTarget, PiecePlaces, PieceSlice, SplitArray, SplitValue, TargetBytes,
    ValuePatch, ValuePatches, ValuePieces, WholeArray,
};
pub use zarr_codecs_types::{
    Cell, Component, DataType, DataTypeError, FillValue, FillValueError, Sign, data_type,
};
pub use zarr_grids_boxes::{ArraySubset, ArraySubsetError, Indices, LinearisedIndices};
pub use zarr_grids_metadata::{MetadataV3, PluginCreateError};
