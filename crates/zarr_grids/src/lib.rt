//! Boxes, chunk grids, chunk keys and the metadata of both, for any program that reads or writes
//! Zarr arrays.
//!
//! - Boxes: an `ArraySubset` is a box of places or of chunks, by its start and its shape, and
//!   `Indices` and `LinearisedIndices` walk over it. `ravel_indices` and `unravel_index` turn a
//!   place of a shape into its row-major number and back. An `ArrayShape` has any sizes, a
//!   `ChunkShape` none of 0.
//! - Chunk grids: the four grids, each made from an array's shape and edges or from its extension
//!   point. `ChunkGridTraits` is what all of them answer: which chunks there are, where each lies,
//!   which chunk a place lies in, which chunks a box intersects, and the three walks. `ChunkGrid`
//!   is any of them, made from each by `from`. Each grid's `CreateError` says why its edges make no
//!   grid; all of these convert to a `GridError`. A `LookupError` is for a place or a chunk of
//!   another dimensionality, or for memory that ran out.
//! - Configurations of grids: the fields of each grid's configuration, typed. The edges along a
//!   dimension are one edge for all chunks, a list, or repeats of equal edges.
//! - Chunk keys: the three encodings, each of which gives a chunk's name in a store.
//!   `ChunkKeyEncoding` is any of them, and `ChunkKeyEncodingTraits` is for code that takes any of
//!   them. `create` makes one encoding from an extension point, `ChunkKeyEncoding::from_metadata`
//!   makes whichever it names, and `metadata` writes it as one. A `StoreKey` is a name in a store,
//!   a `NodePath` a node's place in a hierarchy. `chunk_key` and `document_key` give the keys of a
//!   node's chunks and documents.
//! - Configurations of encodings: the fields of each encoding's configuration, typed.
//! - Metadata: a `MetadataV3` is an extension point, a name and a configuration in JSON, from which
//!   grids and encodings are made. A `PluginCreateError` says why one isn't made.
#![tactic(auto)]

pub use zarr_grids_boxes::{
    ArrayIndices, ArrayShape, ArraySubset, ArraySubsetError, ChunkShape, ChunkShapeError, Indices,
    LinearisedIndices, chunk_shape_to_array_shape, ravel_indices, unravel_index,
};
pub use zarr_grids_chunk_grids::{
    ChunkGrid, ChunkGridTraits, ChunkIndices, ChunkIndicesAndSubsets, ChunkSubsets,
    RectangularChunkGrid, RectangularChunkGridCreateError, RectilinearChunkGrid,
    RectilinearChunkGridCreateError, RegularBoundedChunkGrid, RegularBoundedChunkGridCreateError,
    RegularChunkGrid, RegularChunkGridCreateError,
};
pub use zarr_grids_configurations::{
    ChunkEdgeLengths, GridError, RectangularChunkGridConfiguration,
    RectangularChunkGridDimensionConfiguration, RectilinearChunkGridConfiguration,
    RegularBoundedChunkGridConfiguration, RegularChunkGridConfiguration, RunLengthElement,
};
pub use zarr_grids_dimensions::{
    Dimension, IncompatibleDimensionalityError, LookupError, RepeatedEdge,
};
pub use zarr_grids_keys::{
    ChunkKeyEncoding, ChunkKeyEncodingTraits, ChunkKeySeparator, DefaultChunkKeyEncoding,
    DefaultChunkKeyEncodingConfiguration, DefaultSuffixChunkKeyEncoding,
    DefaultSuffixChunkKeyEncodingConfiguration, DocumentName, NodePath, NodePathError, StoreKey,
    StoreKeyError, SuffixEndsWithSlashError, V2ChunkKeyEncoding, V2ChunkKeyEncodingConfiguration,
    are_related, chunk_key, chunk_key_into, document_key, is_node_path, parent_path,
};
pub use zarr_grids_metadata::{MetadataV3, PluginCreateError};
