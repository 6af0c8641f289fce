//! The codec `sharding_indexed`: the elements of an array as those of its subchunks, each encoded
//! by itself, and an index of where each stands.
#![tactic(auto)]

mod array_to_bytes;
mod as_is;
mod assembling;
pub mod box_reading;
mod box_updating;
pub mod codec;
pub mod configuration;
mod cut_arrays;
mod cut_parts;
mod cut_values;
mod decoding;
mod encoding;
mod fitting;
mod inner;
mod known_shards;
mod made_pieces;
mod options;
pub mod part_writing;
pub mod partial;
pub mod parts;
mod representing;
mod slices;
mod storing;
mod subchunks;
pub mod updating;
mod whole_subchunk;
mod whole_values;

pub use box_reading::IndexedPlaces;
pub use codec::ShardingCodec;
pub use part_writing::TestedPart;
pub use partial::{NumberedPlaces, OpenedShard};
pub use updating::{AskedElements, NumberedElements, NumberedSubchunk, ShardInSource};
pub use zarr_sharding_configurations::ShardingCodecConfiguration;
pub use zarr_sharding_inner::{
    ChainOfMetadata, IndexChainOfMetadata, IndexCodec, ShardingCodecOptions, TakesShardingOptions,
};
