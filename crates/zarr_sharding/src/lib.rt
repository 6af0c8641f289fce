//! Shards: arrays stored in subchunks that are encoded on their own, behind an index that says
//! where each one stands (Zarr sharding codec).
//!
//! - Codecs: a `ShardingCodec` encodes and decodes shards by `ArrayToBytesCodecTraits`, whole or in
//!   part, over any codecs of their subchunks and of their index. It is made by `new`, by its
//!   configuration, or by a `ShardingCodecBuilder`.
//! - Chains: a `ShardedChain` is array to array codecs, a `ShardingCodec` and bytes to bytes
//!   codecs; an `ArrayChain` is any chain that an array may have, without shards, in shards, or in
//!   shards of shards, read from the metadata of its codecs.
//! - Options: `ShardingCodecOptions` say in which order subchunks are written, at every depth.
//! - Readers: a `ShardingPartialDecoder` keeps the index of the shard that a source holds, and
//!   reads parts of it, or the encoded bytes of a subchunk.
//! - Writers: a `ShardState` owns its source, and is a table of cells: each part is written by one
//!   call that appends the subchunks that it intersects. A `ShardingPartialEncoder` is such a state
//!   behind a lock.
//! - Parts: `read_asked`, `read_numbers`, `update_asked` and `update_slices` of a `ShardingCodec`
//!   are the calls that readers and writers are made of. They take an `OpenedShard` or a
//!   `ShardInSource`, whose `KnownShard` writes a `SliceChange` for each subchunk that changed.
#![tactic(auto)]

pub use zarr_codecs_options::SubchunkWriteOrder;
pub use zarr_sharding_chains::{ArrayChain, ShardedChain, ShardingCodecBuilder};
pub use zarr_sharding_codec::{
    AskedElements, IndexedPlaces, NumberedElements, NumberedPlaces, NumberedSubchunk, OpenedShard,
    ShardInSource, ShardingCodec, TestedPart,
};
pub use zarr_sharding_configurations::ShardingCodecConfiguration;
pub use zarr_sharding_index::{
    FetchedIndex, IndexLayout, KnownShard, PresentPair, PresentPairs, ShardingIndexLocation,
    SliceChange,
};
pub use zarr_sharding_inner::{
    ChainOfMetadata, IndexChainOfMetadata, IndexCodec, InnerCodec, ShardingCodecOptions,
    TakesShardingOptions,
};
pub use zarr_sharding_partial::{
    OpenedIndex, ShardState, ShardingPartialDecoder, ShardingPartialEncoder, open_shard,
};
