//! What a shard asks of the codecs inside it, those of its subchunks and those of its index, and
//! what codecs around one ask of it.
#![tactic(auto)]

pub mod chain_metadata;
pub mod index_codec;
pub mod inner_codec;
pub mod options;
mod plain_codecs;

pub use chain_metadata::{ChainOfMetadata, IndexChainOfMetadata};
pub use index_codec::IndexCodec;
pub use inner_codec::InnerCodec;
pub use options::{ShardingCodecOptions, TakesShardingOptions};
