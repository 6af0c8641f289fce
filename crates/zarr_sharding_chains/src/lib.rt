//! Chains of codecs around a shard, and the chains that arrays have: with a shard, with a shard of
//! shards, or without any; and a builder of shards whose subchunks and index have chains.
#![tactic(auto)]

pub mod array_chain;
mod array_values;
pub mod builder;
mod default_codec;
mod nesting;
pub mod sharded_chain;
mod sharded_metadata;
mod sharded_values;

pub use array_chain::{ArrayChain, read_array_chain};
pub use builder::ShardingCodecBuilder;
pub use sharded_chain::ShardedChain;
