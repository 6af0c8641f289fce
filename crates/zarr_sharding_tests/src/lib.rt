//! Tests of shards that need code: a shard behind a lock, an index of many subchunks, and metadata
//! that no document has. Shards that a builder makes are in `zarr_sharding_builders_tests`, options
//! and shards of shards in `zarr_sharding_nesting_tests`. What shards are encoded and decoded to,
//! read, written and compacted, also over sources that refuse calls, is in the calls of the
//! repository.
#![tactic(auto)]

#[cfg(test)]
mod deep;
#[cfg(test)]
mod encoders;
#[cfg(test)]
mod many;
