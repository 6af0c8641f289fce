//! Shards of any written order, with gaps or without, written anew row-major without gaps.
#![tactic(auto)]

pub mod compact;
pub mod laws;
pub mod layout;
pub mod slices;

pub use compact::compact_shard;
pub use layout::ShardLayout;
