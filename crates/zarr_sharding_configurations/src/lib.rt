//! The configuration of `sharding_indexed`, read from metadata and written as it.
#![tactic(auto)]

mod lists;
mod reading;
pub mod sharding;
mod writing;

pub use sharding::ShardingCodecConfiguration;
