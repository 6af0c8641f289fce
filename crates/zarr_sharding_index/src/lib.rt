//! The index of a shard: where each subchunk's slice stands, how that is read and written, and
//! which bytes of a value a slice is; and what is known of a shard in a source, whose subchunks are
//! replaced by one writing call.
#![tactic(auto)]

pub mod fetched_index;
mod fetched_shard;
mod given_changes;
pub mod index;
pub mod known_shard;
pub mod laws;
pub mod location;
mod numbers;
pub mod pair;
pub mod present;
pub mod shapes;
mod slice_changes;
pub mod stored;

pub use fetched_index::{FetchedIndex, IndexLayout};
pub use index::ShardIndex;
pub use known_shard::KnownShard;
pub use location::ShardingIndexLocation;
pub use pair::PresentPair;
pub use present::PresentPairs;
pub use slice_changes::SliceChange;
