//! What is kept of a shard that is read in part.
use zarr_sharding_index::FetchedIndex;

/// What `open_shard` gives and a `ShardingPartialDecoder` keeps: the index of the shard that a
/// source holds, or that it holds none; how many subchunks the array has in each dimension; and
/// how many bytes the pairs of present subchunks take.
#[derive(Debug, Drop)]
pub struct OpenedIndex {
    pub(crate) grid: Vec<u64>,
    pub(crate) held: Option<FetchedIndex>,
    pub(crate) size: usize,
}
