//! Documents that were opened.
use zarr_codecs_arrays::Elements;
use zarr_codecs_traits::BytesToBytesCodecTraits;
use zarr_grids_chunk_grids::ChunkGrid;
use zarr_grids_keys::ChunkKeyEncoding;
use zarr_sharding_chains::ArrayChain;

/// What a document that was opened says of an array's elements and of where they are stored.
#[derive(Debug, Drop)]
pub struct ArrayDocument<B: BytesToBytesCodecTraits> {
    /// The shape of the array, and how its chunks lie.
    pub grid: ChunkGrid,
    /// How a chunk's index becomes its key.
    pub keys: ChunkKeyEncoding,
    pub elements: Elements,
    pub codecs: ArrayChain<B>,
}
