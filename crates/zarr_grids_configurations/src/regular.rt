//! The configurations of `regular` and `regular_bounded`.

use zarr_grids_boxes::ChunkShape;

/// The configuration of `regular`: the shape of all its chunks.
#[derive(Debug, PartialEq, Eq, Drop)]
pub struct RegularChunkGridConfiguration {
    pub chunk_shape: ChunkShape,
}

/// The configuration of `regular_bounded`, which has the same fields.
pub type RegularBoundedChunkGridConfiguration = RegularChunkGridConfiguration;
