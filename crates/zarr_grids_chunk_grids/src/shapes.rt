//! Shapes of chunks, which have no edge of 0.
ghost use Rattle.std.specs.Prelude.{◌≡◌, length, option_map, IfOk, IfErr};
ghost use Rattle.zarr_grids_dimensions.specs.Chunks.{shape};
ghost use Rattle.zarr_grids_dimensions.specs.Dimensions.{grid_of};
ghost use Rattle.zarr_grids_dimensions.specs.Errors.{Tells};

use std::alloc::Global;
use zarr_grids_boxes::ChunkShape;
use zarr_grids_dimensions::{Dimension, LookupError, lookups};

/// How many places a chunk has in each dimension, which is more than 0, if there is such a chunk.
#[tactic(auto, using(crate::proofs::PositiveShapes::shape_positive))]
pub fn positive_chunk_shape(
    alloc: Global,
    grid: &[Dimension],
    chunk: &[u64],
) -> Result<Option<ChunkShape>, LookupError>
    ensures found { IfOk result (λ found. found ≡ shape (grid_of grid.now) chunk.now) }
    ensures rank { IfOk result (λ _. length chunk.now ≡ length grid.now) }
    ensures error { IfErr result (Tells (length chunk.now) (length grid.now)) }
{
    let Some(edges) = lookups::chunk_shape(alloc, grid, chunk)? else {
        return Ok(None);
    };
    match ChunkShape::new(edges) {
        Ok(chunk_shape) => Ok(Some(chunk_shape)),
        Err(_) => Ok(None),
    }
}
