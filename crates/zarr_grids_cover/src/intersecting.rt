//! The chunks that a box of places intersects.
ghost use Rattle.std.specs.Prelude.{◌<◌, IfOk};
ghost use Rattle.zarr_grids_boxes.specs.Boxes.{product};
ghost use Rattle.zarr_grids_boxes.specs.Subsets.{region_of};
ghost use Rattle.zarr_grids_chunks.specs.Grids.{IsCovered};
ghost use Rattle.zarr_grids_dimensions.specs.Dimensions.{grid_of};
ghost use Rattle.zarr_grids_cover.specs.Intersecting.{AreIntersecting};

use std::alloc::{AllocError, Global};
use zarr_grids_boxes::ArraySubset;
use zarr_grids_dimensions::boxes::chunks_in_array_subset;
use zarr_grids_dimensions::{Dimension, LookupError};

/// The chunks that a covered box of places intersects, as a box of chunk indices: from the chunk of
/// its first place to the chunk of its last one (Zarr core, regular grids; for the other dimensions
/// this project's profile). The error is that memory ran out. Ask `covers` first whether a box is
/// covered.
pub fn chunks_intersecting(
    alloc: Global,
    grid: &[Dimension],
    region: &ArraySubset,
) -> Result<ArraySubset, AllocError>
    requires covered { IsCovered (grid_of grid.now) (region_of region.now) }
    requires some { 0 < product region.now.shape.items }
    ensures { IfOk result (λ chunks.
        AreIntersecting (grid_of grid.now) (region_of region.now) (region_of chunks)) }
{
    match chunks_in_array_subset(alloc, grid, region) {
        Ok(Some(chunks)) => Ok(chunks),
        Ok(None) => unreachable!(),
        Err(LookupError::Memory(error)) => Err(error),
        Err(LookupError::Dimensionality(_)) => unreachable!(),
    }
}
