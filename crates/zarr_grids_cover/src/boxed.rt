//! The chunks in the grid that have a box.
ghost use Rattle.std.specs.Prelude.{◌≡◌, IfOk};
ghost use Rattle.zarr_grids_boxes.specs.Subsets.{region_of};
ghost use Rattle.zarr_grids_dimensions.specs.Dimensions.{dimension_of, grid_of};
ghost use Rattle.zarr_grids_cover.specs.Boxed.{addressable_count, AreBoxed};

use std::alloc::{AllocError, Global};
use zarr_grids_boxes::ArraySubset;
use zarr_grids_dimensions::Dimension;

/// The chunks in the grid that have a box, as a box of chunk indices: those that end at most at
/// 2^64 - 1 in each dimension. The error is that memory ran out.
pub fn chunks_in_grid(alloc: Global, grid: &[Dimension]) -> Result<ArraySubset, AllocError>
    ensures { IfOk result (λ chunks. AreBoxed (grid_of grid.now) (region_of chunks)) }
{
    let start = vec![in alloc; 0u64; grid.len()]?;
    let mut shape = Vec::with_capacity(alloc, grid.len())?;
    for dimension in grid {
        shape.push(count_addressable(dimension))?;
    }
    Ok(ArraySubset { start, shape })
}

/// How many chunks of a dimension end at most at 2^64 - 1: of its chunks those before the one that
/// the place 2^64 - 1 lies in.
fn count_addressable(dimension: &Dimension) -> u64
    ensures { result ≡ addressable_count (dimension_of dimension.now) }
{
    let count = dimension.chunk_count();
    match dimension.chunk_of(u64::MAX) {
        Some(chunk) => count.min(chunk),
        None => count,
    }
}
