//! The box of a chunk in the grid.
ghost use Rattle.std.specs.Prelude.{◌≡◌, length, IfOk};
ghost use Rattle.zarr_grids_boxes.specs.Boxes.{Region};
ghost use Rattle.zarr_grids_boxes.specs.Subsets.{region_of};
ghost use Rattle.zarr_grids_chunks.specs.Grids.{chunk_box, IsInGrid};
ghost use Rattle.zarr_grids_dimensions.specs.Dimensions.{grid_of};

use std::alloc::{AllocError, Global};
use zarr_grids_boxes::ArraySubset;
use zarr_grids_dimensions::lookups::subset;
use zarr_grids_dimensions::{Dimension, LookupError};

/// Writes where the box of a chunk in the grid starts into `origin`, and how long it is in each
/// dimension into `shape`. It allocates nothing.
pub fn chunk_box_into(grid: &[Dimension], chunk: &[u64], origin: &mut [u64], shape: &mut [u64])
    requires below { (box : Region) × IsInGrid (grid_of grid.now) chunk.now box }
    requires origin { length origin.old ≡ length grid.now }
    requires shape { length shape.old ≡ length grid.now }
    ensures written { IsInGrid (grid_of grid.now) chunk.now
        (record { start = origin.new; shape = shape.new }) }
    ensures origin { length origin.new ≡ length grid.now }
    ensures shape { length shape.new ≡ length grid.now }
{
    for k in 0..grid.len() {
        let interval = grid[k].addressable(chunk[k]).unwrap();
        origin[k] = interval.first;
        shape[k] = interval.count;
    }
}

/// The box of a chunk in the grid.
pub fn chunk_region(
    alloc: Global,
    grid: &[Dimension],
    chunk: &[u64],
) -> Result<ArraySubset, AllocError>
    requires below { (box : Region) × IsInGrid (grid_of grid.now) chunk.now box }
    ensures { IfOk result (λ region. IsInGrid (grid_of grid.now) chunk.now (region_of region)) }
{
    match subset(alloc, grid, chunk) {
        Ok(Some(region)) => Ok(region),
        Ok(None) => unreachable!(),
        Err(LookupError::Dimensionality(_)) => unreachable!(),
        Err(LookupError::Memory(error)) => Err(error),
    }
}
