//! What a regular grid alone answers. The four grids made of edges by their constructors are in the
//! scripts of `zarr_scarcity`, and what they answer is in calls/grids.calls.
use crate::samples::edges;
use std::alloc::Global;
use zarr_grids::{GridError, RegularChunkGrid};

/// The regular grid of an array of one dimension, for the edges of a chunk.
fn regular(alloc: Global, size: u64, edge: &[u64]) -> Result<RegularChunkGrid, GridError> {
    let shape = [size].to_vec(alloc)?;
    match RegularChunkGrid::new(alloc, shape, edges(alloc, edge)?) {
        Ok(grid) => Ok(grid),
        Err(_) => Err(GridError::Sum),
    }
}

/// Whether chunks of 4 are the one shape of their regular grid, which is equal to its copy.
fn has_one_shape(alloc: Global) -> Result<bool, GridError> {
    let grid = regular(alloc, 8, &[4])?;
    let sizes = RegularChunkGrid::chunk_shape_u64(&grid, alloc)?;
    let shape = RegularChunkGrid::chunk_shape(&grid);
    let fours = [4].as_slice();
    Ok(sizes.as_slice() == fours && shape.as_slice() == fours && grid.try_clone(alloc)? == grid)
}

#[test]
fn a_regular_grid_has_one_chunk_shape(rt: HostRuntime) {
    assert!(rt; has_one_shape(rt.alloc()) == Ok(true));
    assert!(rt; regular(rt.alloc(), 8, &[4, 4]).is_err());
}
