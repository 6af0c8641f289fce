//! Which chunks lie in the grid, and which boxes of places the chunks in the grid cover.
ghost use Rattle.std.specs.Prelude.{◌≡◌, ◌↔◌, ◌<◌, IsTrue, length};
ghost use Rattle.zarr_grids_boxes.specs.Boxes.{Region, product, EndsFit, last_index};
ghost use Rattle.zarr_grids_boxes.specs.Subsets.{region_of};
ghost use Rattle.zarr_grids_chunks.specs.Grids.{IsInGrid, AreInGrid, IsCovered};
ghost use Rattle.zarr_grids_dimensions.specs.Dimensions.{dimension_of, grid_of};
ghost use Rattle.zarr_grids_dimensions.specs.Lookups.{in_all};
ghost use Rattle.zarr_grids_cover.specs.InGrid.{is_number_in_grid, is_place_covered};

use zarr_grids_boxes::ArraySubset;
use zarr_grids_boxes::walk::has_no_place;
use zarr_grids_dimensions::Dimension;

/// Whether a box of places has the grid's dimensions, and each of its places lies in a chunk in the
/// grid that ends at most at 2^64 - 1. Ask this before the box is read or written.
pub fn covers(grid: &[Dimension], region: &ArraySubset) -> bool
    ensures { IsTrue result ↔ IsCovered (grid_of grid.now) (region_of region.now) }
{
    if region.start.len() != grid.len() {
        return false;
    }
    has_no_place(&region.shape) || is_last_covered(grid, &region.start, &region.shape)
}

/// Whether the last place of a box that is not empty lies in such a chunk.
fn is_last_covered(grid: &[Dimension], start: &[u64], shape: &[u64]) -> bool
    requires rank { length start.now ≡ length grid.now }
    requires same { length shape.now ≡ length start.now }
    requires some { 0 < product shape.now }
    requires fit { EndsFit start.now shape.now }
    ensures { result ≡ in_all is_place_covered (grid_of grid.now) (last_index start.now shape.now) }
{
    for k in 0..grid.len() {
        let last = start[k] + (shape[k] - 1);
        if !is_place_covered(&grid[k], last) {
            return false;
        }
    }
    true
}

/// Whether a place lies in such a chunk, along one dimension.
fn is_place_covered(dimension: &Dimension, place: u64) -> bool
    ensures { result ≡ is_place_covered (dimension_of dimension.now) place }
{
    match dimension.chunk_of(place) {
        Some(chunk) => is_number_in_grid(dimension, chunk),
        None => false,
    }
}

/// Whether a chunk index has the grid's dimensions and lies in the grid, and the chunk has a box:
/// it ends at most at 2^64 - 1 in each dimension.
pub fn is_in_grid(grid: &[Dimension], chunk: &[u64]) -> bool
    ensures { IsTrue result ↔ ((box : Region) × IsInGrid (grid_of grid.now) chunk.now box) }
{
    if chunk.len() != grid.len() {
        return false;
    }
    is_index_in_grid(grid, chunk)
}

/// Whether an index with the grid's dimensions is that of such a chunk.
fn is_index_in_grid(grid: &[Dimension], chunk: &[u64]) -> bool
    requires { length chunk.now ≡ length grid.now }
    ensures { result ≡ in_all is_number_in_grid (grid_of grid.now) chunk.now }
{
    for k in 0..grid.len() {
        if !is_number_in_grid(&grid[k], chunk[k]) {
            return false;
        }
    }
    true
}

/// Whether a chunk number is that of such a chunk, along one dimension.
fn is_number_in_grid(dimension: &Dimension, number: u64) -> bool
    ensures { result ≡ is_number_in_grid (dimension_of dimension.now) number }
{
    number < dimension.chunk_count() && dimension.addressable(number).is_some()
}

/// Whether a box of chunk indices has the grid's dimensions, and each of its chunks lies in the
/// grid and has a box.
pub fn are_in_grid(grid: &[Dimension], chunks: &ArraySubset) -> bool
    ensures { IsTrue result ↔ AreInGrid (grid_of grid.now) (region_of chunks.now) }
{
    if chunks.start.len() != grid.len() {
        return false;
    }
    has_no_place(&chunks.shape) || is_last_in_grid(grid, &chunks.start, &chunks.shape)
}

/// Whether the last index of a box that is not empty is that of such a chunk.
fn is_last_in_grid(grid: &[Dimension], start: &[u64], shape: &[u64]) -> bool
    requires rank { length start.now ≡ length grid.now }
    requires same { length shape.now ≡ length start.now }
    requires some { 0 < product shape.now }
    requires fit { EndsFit start.now shape.now }
    ensures { result
        ≡ in_all is_number_in_grid (grid_of grid.now) (last_index start.now shape.now) }
{
    for k in 0..grid.len() {
        let last = start[k] + (shape[k] - 1);
        if !is_number_in_grid(&grid[k], last) {
            return false;
        }
    }
    true
}
