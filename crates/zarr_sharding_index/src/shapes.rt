//! The grid of a shard's subchunks, and the shape of its index.
ghost use Rattle.std.specs.Prelude.{◌≡◌, ◌<◌, ◌+◌, ◌-◌, ◌/◌, ◌++◌, length, IfOk};
ghost use Rattle.zarr_codecs_meaning.specs.Places.{grid_of, index_shape};
ghost use Rattle.zarr_grids_boxes.specs.Boxes.{product};

use std::alloc::{AllocError, Global};
use zarr_grids_boxes::ChunkShape;

/// How many subchunks there are in each dimension: the size divided by the subchunk's, rounded up.
/// The shard has as many dimensions as the subchunk.
pub fn grid_of(alloc: Global, shape: &[u64], subchunk: &ChunkShape) -> Result<Vec<u64>, AllocError>
    requires { length shape.now ≡ length subchunk.now }
    ensures { IfOk result (λ grid. grid.items ≡ grid_of shape.now subchunk.now) }
{
    let grid = Vec::with_capacity(alloc, shape.len() + 1)?;
    push_grid(shape, subchunk.as_slice(), grid)
}

/// Adds how many subchunks there are in each dimension to other numbers.
fn push_grid(shape: &[u64], edges: &[u64], mut grid: Vec<u64>) -> Result<Vec<u64>, AllocError>
    requires { 0 < product edges.now }
    ensures { IfOk result (λ made. made.items ≡ grid.items ++ grid_of shape.now edges.now) }
{
    let Some((size, sizes)) = shape.split_first() else {
        return Ok(grid);
    };
    let Some((edge, edges)) = edges.split_first() else {
        return Ok(grid);
    };
    grid.push(count_along(*size, *edge))?;
    push_grid(sizes, edges, grid)
}

/// How many subchunks of this edge there are in a dimension of this size.
#[tactic(auto, using(crate::proofs::Grids::rounded_up))]
fn count_along(size: u64, edge: u64) -> u64
    requires { 0 < edge }
    ensures { result ≡ (size + (edge - 1)) / edge }
{
    size.div_ceil(edge)
}

/// The shape of the index: that of the grid of subchunks, with a last dimension of two numbers for
/// each subchunk (Zarr sharding codec, "Binary shard format").
pub fn index_shape(
    alloc: Global,
    shape: &[u64],
    subchunk: &ChunkShape,
) -> Result<Vec<u64>, AllocError>
    requires { length shape.now ≡ length subchunk.now }
    ensures { IfOk result (λ made. made.items ≡ index_shape shape.now subchunk.now) }
{
    let mut made = grid_of(alloc, shape, subchunk)?;
    made.push(2)?;
    Ok(made)
}
