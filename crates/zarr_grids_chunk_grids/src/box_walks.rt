//! Walks over the boxes of the chunks in a grid.
ghost use Rattle.std.specs.Prelude.{◌≡◌, [], Some, Ok, option_map, IsTrue, IfOk, IfSome, IfNone};
ghost use Rattle.std.specs.Iterator.{item_count};
ghost use Rattle.zarr_grids_boxes.specs.Subsets.{region_of};
ghost use Rattle.zarr_grids_chunks.specs.Grids.{chunk_box, chunk_indices};
ghost use Rattle.zarr_grids_dimensions.specs.Dimensions.{grid_of};
ghost use Rattle.zarr_grids_chunk_grids.specs.Walks.{chunks_left, subsets_left, dimensions_of_subsets, pairs_left, dimensions_of_pairs, PassesOver, GivesNext};

use crate::walks::ChunkIndices;
use std::alloc::{AllocError, Global};
use zarr_grids_boxes::{ArrayIndices, ArraySubset};
use zarr_grids_dimensions::{Dimension, LookupError, lookups};

/// The box of a chunk, where it has one.
#[tactic(auto, using(crate::proofs::Walking::other_length))]
fn box_of(
    alloc: Global,
    grid: &[Dimension],
    chunk: &[u64],
) -> Result<Option<ArraySubset>, AllocError>
    ensures { IfOk result
        (λ found. option_map region_of found ≡ chunk_box (grid_of grid.now) chunk.now) }
{
    match lookups::subset(alloc, grid, chunk) {
        Ok(found) => Ok(found),
        Err(LookupError::Dimensionality(_)) => Ok(None),
        Err(LookupError::Memory(error)) => Err(error),
    }
}

/// Goes on to the next chunk that has a box, and finds that box.
fn find_box(
    alloc: Global,
    grid: &[Dimension],
    chunks: &mut ChunkIndices,
) -> Option<Result<ArraySubset, AllocError>>
    ensures passes { PassesOver (grid_of grid.now) (chunks_left chunks.old)
        (chunks_left chunks.new) }
    ensures found { IfSome result (λ item. IsTrue chunks.new.more × IfOk item
        (λ subset. chunk_box (grid_of grid.now) chunks.new.next.items ≡ Some (region_of subset))) }
    ensures none { IfNone result (chunks_left chunks.new ≡ []) }
{
    while chunks.more {
        let found = match box_of(alloc, grid, &chunks.next) {
            Ok(found) => found,
            Err(error) => return Some(Err(error)),
        };
        match found {
            Some(subset) => return Some(Ok(subset)),
            None => chunks.go_on(),
        }
    }
    None
}

/// The boxes of the chunks in the grid that a walk has left, row-major. A chunk whose end passes
/// 2^64 - 1 has no box, and is passed over.
#[derive(Drop)]
pub struct ChunkSubsets<'a> {
    grid: &'a [Dimension],
    alloc: Global,
    chunks: ChunkIndices,
}

impl<'a> ChunkSubsets<'a> {
    /// The boxes of all chunks in the grid.
    pub fn new(alloc: Global, grid: &'a [Dimension]) -> Result<ChunkSubsets<'a>, AllocError>
        ensures left { IfOk result (λ walk. subsets_left walk ≡ chunk_indices (grid_of grid.now)) }
        ensures grid { IfOk result (λ walk. dimensions_of_subsets walk ≡ grid.now) }
    {
        let chunks = ChunkIndices::new(alloc, grid)?;
        Ok(ChunkSubsets {
            grid,
            alloc,
            chunks,
        })
    }
}

impl<'a> Iterator for ChunkSubsets<'a> {
    type Item = Result<ArraySubset, AllocError>;

    ghost next_gives = { λ old given new. let grid = grid_of (dimensions_of_subsets old) in
        (dimensions_of_subsets new ≡ dimensions_of_subsets old)
        × GivesNext grid (subsets_left old) (subsets_left new)
        (λ chunk item. IfOk item
        (λ subset. chunk_box grid chunk ≡ Some (region_of subset))) given };

    ghost remaining = { item_count subsets_left };

    fn next(&mut self) -> Option<Result<ArraySubset, AllocError>> {
        match find_box(self.alloc, self.grid, &mut self.chunks) {
            Some(found) => {
                self.chunks.go_on();
                Some(found)
            }
            None => None,
        }
    }
}

/// The chunks in the grid that a walk has left, row-major, each with its box. A chunk whose end
/// passes 2^64 - 1 has no box, and is passed over.
#[derive(Drop)]
pub struct ChunkIndicesAndSubsets<'a> {
    grid: &'a [Dimension],
    alloc: Global,
    chunks: ChunkIndices,
}

impl<'a> ChunkIndicesAndSubsets<'a> {
    /// All chunks in the grid, and their boxes.
    pub fn new(
        alloc: Global,
        grid: &'a [Dimension],
    ) -> Result<ChunkIndicesAndSubsets<'a>, AllocError>
        ensures left { IfOk result (λ walk. pairs_left walk ≡ chunk_indices (grid_of grid.now)) }
        ensures grid { IfOk result (λ walk. dimensions_of_pairs walk ≡ grid.now) }
    {
        let chunks = ChunkIndices::new(alloc, grid)?;
        Ok(ChunkIndicesAndSubsets {
            grid,
            alloc,
            chunks,
        })
    }
}

impl<'a> Iterator for ChunkIndicesAndSubsets<'a> {
    type Item = Result<(ArrayIndices, ArraySubset), AllocError>;

    ghost next_gives = { λ old given new. let grid = grid_of (dimensions_of_pairs old) in
        (dimensions_of_pairs new ≡ dimensions_of_pairs old)
        × GivesNext grid (pairs_left old) (pairs_left new)
        (λ chunk item. IfOk item (λ pair. (pair.0.items ≡ chunk)
        × (chunk_box grid chunk ≡ Some (region_of pair.1)))) given };

    ghost remaining = { item_count pairs_left };

    fn next(&mut self) -> Option<Result<(ArrayIndices, ArraySubset), AllocError>> {
        match find_box(self.alloc, self.grid, &mut self.chunks) {
            Some(found) => {
                let chunk = self.chunks.next.to_vec(self.alloc);
                self.chunks.go_on();
                Some(joined(chunk, found))
            }
            None => None,
        }
    }
}

/// A chunk and its box, where memory was found for both.
fn joined(
    chunk: Result<ArrayIndices, AllocError>,
    subset: Result<ArraySubset, AllocError>,
) -> Result<(ArrayIndices, ArraySubset), AllocError>
    ensures { IfOk result (λ pair. (chunk ≡ Ok pair.0) × (subset ≡ Ok pair.1)) }
{
    let chunk = chunk?;
    let subset = subset?;
    Ok((chunk, subset))
}
