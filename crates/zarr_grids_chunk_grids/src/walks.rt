//! The walk over the chunks in a grid.
ghost use Rattle.std.specs.Prelude.{◌≡◌, List, ℕ, [], ◌∷◌, true, IsTrue, IfOk, MatchOption};
ghost use Rattle.std.specs.Iterator.{item_count};
ghost use Rattle.zarr_grids_boxes.specs.Boxes.{is_in_box};
ghost use Rattle.zarr_grids_chunks.specs.Grids.{chunk_indices};
ghost use Rattle.zarr_grids_dimensions.specs.Dimensions.{grid_of};

use std::alloc::{AllocError, Global};
use zarr_grids_boxes::indices::step;
use zarr_grids_boxes::{ArrayIndices, ArraySubset};
use zarr_grids_dimensions::{Dimension, lookups};

/// The chunks in the grid that a walk has left, row-major. Each item takes memory: where there is
/// none, the item is the error, and the walk goes on after that chunk.
#[derive(Drop)]
pub struct ChunkIndices {
    chunks: ArraySubset,
    alloc: Global,
    pub(crate) next: Vec<u64>,
    pub(crate) more: bool,
    ghost within: { IsTrue more
        → is_in_box chunks.start.items chunks.shape.items next.items ≡ true },
}

impl ChunkIndices {
    ghost use Rattle.zarr_grids_chunk_grids.specs.Walks.{chunks_left};

    /// All chunks in the grid.
    pub fn new(alloc: Global, grid: &[Dimension]) -> Result<ChunkIndices, AllocError>
        ensures { IfOk result (λ walk. chunks_left walk ≡ chunk_indices (grid_of grid.now)) }
    {
        let shape = lookups::grid_shape(alloc, grid)?;
        let chunks = ArraySubset::new_with_shape(alloc, shape)?;
        let next = chunks.start.to_vec(alloc)?;
        let more = !chunks.is_empty();
        Ok(ChunkIndices {
            chunks,
            alloc,
            next,
            more,
        })
    }

    /// Passes over the next chunk.
    pub(crate) fn go_on(&mut self)
        requires { IsTrue self.old.more }
        ensures { chunks_left self.old ≡ self.old.next.items ∷ chunks_left self.new }
    {
        let chunks = &self.chunks;
        self.more = step(&chunks.start, &chunks.shape, &mut self.next);
    }
}

impl Iterator for ChunkIndices {
    ghost use Rattle.zarr_grids_chunk_grids.specs.Walks.{chunks_left};

    type Item = Result<ArrayIndices, AllocError>;

    ghost next_gives = { λ old given new. MatchOption given ((chunks_left old ≡ [])
        × (chunks_left new ≡ [])) (λ item. (chunk : List ℕ) × (chunks_left old
        ≡ chunk ∷ chunks_left new) × IfOk item (λ indices. indices.items ≡ chunk)) };

    ghost remaining = { item_count chunks_left };

    fn next(&mut self) -> Option<Result<ArrayIndices, AllocError>> {
        if !self.more {
            return None;
        }
        let chunk = self.next.to_vec(self.alloc);
        self.go_on();
        Some(chunk)
    }
}
