//! Shapes of arrays and of chunks.
ghost use Rattle.std.specs.Prelude.{◌≡◌, ℕ, ◌<◌, ◌≤◌, ◌^◌, ◌↔◌, List, IfOk, IsOk, MatchResult, nat_eq};
ghost use Rattle.std.specs.Option.{SomeIff};
ghost use Rattle.std.specs.Cmp.{partial_equiv_from_equiv};
ghost use Rattle.std.specs.Cmp.Lexicographic.{pointwise, nat_list_eq_equiv};
ghost use Rattle.zarr_grids_boxes.specs.Boxes.{product};

use crate::walk::has_no_place;
use std::alloc::{AllocError, Global};
use std::marker::Model;
use thiserror::Error;

/// The indices of a place of an array.
pub type ArrayIndices = Vec<u64>;

/// The shape of an array.
pub type ArrayShape = Vec<u64>;

/// The shape of a chunk, which has no edge of 0. A contract sees it as the list of its edges.
#[derive(Debug, Drop)]
pub struct ChunkShape {
    edges: Vec<u64>,
}

impl Model for ChunkShape {
    ghost Value = { List ℕ };

    ghost view = { λ chunk_shape. chunk_shape.edges.items };

    ghost invariant = { λ chunk_shape. 0 < product chunk_shape.edges.items };
}

/// Why a call on chunk shapes is refused.
#[derive(Clone, Copy, Debug, PartialEq, Eq, Error)]
pub enum ChunkShapeError {
    #[error("a chunk shape has an edge of 0")]
    ZeroEdge,
    /// There are 2^64 elements or more.
    #[error("the number of elements does not fit 64 bits")]
    Size,
}

impl ChunkShape {
    /// The chunk shape with these edges. The error is an edge of 0.
    pub fn new(edges: Vec<u64>) -> Result<ChunkShape, ChunkShapeError>
        ensures edges { IfOk result (λ chunk_shape. chunk_shape ≡ edges.items) }
        ensures zero { MatchResult result (λ _. 0 < product edges.items)
            (λ e. (e ≡ ChunkShapeError.ZeroEdge) × (product edges.items ≡ 0)) }
    {
        if has_no_place(&edges) {
            return Err(ChunkShapeError::ZeroEdge);
        }
        Ok(ChunkShape { edges })
    }

    /// The edges.
    pub fn as_slice(&self) -> &[u64]
        ensures edges { result.now ≡ self.now }
        ensures positive { 0 < product self.now }
    {
        self.edges.as_slice()
    }

    /// How many elements the chunk has, if that is below 2^64.
    pub fn num_elements(&self) -> Result<u64, ChunkShapeError>
        ensures { MatchResult result (λ count. count ≡ product self.now)
            (λ e. (e ≡ ChunkShapeError.Size) × (2 ^ 64 ≤ product self.now)) }
    {
        count_elements(&self.edges).ok_or(ChunkShapeError::Size)
    }

    /// An equal chunk shape, in memory of its own.
    pub fn try_clone(&self, alloc: Global) -> Result<ChunkShape, AllocError>
        ensures { IfOk result (λ copy. copy ≡ self.now) }
    {
        let edges = self.edges.to_vec(alloc)?;
        Ok(ChunkShape { edges })
    }
}

impl PartialEq for ChunkShape {
    ghost eq = { pointwise nat_eq };

    ghost laws = { partial_equiv_from_equiv nat_list_eq_equiv };

    fn eq(&self, other: &ChunkShape) -> bool {
        self.as_slice() == other.as_slice()
    }
}

impl Eq for ChunkShape {
    ghost laws = { nat_list_eq_equiv };
}

/// The shape of an array of one such chunk.
pub fn chunk_shape_to_array_shape(
    alloc: Global,
    chunk_shape: &ChunkShape,
) -> Result<ArrayShape, AllocError>
    ensures { IfOk result (λ array_shape. array_shape.items ≡ chunk_shape.now) }
{
    chunk_shape.edges.to_vec(alloc)
}

/// How many elements an array of this shape has, if that is below 2^64.
pub fn count_elements(shape: &[u64]) -> Option<u64>
    ensures { SomeIff result (product shape.now < 2 ^ 64) (product shape.now) }
{
    if has_no_place(shape) {
        return Some(0);
    }
    let mut count: u64 = 1;
    for size in shape {
        match count.checked_mul(*size) {
            Some(next) => count = next,
            None => return None,
        }
    }
    Some(count)
}
