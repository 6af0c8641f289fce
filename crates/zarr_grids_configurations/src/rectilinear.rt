//! The configuration of `rectilinear`.
ghost use Rattle.std.specs.Prelude.{◌≡◌, map, IfOk};
ghost use Rattle.zarr_grids_configurations.specs.Grids.{is_positive, covering};
ghost use Rattle.zarr_grids_configurations.specs.Views.{repeat_of, rectilinear_view};

use std::alloc::{AllocError, Global};
use zarr_grids_dimensions::RepeatedEdge;

/// One edge or a repeat of equal ones.
#[derive(Clone, Copy, Debug, PartialEq, Eq)]
pub enum RunLengthElement {
    /// One chunk of this edge.
    Single(u64),
    /// Chunks of one edge, one after another.
    Repeated(RepeatedEdge),
}

impl RunLengthElement {
    /// The repeat that the element is.
    pub fn repeat(self) -> RepeatedEdge
        ensures { result ≡ repeat_of self }
    {
        match self {
            RunLengthElement::Single(edge) => RepeatedEdge { edge, count: 1 },
            RunLengthElement::Repeated(repeat) => repeat,
        }
    }
}

/// The edges of the chunks along one dimension of a `rectilinear` grid.
#[derive(Debug, PartialEq, Eq, Drop)]
pub enum ChunkEdgeLengths {
    /// One edge for all chunks, the last of them whole.
    Scalar(u64),
    /// Edges and repeats of them.
    Varying(Vec<RunLengthElement>),
}

/// The configuration of `rectilinear`: the edges along each dimension.
#[derive(Debug, PartialEq, Eq, Drop)]
pub struct RectilinearChunkGridConfiguration {
    pub chunk_shapes: Vec<ChunkEdgeLengths>,
}

impl ChunkEdgeLengths {
    /// Whether all edges and counts are positive.
    pub fn is_positive(&self) -> bool
        ensures { result ≡ is_positive (rectilinear_view self.now) }
    {
        match self {
            ChunkEdgeLengths::Scalar(edge) => *edge > 0,
            ChunkEdgeLengths::Varying(elements) => are_elements_positive(elements),
        }
    }

    /// Equal edges, in memory of their own.
    pub fn try_clone(&self, alloc: Global) -> Result<ChunkEdgeLengths, AllocError>
        ensures { IfOk result (λ copy. rectilinear_view copy ≡ rectilinear_view self.now) }
    {
        match self {
            ChunkEdgeLengths::Scalar(edge) => Ok(ChunkEdgeLengths::Scalar(*edge)),
            ChunkEdgeLengths::Varying(elements) => {
                let elements = elements.to_vec(alloc)?;
                Ok(ChunkEdgeLengths::Varying(elements))
            }
        }
    }
}

fn are_elements_positive(elements: &[RunLengthElement]) -> bool
    ensures { result ≡ is_positive (covering (map repeat_of elements.now)) }
{
    for element in elements {
        let repeat = element.repeat();
        if repeat.edge == 0 || repeat.count == 0 {
            return false;
        }
    }
    true
}

/// Equal edges, in memory of their own.
pub fn try_clone_rectilinear(
    alloc: Global,
    given: &[ChunkEdgeLengths],
) -> Result<Vec<ChunkEdgeLengths>, AllocError>
    ensures { IfOk result
        (λ copy. map rectilinear_view copy.items ≡ map rectilinear_view given.now) }
{
    let mut copy = Vec::with_capacity(alloc, given.len())?;
    for lengths in given {
        copy.push(lengths.try_clone(alloc)?)?;
    }
    Ok(copy)
}
