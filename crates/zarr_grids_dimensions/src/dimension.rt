//! One dimension of a chunk grid.
ghost use Rattle.std.specs.Prelude.{◌≡◌, ◌↔◌, IfOk, IsErr, option_map, option_and_then};
ghost use Rattle.zarr_grids_chunks.specs.Grids.{regular, clipped, interval, chunk_count, addressable};
ghost use Rattle.zarr_grids_dimensions.specs.Lookups.{size_of, chunk_inbounds, place_inbounds};
ghost use Rattle.zarr_grids_dimensions.specs.Chunks.{first_of, count_of, FindsChunkAlong};
ghost use Rattle.zarr_grids_dimensions.specs.Dimensions.{dimension_of};
ghost use Rattle.zarr_grids_dimensions.specs.Intervals.{interval_of, addressable_of};

use crate::fixed::{FixedEdge, ZeroEdgeError};
use crate::interval::{AddressableInterval, ChunkInterval};
use crate::varying::VaryingEdges;
use std::alloc::{AllocError, Global};

/// One dimension of a chunk grid: the array's size, and how its chunks lie.
#[derive(Debug, Drop)]
pub enum Dimension {
    /// Chunks of one edge, the last of them whole also where it passes the array.
    Regular(FixedEdge),
    /// Chunks of one edge, the last of them clipped to the array.
    Clipped(FixedEdge),
    /// One chunk after another, each with an edge of its own.
    Varying(VaryingEdges),
}

impl Dimension {
    /// Chunks of one edge, the last of them whole.
    pub fn regular(size: u64, edge: u64) -> Result<Dimension, ZeroEdgeError>
        ensures made { IfOk result (λ dimension. dimension_of dimension ≡ regular size edge) }
        ensures zero { IsErr result ↔ (edge ≡ 0) }
    {
        let fixed = FixedEdge::new(size, edge)?;
        Ok(Dimension::Regular(fixed))
    }

    /// Chunks of one edge, the last of them clipped to the array.
    pub fn clipped(size: u64, edge: u64) -> Result<Dimension, ZeroEdgeError>
        ensures made { IfOk result (λ dimension. dimension_of dimension ≡ clipped size edge) }
        ensures zero { IsErr result ↔ (edge ≡ 0) }
    {
        let fixed = FixedEdge::new(size, edge)?;
        Ok(Dimension::Clipped(fixed))
    }

    /// An equal dimension, in memory of its own.
    pub fn try_clone(&self, alloc: Global) -> Result<Dimension, AllocError>
        ensures { IfOk result (λ copy. dimension_of copy ≡ dimension_of self.now) }
    {
        match self {
            Dimension::Regular(fixed) => Ok(Dimension::Regular(*fixed)),
            Dimension::Clipped(fixed) => Ok(Dimension::Clipped(*fixed)),
            Dimension::Varying(edges) => {
                let copy = edges.try_clone(alloc)?;
                Ok(Dimension::Varying(copy))
            }
        }
    }

    /// The array's size in this dimension.
    pub fn size(&self) -> u64
        ensures { result ≡ size_of (dimension_of self.now) }
    {
        match self {
            Dimension::Regular(fixed) | Dimension::Clipped(fixed) => fixed.size,
            Dimension::Varying(edges) => edges.size(),
        }
    }

    /// How many chunks the array has along this dimension, which is its number in the grid shape.
    pub fn chunk_count(&self) -> u64
        ensures { result ≡ chunk_count (dimension_of self.now) }
    {
        match self {
            Dimension::Regular(fixed) => fixed.chunk_count(),
            Dimension::Clipped(fixed) => fixed.chunk_count(),
            Dimension::Varying(edges) => edges.chunk_count(),
        }
    }

    /// The chunk that a place lies in, whether or not the chunk's end passes 2^64 - 1.
    pub fn chunk_of(&self, place: u64) -> Option<u64>
        ensures { FindsChunkAlong (dimension_of self.now) place result }
    {
        match self {
            Dimension::Regular(fixed) => fixed.chunk_of(place),
            Dimension::Clipped(fixed) => fixed.clipped_chunk_of(place),
            Dimension::Varying(edges) => edges.chunk_of(place),
        }
    }

    /// Where a chunk lies.
    pub fn interval(&self, chunk: u64) -> Option<ChunkInterval>
        ensures { option_map interval_of result ≡ interval (dimension_of self.now) chunk }
    {
        match self {
            Dimension::Regular(fixed) => Some(fixed.interval(chunk)),
            Dimension::Clipped(fixed) => fixed.clipped_interval(chunk),
            Dimension::Varying(edges) => edges.interval(chunk),
        }
    }

    /// Where a chunk lies, if its end is at most 2^64 - 1.
    pub fn addressable(&self, chunk: u64) -> Option<AddressableInterval>
        ensures { option_map addressable_of result
            ≡ option_and_then addressable (interval (dimension_of self.now) chunk) }
    {
        self.interval(chunk)?.addressable()
    }

    /// A chunk's first place, if there is such a chunk and it is at most 2^64 - 1.
    pub fn first_of(&self, chunk: u64) -> Option<u64>
        ensures { result ≡ first_of (dimension_of self.now) chunk }
    {
        let interval = self.interval(chunk)?;
        if interval.first > u64::MAX as u128 {
            return None;
        }
        Some(interval.first as u64)
    }

    /// How many places a chunk has, if there is such a chunk.
    pub fn count_of(&self, chunk: u64) -> Option<u64>
        ensures { result ≡ count_of (dimension_of self.now) chunk }
    {
        let interval = self.interval(chunk)?;
        Some(interval.count)
    }

    /// Whether a chunk number is below the number of chunks. Where there is no chunk, every number
    /// counts as in bounds.
    pub fn chunk_inbounds(&self, chunk: u64) -> bool
        ensures { result ≡ chunk_inbounds (dimension_of self.now) chunk }
    {
        let count = self.chunk_count();
        count == 0 || chunk < count
    }

    /// Whether a place is below the size.
    pub fn place_inbounds(&self, place: u64) -> bool
        ensures { result ≡ place_inbounds (dimension_of self.now) place }
    {
        place < self.size()
    }
}
