//! A dimension's size and its chunks' one edge.
ghost use Rattle.std.specs.Prelude.{◌≡◌, ◌↔◌, ◌+◌, ◌-◌, ◌*◌, ◌/◌, ◌<◌, IfOk, IsErr, option_map};
ghost use Rattle.zarr_grids_chunks.specs.Grids.{regular, clipped, interval};
ghost use Rattle.zarr_grids_dimensions.specs.Chunks.{FindsChunkAlong};
ghost use Rattle.zarr_grids_dimensions.specs.Intervals.{interval_of};

use crate::interval::ChunkInterval;
use thiserror::Error;

/// The size of a dimension of an array, and the edge of all its chunks, which is not 0.
#[derive(Clone, Copy, Debug)]
pub struct FixedEdge {
    pub size: u64,
    pub edge: u64,
    ghost positive: { 0 < edge },
}

/// A chunk's edge is 0.
#[derive(Clone, Copy, Debug, PartialEq, Eq, Error)]
#[error("the edge of a chunk is 0")]
pub struct ZeroEdgeError;

impl FixedEdge {
    /// Chunks of this edge along a dimension of this size. An edge of 0 is the error.
    pub fn new(size: u64, edge: u64) -> Result<FixedEdge, ZeroEdgeError>
        ensures made { IfOk result (λ fixed. (fixed.size ≡ size) × (fixed.edge ≡ edge)) }
        ensures zero { IsErr result ↔ (edge ≡ 0) }
    {
        if edge == 0 {
            return Err(ZeroEdgeError);
        }
        Ok(FixedEdge { size, edge })
    }

    /// How many chunks the array has: the size divided by the edge, rounded up.
    pub fn chunk_count(&self) -> u64
        ensures { result ≡ (self.now.size + (self.now.edge - 1)) / self.now.edge }
    {
        if self.size == 0 {
            return 0;
        }
        (self.size - 1) / self.edge + 1
    }

    /// The chunk that a place lies in, where chunks go on past the array.
    pub fn chunk_of(&self, place: u64) -> Option<u64>
        ensures { FindsChunkAlong (regular self.now.size self.now.edge) place result }
    {
        Some(place / self.edge)
    }

    /// The chunk that a place lies in, where chunks are clipped to the array.
    pub fn clipped_chunk_of(&self, place: u64) -> Option<u64>
        ensures { FindsChunkAlong (clipped self.now.size self.now.edge) place result }
    {
        if place >= self.size {
            return None;
        }
        let chunk = place / self.edge;
        Some(chunk)
    }

    /// Where a whole chunk lies.
    pub fn interval(&self, chunk: u64) -> ChunkInterval
        ensures first { result.first ≡ chunk * self.now.edge }
        ensures count { result.count ≡ self.now.edge }
    {
        ChunkInterval {
            first: chunk as u128 * self.edge as u128,
            count: self.edge,
        }
    }

    /// Where a chunk lies that is clipped to the array.
    pub fn clipped_interval(&self, chunk: u64) -> Option<ChunkInterval>
        ensures { option_map interval_of result
            ≡ interval (clipped self.now.size self.now.edge) chunk }
    {
        let first = chunk as u128 * self.edge as u128;
        if first >= self.size as u128 {
            return None;
        }
        let left = self.size - first as u64;
        Some(ChunkInterval {
            first,
            count: self.edge.min(left),
        })
    }
}
