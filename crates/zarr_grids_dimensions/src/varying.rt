//! Chunks of varying edges, by repeats of equal ones.
ghost use Rattle.std.specs.Prelude.{◌≡◌, ◌⊎◌, ℕ, ◌+◌, ◌↔◌, ◌<◌, ◌≤◌, ◌^◌, IsTrue, true, false, length, slice_index, take, sum, map, option_map, IfOk, IfErr};
ghost use Rattle.std.specs.Option.{SomeIff};
ghost use Rattle.zarr_grids_chunks.specs.Grids.{varying, interval, chunk_count};
ghost use Rattle.zarr_grids_dimensions.specs.RepeatedEdges.{expanded, edges, counts, lengths, running};
ghost use Rattle.zarr_grids_dimensions.specs.Lookups.{all_positive, is_dimension, size_of};
ghost use Rattle.zarr_grids_dimensions.specs.Chunks.{FindsChunkAlong};
ghost use Rattle.zarr_grids_dimensions.specs.Intervals.{interval_of};

use crate::interval::ChunkInterval;
use crate::repeat::RepeatedEdge;
use crate::search::last_at_most;
use std::alloc::{AllocError, Global};
use thiserror::Error;

/// One dimension of an array and the edges of its chunks, held as repeats of equal edges. A lookup
/// takes time logarithmic in the number of repeats.
#[derive(Debug, Drop)]
pub struct VaryingEdges {
    size: u64,
    repeats: Vec<RepeatedEdge>,
    first_chunks: Vec<u64>,
    first_places: Vec<u128>,
    near_places: Vec<u64>,
    ghost chunks: { first_chunks.items ≡ running 0 (counts repeats.items) },
    ghost places: { first_places.items ≡ running 0 (lengths repeats.items) },
    ghost near: { near_places.items ≡ take (length near_places.items) first_places.items },
    ghost some: { 0 < length near_places.items },
    ghost far: { length near_places.items < length first_places.items
        → 2 ^ 64 ≤ slice_index first_places.items (length near_places.items) },
    pub ghost few: { length (expanded repeats.items) < 2 ^ 64 },
    pub ghost extent: { sum (expanded repeats.items) < 2 ^ 128 },
    pub ghost positive: { all_positive (edges repeats.items) ≡ true },
    pub ghost counted: { all_positive (counts repeats.items) ≡ true },
    pub ghost dimension: { is_dimension (varying size (expanded repeats.items)) ≡ true },
}

/// Why chunks of varying edges cannot be made.
#[derive(Clone, Copy, Debug, PartialEq, Eq, Error)]
pub enum VaryingEdgesError {
    /// The edge of a repeat is 0.
    #[error("the edge of a repeat of chunks is 0")]
    ZeroEdge,
    /// A repeat has no chunk.
    #[error("a repeat of chunks has no chunk")]
    ZeroCount,
    /// There are more than 2^64 - 1 chunks.
    #[error("there are more than 2^64 - 1 chunks")]
    TooManyChunks,
    /// The edges' sum is less than the size.
    #[error("the sum of the chunks' edges is less than the size of the dimension")]
    TooShort,
    /// Memory ran out.
    #[error("out of memory")]
    Memory,
}

impl From<AllocError> for VaryingEdgesError {
    ghost use Rattle.zarr_grids_dimensions.specs.declared.varying.VaryingEdgesError.TheVariants.{Memory};

    ghost from_gives = { λ _ e. e ≡ Memory };

    fn from(_error: AllocError) -> VaryingEdgesError {
        VaryingEdgesError::Memory
    }
}

impl VaryingEdges {
    ghost use Rattle.zarr_grids_dimensions.specs.Varying.{varying_repeats, varying_dimension, IsMadeOf};

    /// The chunks of these repeats, along a dimension of this size. The sum of their edges must be
    /// at least the size; it may be more, and may pass 2^64 - 1.
    pub fn new(
        alloc: Global,
        size: u64,
        repeats: Vec<RepeatedEdge>,
    ) -> Result<VaryingEdges, VaryingEdgesError>
        ensures made { IfOk result (IsMadeOf size repeats.items) }
        ensures edge { result ≡ Err VaryingEdgesError.ZeroEdge
            → all_positive (edges repeats.items) ≡ false }
        ensures count { result ≡ Err VaryingEdgesError.ZeroCount
            → all_positive (counts repeats.items) ≡ false }
        ensures many { result ≡ Err VaryingEdgesError.TooManyChunks
            → 2 ^ 64 ≤ length (expanded repeats.items) }
        ensures short { result ≡ Err VaryingEdgesError.TooShort
            → sum (expanded repeats.items) < size }
    {
        check_repeats(&repeats)?;
        let Some(_) = count_chunks(&repeats) else {
            return Err(VaryingEdgesError::TooManyChunks);
        };
        let first_chunks = first_chunks_of(alloc, &repeats)?;
        let first_places = first_places_of(alloc, &repeats)?;
        let near_places = near_places_of(alloc, &first_places)?;
        if first_places[repeats.len()] < size as u128 {
            return Err(VaryingEdgesError::TooShort);
        }
        Ok(VaryingEdges {
            size,
            repeats,
            first_chunks,
            first_places,
            near_places,
        })
    }

    /// An equal value, in memory of its own.
    pub fn try_clone(&self, alloc: Global) -> Result<VaryingEdges, AllocError>
        ensures { IfOk result
            (IsMadeOf (size_of (varying_dimension self.now)) (varying_repeats self.now)) }
    {
        let repeats = self.repeats.to_vec(alloc)?;
        match VaryingEdges::new(alloc, self.size, repeats) {
            Ok(copy) => Ok(copy),
            Err(_) => Err(AllocError),
        }
    }

    /// The array's size in this dimension.
    pub fn size(&self) -> u64
        ensures { result ≡ size_of (varying_dimension self.now) }
    {
        self.size
    }

    /// The repeats of equal edges.
    pub fn repeats(&self) -> &[RepeatedEdge]
        ensures { result.now ≡ varying_repeats self.now }
    {
        &self.repeats
    }

    /// The sum of all edges. It may be more than the size.
    pub fn sum(&self) -> u128
        ensures { result ≡ sum (expanded (varying_repeats self.now)) }
    {
        self.first_places[self.repeats.len()]
    }

    /// How many chunks there are.
    pub fn chunk_count(&self) -> u64
        ensures { result ≡ chunk_count (varying_dimension self.now) }
    {
        self.first_chunks[self.repeats.len()]
    }

    /// The chunk that a place lies in, whether or not the place is below the size.
    pub fn chunk_of(&self, place: u64) -> Option<u64>
        ensures { FindsChunkAlong (varying_dimension self.now) place result }
    {
        let at = last_at_most(&self.near_places, place);
        if at == self.repeats.len() {
            return None;
        }
        // As many chunks as repeats: each repeat is one chunk.
        if self.chunk_count() == self.repeats.len() as u64 {
            return Some(at as u64);
        }
        let within = (place - self.near_places[at]) / self.repeats[at].edge;
        Some(self.first_chunks[at] + within)
    }

    /// Where a chunk lies.
    pub fn interval(&self, chunk: u64) -> Option<ChunkInterval>
        ensures { option_map interval_of result ≡ interval (varying_dimension self.now) chunk }
    {
        let at = self.repeat_of(chunk);
        if at == self.repeats.len() {
            return None;
        }
        let edge = self.repeats[at].edge;
        let within = chunk - self.first_chunks[at];
        Some(ChunkInterval {
            first: self.first_places[at] + within as u128 * edge as u128,
            count: edge,
        })
    }

    /// The repeat of a chunk; past the last chunk the number of repeats.
    fn repeat_of(&self, chunk: u64) -> usize
        ensures within { result < length self.now.first_chunks.items }
        ensures at_most { slice_index self.now.first_chunks.items result ≤ chunk }
        ensures next { result + 1 < length self.now.first_chunks.items
            → chunk < slice_index self.now.first_chunks.items (result + 1) }
    {
        let repeats = self.repeats.len() as u64;
        if self.chunk_count() == repeats {
            return chunk.min(repeats) as usize;
        }
        last_at_most(&self.first_chunks, chunk)
    }
}

/// Refuses a repeat whose edge or count is 0.
fn check_repeats(repeats: &[RepeatedEdge]) -> Result<(), VaryingEdgesError>
    ensures edges { IfOk result (λ _. all_positive (edges repeats.now) ≡ true) }
    ensures counts { IfOk result (λ _. all_positive (counts repeats.now) ≡ true) }
    ensures edge { result ≡ Err VaryingEdgesError.ZeroEdge
        → all_positive (edges repeats.now) ≡ false }
    ensures count { result ≡ Err VaryingEdgesError.ZeroCount
        → all_positive (counts repeats.now) ≡ false }
    ensures zeros { IfErr result
        (λ e. (e ≡ VaryingEdgesError.ZeroEdge) ⊎ (e ≡ VaryingEdgesError.ZeroCount)) }
{
    for repeat in repeats {
        if repeat.edge == 0 {
            return Err(VaryingEdgesError::ZeroEdge);
        }
        if repeat.count == 0 {
            return Err(VaryingEdgesError::ZeroCount);
        }
    }
    Ok(())
}

/// How many chunks there are, if that is at most 2^64 - 1.
fn count_chunks(repeats: &[RepeatedEdge]) -> Option<u64>
    ensures { SomeIff result (sum (counts repeats.now) < 2 ^ 64) (sum (counts repeats.now)) }
{
    let mut count: u64 = 0;
    for repeat in repeats {
        count = count.checked_add(repeat.count)?;
    }
    Some(count)
}

/// The first chunk number of each repeat, and after them how many chunks there are.
fn first_chunks_of(alloc: Global, repeats: &[RepeatedEdge]) -> Result<Vec<u64>, AllocError>
    requires { sum (counts repeats.now) < 2 ^ 64 }
    ensures { IfOk result (λ chunks. chunks.items ≡ running 0 (counts repeats.now)) }
{
    let mut chunks = Vec::with_capacity(alloc, repeats.len())?;
    let mut next: u64 = 0;
    for repeat in repeats {
        chunks.push(next)?;
        next += repeat.count;
    }
    chunks.push(next)?;
    Ok(chunks)
}

/// The first place of each repeat, and after them the sum of all edges.
fn first_places_of(alloc: Global, repeats: &[RepeatedEdge]) -> Result<Vec<u128>, AllocError>
    requires { sum (counts repeats.now) < 2 ^ 64 }
    ensures { IfOk result (λ places. places.items ≡ running 0 (lengths repeats.now)) }
{
    let mut places = Vec::with_capacity(alloc, repeats.len())?;
    let mut next: u128 = 0;
    for repeat in repeats {
        places.push(next)?;
        next += repeat.count as u128 * repeat.edge as u128;
    }
    places.push(next)?;
    Ok(places)
}

/// The first places up to the first of them that passes 2^64 - 1. A search among them reads half
/// the memory.
fn near_places_of(alloc: Global, places: &[u128]) -> Result<Vec<u64>, AllocError>
    ensures near { IfOk result (λ near. near.items ≡ take (length near.items) places.now) }
    ensures some { IfOk result (λ near. 0 < length places.now
        → slice_index places.now 0 < 2 ^ 64 → 0 < length near.items) }
    ensures far { IfOk result (λ near. length near.items < length places.now
        → 2 ^ 64 ≤ slice_index places.now (length near.items)) }
{
    let mut near = Vec::with_capacity(alloc, places.len())?;
    for place in places {
        if *place > u64::MAX as u128 {
            return Ok(near);
        }
        near.push(*place as u64)?;
    }
    Ok(near)
}
