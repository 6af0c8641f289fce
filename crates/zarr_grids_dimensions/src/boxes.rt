//! Boxes of places and boxes of chunks.
ghost use Rattle.std.specs.Prelude.{◌≡◌, ℕ, List, ◌+◌, ◌<◌, ◌≤◌, ◌^◌, IsTrue, length, slice_index, IfOk, IfErr, IfSome, IfNone, MatchOption};
ghost use Rattle.zarr_grids_boxes.specs.Boxes.{product, is_in_box, EndsFit, last_index};
ghost use Rattle.zarr_grids_boxes.specs.Subsets.{region_of};
ghost use Rattle.zarr_grids_dimensions.specs.Chunks.{HasChunksSharing, HasPlacesAmong, FirstOrLastLiesNowhere, FirstOrLastHasNoBox};
ghost use Rattle.zarr_grids_dimensions.specs.Chunks.{counts_to, lengths_to};
ghost use Rattle.zarr_grids_dimensions.specs.Dimensions.{grid_of};
ghost use Rattle.zarr_grids_dimensions.specs.Errors.{Tells};

use crate::dimension::Dimension;
use crate::error::LookupError;
use crate::lookups::{find_chunk, find_subset, incompatible, into_chunk};
use std::alloc::{AllocError, Global};
use zarr_grids_boxes::ArraySubset;
use zarr_grids_boxes::walk::has_no_place;

/// The chunks that a box of places intersects, as a box of chunk indices. `None` where the box has
/// a place and its first or its last place lies in no chunk.
pub fn chunks_in_array_subset(
    alloc: Global,
    grid: &[Dimension],
    subset: &ArraySubset,
) -> Result<Option<ArraySubset>, LookupError>
    ensures intersecting { IfOk result (λ found. IfSome found
        (λ chunks. HasChunksSharing (grid_of grid.now) (region_of subset.now) (region_of chunks))) }
    ensures missing { IfOk result (λ found. IfNone found
        (FirstOrLastLiesNowhere (grid_of grid.now) (region_of subset.now))) }
    ensures some { IfOk result (λ found. MatchOption found (0 < product subset.now.shape.items)
        (λ chunks. length chunks.start.items ≡ length grid.now)) }
    ensures rank { IfOk result (λ _. length subset.now.start.items ≡ length grid.now) }
    ensures error { IfErr result (Tells (length subset.now.start.items) (length grid.now)) }
{
    if subset.start.len() != grid.len() {
        return Err(incompatible(subset.start.len(), grid.len()));
    }
    if has_no_place(&subset.shape) {
        return match empty_subset(alloc, grid.len()) {
            Ok(empty) => Ok(Some(empty)),
            Err(error) => Err(LookupError::Memory(error)),
        };
    }
    match find_chunks(alloc, grid, &subset.start, &subset.shape) {
        Ok(found) => Ok(found),
        Err(error) => Err(LookupError::Memory(error)),
    }
}

/// The places of all chunks of a box of chunk indices, as one box. `None` where the box has a chunk
/// and its first or its last chunk has no box.
pub fn chunks_subset(
    alloc: Global,
    grid: &[Dimension],
    chunks: &ArraySubset,
) -> Result<Option<ArraySubset>, LookupError>
    ensures united { IfOk result (λ found. IfSome found
        (λ subset. HasPlacesAmong (grid_of grid.now) (region_of chunks.now) (region_of subset))) }
    ensures missing { IfOk result (λ found. IfNone found
        (FirstOrLastHasNoBox (grid_of grid.now) (region_of chunks.now))) }
    ensures some { IfOk result (λ found. MatchOption found (0 < product chunks.now.shape.items)
        (λ subset. length subset.start.items ≡ length grid.now)) }
    ensures rank { IfOk result (λ _. length chunks.now.start.items ≡ length grid.now) }
    ensures error { IfErr result (Tells (length chunks.now.start.items) (length grid.now)) }
{
    if chunks.start.len() != grid.len() {
        return Err(incompatible(chunks.start.len(), grid.len()));
    }
    if has_no_place(&chunks.shape) {
        return match empty_subset(alloc, grid.len()) {
            Ok(empty) => Ok(Some(empty)),
            Err(error) => Err(LookupError::Memory(error)),
        };
    }
    match find_union(alloc, grid, &chunks.start, &chunks.shape) {
        Ok(found) => Ok(found),
        Err(error) => Err(LookupError::Memory(error)),
    }
}

/// A box of no place.
fn empty_subset(alloc: Global, dimensionality: usize) -> Result<ArraySubset, AllocError>
    requires { 0 < dimensionality }
    ensures rank { IfOk result (λ subset. length subset.start.items ≡ dimensionality) }
    ensures empty { IfOk result (λ subset. (place : List ℕ)
        → ¬ IsTrue (is_in_box subset.start.items subset.shape.items place)) }
{
    let start = vec![in alloc; 0u64; dimensionality]?;
    let shape = vec![in alloc; 0u64; dimensionality]?;
    Ok(ArraySubset { start, shape })
}

/// The chunks that a box with the grid's dimensions intersects, which has a place.
fn find_chunks(
    alloc: Global,
    grid: &[Dimension],
    start: &[u64],
    shape: &[u64],
) -> Result<Option<ArraySubset>, AllocError>
    requires rank { length start.now ≡ length grid.now }
    requires same { length shape.now ≡ length start.now }
    requires some { 0 < product shape.now }
    requires fit { EndsFit start.now shape.now }
    ensures intersecting { IfOk result (λ found. IfSome found (λ chunks. HasChunksSharing
        (grid_of grid.now) (record { start = start.now; shape = shape.now }) (region_of chunks))) }
    ensures missing { IfOk result (λ found. IfNone found (FirstOrLastLiesNowhere
        (grid_of grid.now) (record { start = start.now; shape = shape.now }))) }
    ensures rank { IfOk result (λ found. IfSome found
        (λ chunks. length chunks.start.items ≡ length grid.now)) }
{
    let found_first = find_chunk(alloc, grid, start)?;
    let Some(first) = found_first else {
        return Ok(None);
    };
    let place = last_place(alloc, start, shape)?;
    let found_last = into_chunk(grid, place);
    let Some(last) = found_last else {
        return Ok(None);
    };
    let counts = count_to(&first, last);
    Ok(Some(ArraySubset {
        start: first,
        shape: counts,
    }))
}

/// The last place of a box that has one.
fn last_place(alloc: Global, start: &[u64], shape: &[u64]) -> Result<Vec<u64>, AllocError>
    requires same { length shape.now ≡ length start.now }
    requires some { 0 < product shape.now }
    requires fit { EndsFit start.now shape.now }
    ensures { IfOk result (λ place. place.items ≡ last_index start.now shape.now) }
{
    let mut place = Vec::with_capacity(alloc, start.len())?;
    for k in 0..start.len() {
        place.push(start[k] + (shape[k] - 1))?;
    }
    Ok(place)
}

/// How many numbers there are from each first to each last, in the memory of the lasts.
fn count_to(firsts: &[u64], mut lasts: Vec<u64>) -> Vec<u64>
    requires same { length lasts.items ≡ length firsts.now }
    requires order { (k : ℕ) → k < length firsts.now
        → slice_index firsts.now k ≤ slice_index lasts.items k }
    requires fit { (k : ℕ) → k < length firsts.now → slice_index lasts.items k + 1 < 2 ^ 64 }
    ensures { result.items ≡ counts_to firsts.now lasts.items }
{
    for k in 0..firsts.len() {
        let last = lasts[k];
        lasts[k] = last - firsts[k] + 1;
    }
    lasts
}

/// The places of the chunks of a box with the grid's dimensions, which has a chunk.
fn find_union(
    alloc: Global,
    grid: &[Dimension],
    start: &[u64],
    shape: &[u64],
) -> Result<Option<ArraySubset>, AllocError>
    requires rank { length start.now ≡ length grid.now }
    requires same { length shape.now ≡ length start.now }
    requires some { 0 < product shape.now }
    requires fit { EndsFit start.now shape.now }
    ensures united { IfOk result (λ found. IfSome found (λ subset. HasPlacesAmong
        (grid_of grid.now) (record { start = start.now; shape = shape.now }) (region_of subset))) }
    ensures missing { IfOk result (λ found. IfNone found (FirstOrLastHasNoBox
        (grid_of grid.now) (record { start = start.now; shape = shape.now }))) }
    ensures rank { IfOk result (λ found. IfSome found
        (λ subset. length subset.start.items ≡ length grid.now)) }
{
    let found_first = find_subset(alloc, grid, start)?;
    let Some(first) = found_first else {
        return Ok(None);
    };
    let chunk = last_place(alloc, start, shape)?;
    let found_last = find_subset(alloc, grid, &chunk)?;
    let Some(last) = found_last else {
        return Ok(None);
    };
    let lengths = length_to(alloc, &first.start, &last.start, &last.shape)?;
    let ArraySubset {
        start: origin,
        shape: _,
    } = first;
    Ok(Some(ArraySubset {
        start: origin,
        shape: lengths,
    }))
}

/// How many numbers there are from each first number up to the end of another interval.
fn length_to(
    alloc: Global,
    firsts: &[u64],
    starts: &[u64],
    counts: &[u64],
) -> Result<Vec<u64>, AllocError>
    requires starts { length starts.now ≡ length firsts.now }
    requires counts { length counts.now ≡ length firsts.now }
    requires order { (k : ℕ) → k < length firsts.now
        → slice_index firsts.now k ≤ slice_index starts.now k }
    requires fit { EndsFit starts.now counts.now }
    ensures { IfOk result (λ lengths. lengths.items ≡ lengths_to firsts.now starts.now counts.now) }
{
    let mut lengths = Vec::with_capacity(alloc, firsts.len())?;
    for k in 0..firsts.len() {
        lengths.push(starts[k] + counts[k] - firsts[k])?;
    }
    Ok(lengths)
}
