//! Lookups in grids of any dimensions.
ghost use Rattle.std.specs.Prelude.{◌≡◌, ℕ, ◌<◌, ◌≤◌, ◌-◌, length, slice_index, map, option_map, IfOk, IfErr};
ghost use Rattle.zarr_grids_boxes.specs.Boxes.{each2};
ghost use Rattle.zarr_grids_boxes.specs.Subsets.{region_of};
ghost use Rattle.zarr_grids_chunks.specs.Grids.{grid_shape, chunk_box};
ghost use Rattle.zarr_grids_dimensions.specs.Lookups.{size_of, in_all, chunk_inbounds, place_inbounds};
ghost use Rattle.zarr_grids_dimensions.specs.Chunks.{origin, shape, numbers, FindsChunk, FindsElement};
ghost use Rattle.zarr_grids_dimensions.specs.Dimensions.{grid_of};
ghost use Rattle.zarr_grids_dimensions.specs.Errors.{Tells};

use crate::dimension::Dimension;
use crate::error::{IncompatibleDimensionalityError, LookupError};
use std::alloc::{AllocError, Global};
use zarr_grids_boxes::ArraySubset;

/// How many chunks the array has in each dimension.
pub fn grid_shape(alloc: Global, grid: &[Dimension]) -> Result<Vec<u64>, AllocError>
    ensures { IfOk result (λ counts. counts.items ≡ grid_shape (grid_of grid.now)) }
{
    let mut counts = Vec::with_capacity(alloc, grid.len())?;
    for dimension in grid {
        counts.push(dimension.chunk_count())?;
    }
    Ok(counts)
}

/// The size of the array in each dimension.
pub fn array_shape(alloc: Global, grid: &[Dimension]) -> Result<Vec<u64>, AllocError>
    ensures { IfOk result (λ sizes. sizes.items ≡ map size_of (grid_of grid.now)) }
{
    let mut sizes = Vec::with_capacity(alloc, grid.len())?;
    for dimension in grid {
        sizes.push(dimension.size())?;
    }
    Ok(sizes)
}

/// The chunk that a place lies in.
pub fn chunk_indices(
    alloc: Global,
    grid: &[Dimension],
    place: &[u64],
) -> Result<Option<Vec<u64>>, LookupError>
    ensures found { IfOk result (λ found. FindsChunk (grid_of grid.now) place.now (numbers found)) }
    ensures rank { IfOk result (λ _. length place.now ≡ length grid.now) }
    ensures error { IfErr result (Tells (length place.now) (length grid.now)) }
{
    if place.len() != grid.len() {
        return Err(incompatible(place.len(), grid.len()));
    }
    match find_chunk(alloc, grid, place) {
        Ok(found) => Ok(found),
        Err(error) => Err(LookupError::Memory(error)),
    }
}

/// The first place of a chunk, if there is such a chunk and each number is at most 2^64 - 1.
pub fn chunk_origin(
    alloc: Global,
    grid: &[Dimension],
    chunk: &[u64],
) -> Result<Option<Vec<u64>>, LookupError>
    ensures found { IfOk result (λ found. numbers found ≡ origin (grid_of grid.now) chunk.now) }
    ensures rank { IfOk result (λ _. length chunk.now ≡ length grid.now) }
    ensures error { IfErr result (Tells (length chunk.now) (length grid.now)) }
{
    if chunk.len() != grid.len() {
        return Err(incompatible(chunk.len(), grid.len()));
    }
    match find_origin(alloc, grid, chunk) {
        Ok(found) => Ok(found),
        Err(error) => Err(LookupError::Memory(error)),
    }
}

/// How many places a chunk has in each dimension, if there is such a chunk.
pub fn chunk_shape(
    alloc: Global,
    grid: &[Dimension],
    chunk: &[u64],
) -> Result<Option<Vec<u64>>, LookupError>
    ensures found { IfOk result (λ found. numbers found ≡ shape (grid_of grid.now) chunk.now) }
    ensures rank { IfOk result (λ _. length chunk.now ≡ length grid.now) }
    ensures error { IfErr result (Tells (length chunk.now) (length grid.now)) }
{
    if chunk.len() != grid.len() {
        return Err(incompatible(chunk.len(), grid.len()));
    }
    match find_shape(alloc, grid, chunk) {
        Ok(found) => Ok(found),
        Err(error) => Err(LookupError::Memory(error)),
    }
}

/// Where a place lies in its chunk: the place less the chunk's first place.
pub fn chunk_element_indices(
    alloc: Global,
    grid: &[Dimension],
    place: &[u64],
) -> Result<Option<Vec<u64>>, LookupError>
    ensures found { IfOk result (FindsElement (grid_of grid.now) place.now) }
    ensures rank { IfOk result (λ _. length place.now ≡ length grid.now) }
    ensures error { IfErr result (Tells (length place.now) (length grid.now)) }
{
    if place.len() != grid.len() {
        return Err(incompatible(place.len(), grid.len()));
    }
    match find_element(alloc, grid, place) {
        Ok(found) => Ok(found),
        Err(error) => Err(LookupError::Memory(error)),
    }
}

/// The box of a chunk, if there is such a chunk and its end is at most 2^64 - 1 in each dimension.
pub fn subset(
    alloc: Global,
    grid: &[Dimension],
    chunk: &[u64],
) -> Result<Option<ArraySubset>, LookupError>
    ensures found { IfOk result
        (λ found. option_map region_of found ≡ chunk_box (grid_of grid.now) chunk.now) }
    ensures rank { IfOk result (λ _. length chunk.now ≡ length grid.now) }
    ensures error { IfErr result (Tells (length chunk.now) (length grid.now)) }
{
    if chunk.len() != grid.len() {
        return Err(incompatible(chunk.len(), grid.len()));
    }
    match find_subset(alloc, grid, chunk) {
        Ok(found) => Ok(found),
        Err(error) => Err(LookupError::Memory(error)),
    }
}

/// Whether a chunk is in bounds. A dimension with no chunk sets no bound; a chunk of another
/// dimensionality is out of bounds.
pub fn chunk_indices_inbounds(grid: &[Dimension], chunk: &[u64]) -> bool
    ensures { result ≡ in_all chunk_inbounds (grid_of grid.now) chunk.now }
{
    if chunk.len() != grid.len() {
        return false;
    }
    are_chunks_inbounds(grid, chunk)
}

/// Whether a place lies in the array. A place of another dimensionality does not.
pub fn array_indices_inbounds(grid: &[Dimension], place: &[u64]) -> bool
    ensures { result ≡ in_all place_inbounds (grid_of grid.now) place.now }
{
    if place.len() != grid.len() {
        return false;
    }
    are_places_inbounds(grid, place)
}

/// The error for another dimensionality.
pub(crate) fn incompatible(got: usize, expected: usize) -> LookupError
    requires { ¬ (got ≡ expected) }
    ensures { Tells got expected result }
{
    LookupError::Dimensionality(IncompatibleDimensionalityError { got, expected })
}

/// The chunk of a place with the grid's dimensions.
pub(crate) fn find_chunk(
    alloc: Global,
    grid: &[Dimension],
    place: &[u64],
) -> Result<Option<Vec<u64>>, AllocError>
    requires { length place.now ≡ length grid.now }
    ensures { IfOk result (λ found. FindsChunk (grid_of grid.now) place.now (numbers found)) }
{
    let mut found = Vec::with_capacity(alloc, grid.len())?;
    for k in 0..grid.len() {
        let Some(chunk) = grid[k].chunk_of(place[k]) else {
            return Ok(None);
        };
        found.push(chunk)?;
    }
    Ok(Some(found))
}

/// The chunk of a place with the grid's dimensions, in the memory of the place.
pub(crate) fn into_chunk(grid: &[Dimension], mut place: Vec<u64>) -> Option<Vec<u64>>
    requires { length place.items ≡ length grid.now }
    ensures { FindsChunk (grid_of grid.now) place.items (numbers result) }
{
    for k in 0..grid.len() {
        let number = place[k];
        let Some(chunk) = grid[k].chunk_of(number) else {
            return None;
        };
        place[k] = chunk;
    }
    Some(place)
}

/// The first place of a chunk with the grid's dimensions.
fn find_origin(
    alloc: Global,
    grid: &[Dimension],
    chunk: &[u64],
) -> Result<Option<Vec<u64>>, AllocError>
    requires { length chunk.now ≡ length grid.now }
    ensures { IfOk result (λ found. numbers found ≡ origin (grid_of grid.now) chunk.now) }
{
    let mut found = Vec::with_capacity(alloc, grid.len())?;
    for k in 0..grid.len() {
        let Some(first) = grid[k].first_of(chunk[k]) else {
            return Ok(None);
        };
        found.push(first)?;
    }
    Ok(Some(found))
}

/// The shape of a chunk with the grid's dimensions.
fn find_shape(
    alloc: Global,
    grid: &[Dimension],
    chunk: &[u64],
) -> Result<Option<Vec<u64>>, AllocError>
    requires { length chunk.now ≡ length grid.now }
    ensures { IfOk result (λ found. numbers found ≡ shape (grid_of grid.now) chunk.now) }
{
    let mut found = Vec::with_capacity(alloc, grid.len())?;
    for k in 0..grid.len() {
        let Some(count) = grid[k].count_of(chunk[k]) else {
            return Ok(None);
        };
        found.push(count)?;
    }
    Ok(Some(found))
}

/// The box of a chunk with the grid's dimensions.
pub(crate) fn find_subset(
    alloc: Global,
    grid: &[Dimension],
    chunk: &[u64],
) -> Result<Option<ArraySubset>, AllocError>
    requires { length chunk.now ≡ length grid.now }
    ensures { IfOk result
        (λ found. option_map region_of found ≡ chunk_box (grid_of grid.now) chunk.now) }
{
    let mut start = Vec::with_capacity(alloc, grid.len())?;
    let mut shape = Vec::with_capacity(alloc, grid.len())?;
    for k in 0..grid.len() {
        let Some(interval) = grid[k].addressable(chunk[k]) else {
            return Ok(None);
        };
        start.push(interval.first)?;
        shape.push(interval.count)?;
    }
    Ok(Some(ArraySubset { start, shape }))
}

/// Whether a chunk with the grid's dimensions is in bounds.
fn are_chunks_inbounds(grid: &[Dimension], chunk: &[u64]) -> bool
    requires { length chunk.now ≡ length grid.now }
    ensures { result ≡ in_all chunk_inbounds (grid_of grid.now) chunk.now }
{
    for k in 0..grid.len() {
        if !grid[k].chunk_inbounds(chunk[k]) {
            return false;
        }
    }
    true
}

/// Whether a place with the grid's dimensions lies in the array.
fn are_places_inbounds(grid: &[Dimension], place: &[u64]) -> bool
    requires { length place.now ≡ length grid.now }
    ensures { result ≡ in_all place_inbounds (grid_of grid.now) place.now }
{
    for k in 0..grid.len() {
        if !grid[k].place_inbounds(place[k]) {
            return false;
        }
    }
    true
}

/// Where a place with the grid's dimensions lies in its chunk.
fn find_element(
    alloc: Global,
    grid: &[Dimension],
    place: &[u64],
) -> Result<Option<Vec<u64>>, AllocError>
    requires { length place.now ≡ length grid.now }
    ensures { IfOk result (FindsElement (grid_of grid.now) place.now) }
{
    let found = find_chunk(alloc, grid, place)?;
    let Some(chunk) = found else {
        return Ok(None);
    };
    let origin = find_origin(alloc, grid, &chunk)?;
    let Some(first) = origin else {
        return Ok(None);
    };
    let element = differences(alloc, place, &first)?;
    Ok(Some(element))
}

/// Each number less the other list's.
fn differences(alloc: Global, numbers: &[u64], others: &[u64]) -> Result<Vec<u64>, AllocError>
    requires same { length others.now ≡ length numbers.now }
    requires less { (k : ℕ) → k < length numbers.now
        → slice_index others.now k ≤ slice_index numbers.now k }
    ensures { IfOk result (λ found. found.items ≡ each2 (λ n o. n - o) numbers.now others.now) }
{
    let mut found = Vec::with_capacity(alloc, numbers.len())?;
    for k in 0..numbers.len() {
        found.push(numbers[k] - others[k])?;
    }
    Ok(found)
}
