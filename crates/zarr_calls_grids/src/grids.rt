//! Chunk grids.
use crate::words::{box_in, cut, metadata_in, numbers, numbers_in, refused, truth, word};
use anyhow::{Result, bail};
use serde_json::{Map, Value};
use std::alloc::{AllocError, Global};
use zarr_grids_boxes::{ArrayIndices, ArraySubset};
use zarr_grids_chunk_grids::{ChunkGrid, ChunkGridTraits};
use zarr_grids_dimensions::LookupError;

/// What a call of a grid gives. Its first two arguments are the metadata of the grid and the shape
/// of the array.
pub(crate) fn answer(alloc: Global, name: &str, rest: &str) -> Option<Result<String>> {
    match name {
        "grid" => Some(read(alloc, rest)),
        "grids" => Some(same(alloc, rest)),
        "chunks" => Some(walked(alloc, rest)),
        "boxes" => Some(boxes(alloc, rest)),
        "box" | "meets" | "spans" => Some(of_box(alloc, name, rest)),
        "chunk" | "within" | "origin" | "edges" | "has_chunk" | "has_place" => {
            Some(of_indices(alloc, name, rest))
        }
        _ => None,
    }
}

/// The grid of a text over an array of a shape.
fn grid_of(alloc: Global, text: &str, shape: &str) -> Result<ChunkGrid> {
    let shape = numbers_in(alloc, shape)?;
    let metadata = metadata_in(alloc, text)?;
    Ok(ChunkGrid::from_metadata(alloc, &metadata, shape.as_slice())?)
}

/// The grid of two arguments.
fn grid_in(alloc: Global, rest: &str) -> Result<ChunkGrid> {
    let (text, shape) = cut(rest)?;
    grid_of(alloc, text, shape)
}

/// The grid of the first two arguments, and the others.
fn cut_grid(alloc: Global, rest: &str) -> Result<(ChunkGrid, &str)> {
    let (text, rest) = cut(rest)?;
    let (shape, rest) = cut(rest)?;
    Ok((grid_of(alloc, text, shape)?, rest))
}

/// How many chunks the grid of a text has along each dimension, and its configuration.
fn read(alloc: Global, rest: &str) -> Result<String> {
    let (text, shape) = cut(rest)?;
    let shape = numbers_in(alloc, shape)?;
    let metadata = metadata_in(alloc, text)?;
    match ChunkGrid::from_metadata(alloc, &metadata, shape.as_slice()) {
        Ok(grid) => configured(alloc, &grid, shape.as_slice()),
        Err(error) => refused(alloc, &error),
    }
}

/// The members of the configuration of a grid.
fn members_of(alloc: Global, grid: &ChunkGrid) -> Result<Map<String, Value>, AllocError> {
    match grid {
        ChunkGrid::Regular(grid) => grid.configuration(alloc),
        ChunkGrid::RegularBounded(grid) => grid.configuration(alloc),
        ChunkGrid::Rectangular(grid) => grid.configuration(alloc),
        ChunkGrid::Rectilinear(grid) => grid.configuration(alloc),
    }
}

fn configured(alloc: Global, grid: &ChunkGrid, shape: &[u64]) -> Result<String> {
    if grid.array_shape(alloc)?.as_slice() != shape {
        bail!("a grid is of another shape");
    }
    let members = members_of(alloc, grid)?;
    let configuration = Value::Object(members).to_string(alloc)?;
    let counts = grid.grid_shape(alloc)?;
    let counts = counts.as_slice();
    Ok(format!(in alloc; "{counts:?} {configuration}")?)
}

/// Whether two grids are equal, and the first of them to its copy.
fn same(alloc: Global, rest: &str) -> Result<String> {
    let (grid, rest) = cut_grid(alloc, rest)?;
    let other = grid_in(alloc, rest)?;
    compared(alloc, &grid, &other)
}

fn compared(alloc: Global, grid: &ChunkGrid, other: &ChunkGrid) -> Result<String> {
    if !is_copied(alloc, grid)? {
        bail!("the copy of a grid differs");
    }
    truth(alloc, *grid == *other)
}

/// Whether a grid is equal to its copy.
fn is_copied(alloc: Global, grid: &ChunkGrid) -> Result<bool, AllocError> {
    Ok(grid.try_clone(alloc)? == *grid)
}

/// What a look-up found.
fn found(alloc: Global, found: Result<Option<Vec<u64>>, LookupError>) -> Result<String> {
    match found {
        Ok(Some(indices)) => numbers(alloc, indices.as_slice()),
        Ok(None) => word(alloc, "none"),
        Err(error) => Ok(format!(in alloc; "refused: {error}")?),
    }
}

/// What a grid gives for a place or a chunk.
fn of_indices(alloc: Global, name: &str, rest: &str) -> Result<String> {
    let (grid, rest) = cut_grid(alloc, rest)?;
    let indices = numbers_in(alloc, rest)?;
    asked_at(alloc, &grid, name, indices.as_slice())
}

fn asked_at(alloc: Global, grid: &ChunkGrid, name: &str, indices: &[u64]) -> Result<String> {
    match name {
        "chunk" => found(alloc, grid.chunk_indices(alloc, indices)),
        "within" => found(alloc, grid.chunk_element_indices(alloc, indices)),
        "origin" => found(alloc, grid.chunk_origin(alloc, indices)),
        "edges" => edges(alloc, grid, indices),
        "has_chunk" => truth(alloc, grid.chunk_indices_inbounds(indices)),
        _ => truth(alloc, grid.array_indices_inbounds(indices)),
    }
}

/// The shape of a chunk, and whether none of its edges is 0.
fn edges(alloc: Global, grid: &ChunkGrid, chunk: &[u64]) -> Result<String> {
    let is_shape = grid.chunk_shape(alloc, chunk)?.is_some();
    let edges = found(alloc, grid.chunk_shape_u64(alloc, chunk))?;
    Ok(format!(in alloc; "{edges} {is_shape}")?)
}

/// A box by its start and its shape.
fn text_of(alloc: Global, subset: &ArraySubset) -> Result<String, AllocError> {
    let (start, shape) = (subset.start(), subset.shape());
    format!(in alloc; "{start:?}+{shape:?}")
}

/// The box that a look-up found.
fn found_box(alloc: Global, found: Result<Option<ArraySubset>, LookupError>) -> Result<String> {
    match found {
        Ok(Some(subset)) => Ok(text_of(alloc, &subset)?),
        Ok(None) => word(alloc, "none"),
        Err(error) => Ok(format!(in alloc; "refused: {error}")?),
    }
}

/// The box of a chunk; the chunks that a box meets; the places of a box of chunks.
fn of_box(alloc: Global, name: &str, rest: &str) -> Result<String> {
    let (grid, rest) = cut_grid(alloc, rest)?;
    match name {
        "box" => box_of_chunk(alloc, &grid, rest),
        "meets" => met(alloc, &grid, rest),
        _ => spanned(alloc, &grid, rest),
    }
}

fn box_of_chunk(alloc: Global, grid: &ChunkGrid, text: &str) -> Result<String> {
    let chunk = numbers_in(alloc, text)?;
    found_box(alloc, grid.subset(alloc, chunk.as_slice()))
}

fn met(alloc: Global, grid: &ChunkGrid, text: &str) -> Result<String> {
    let region = box_in(alloc, text)?;
    found_box(alloc, grid.chunks_in_array_subset(alloc, &region))
}

fn spanned(alloc: Global, grid: &ChunkGrid, text: &str) -> Result<String> {
    let chunks = box_in(alloc, text)?;
    found_box(alloc, grid.chunks_subset(alloc, &chunks))
}

/// Appends a space and numbers.
fn push_numbers(alloc: Global, all: &mut String, numbers: &[u64]) -> Result<(), AllocError> {
    Ok(all.push_str(format!(in alloc; " {numbers:?}")?.as_str())?)
}

/// Appends a chunk and its box.
fn push_box(
    alloc: Global,
    all: &mut String,
    chunk: &[u64],
    subset: &ArraySubset,
) -> Result<(), AllocError> {
    push_numbers(alloc, all, chunk)?;
    all.push_str(":")?;
    Ok(all.push_str(text_of(alloc, subset)?.as_str())?)
}

/// Each chunk of a grid, in the order of its walk. Where memory for one runs out, that is said in
/// its place, and the walk goes on.
fn walked(alloc: Global, rest: &str) -> Result<String> {
    let grid = grid_in(alloc, rest)?;
    let mut all = word(alloc, "chunks")?;
    push_walk(alloc, &mut all, &grid)?;
    Ok(all)
}

/// Appends each chunk of a grid.
fn push_walk(alloc: Global, all: &mut String, grid: &ChunkGrid) -> Result<(), AllocError> {
    for chunk in grid.iter_chunk_indices(alloc)? {
        push_chunk(alloc, all, chunk)?;
    }
    Ok(())
}

/// Appends a chunk, or that there was no memory for it.
fn push_chunk(
    alloc: Global,
    all: &mut String,
    chunk: Result<ArrayIndices, AllocError>,
) -> Result<(), AllocError> {
    match chunk {
        Ok(chunk) => push_numbers(alloc, all, chunk.as_slice()),
        Err(_) => push_short(all),
    }
}

/// Appends that memory ran out.
fn push_short(all: &mut String) -> Result<(), AllocError> {
    Ok(all.push_str(" out of memory")?)
}

/// How many boxes the chunks of a grid have.
fn count_boxes(alloc: Global, grid: &ChunkGrid) -> Result<usize, AllocError> {
    let mut count = 0usize;
    for _ in grid.iter_chunk_subsets(alloc)? {
        count = count.saturating_add(1);
    }
    Ok(count)
}

/// How many boxes the chunks of a grid have, and each chunk that has one with it. Where memory for
/// one runs out, the walks go on as that over the chunks does.
fn boxes(alloc: Global, rest: &str) -> Result<String> {
    let grid = grid_in(alloc, rest)?;
    let mut all = counted(alloc, &grid)?;
    push_boxes(alloc, &mut all, &grid)?;
    Ok(all)
}

fn counted(alloc: Global, grid: &ChunkGrid) -> Result<String, AllocError> {
    let count = count_boxes(alloc, grid)?;
    format!(in alloc; "{count} boxes")
}

/// Appends each chunk of a grid with its box.
fn push_boxes(alloc: Global, all: &mut String, grid: &ChunkGrid) -> Result<(), AllocError> {
    for pair in grid.iter_chunk_indices_and_subsets(alloc)? {
        push_pair(alloc, all, pair)?;
    }
    Ok(())
}

/// Appends a chunk and its box, or that there was no memory for them.
fn push_pair(
    alloc: Global,
    all: &mut String,
    pair: Result<(ArrayIndices, ArraySubset), AllocError>,
) -> Result<(), AllocError> {
    match pair {
        Ok((chunk, subset)) => push_box(alloc, all, chunk.as_slice(), &subset),
        Err(_) => push_short(all),
    }
}
