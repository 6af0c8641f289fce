//! The subchunks of an array, and their elements.
ghost use Rattle.std.specs.Prelude.{◌≡◌, ◌+◌, ◌-◌, ◌*◌, ◌/◌, ◌<◌, ◌++◌, min, List, length, replicate, true, Some, IfOk, IfSome, OnOk};
ghost use Rattle.zarr_codecs_arrays.specs.Outcomes.{IsCounted};
ghost use Rattle.zarr_codecs_arrays.specs.Views.{elements_of, payload_of};
ghost use Rattle.zarr_codecs_meaning.specs.Payloads.{cells_in, fixed_cells};
ghost use Rattle.zarr_codecs_meaning.specs.Places.{gather, grid_of};
ghost use Rattle.zarr_codecs_meaning.specs.Types.{Cell, byte_width};
ghost use Rattle.zarr_codecs_traits.specs.Indexers.{shape_has, numbers_of};
ghost use Rattle.zarr_grids_boxes.specs.Boxes.{each2, place_at, product, ravel};
ghost use Rattle.zarr_grids_boxes.specs.Subsets.{region_of};
ghost use Rattle.zarr_grids_overlay.specs.Overlays.{IsOverlaid, extent_of};
ghost use Rattle.zarr_sharding_places.specs.Locating.{part_shape, subchunk_box};

use std::alloc::{AllocError, Global};
use zarr_codecs_arrays::ArrayBytes;
use zarr_codecs_regions::{extract_box, gather_elements, is_inside, numbers_asked};
use zarr_codecs_traits::{Indexer, WholeArray};
use zarr_grids_boxes::walk::{count_places, place_into};
use zarr_grids_boxes::{ArraySubset, ChunkShape};
use zarr_grids_overlay::{Extent, overlay};
use zarr_sharding_index::shapes::grid_of;

/// An array of this shape that is cut into subchunks of these edges, `count` of them, as many as
/// the grid says in each dimension. Those at the ends are cut short.
#[derive(Clone, Copy)]
pub(crate) struct CutArray<'a> {
    pub shape: &'a [u64],
    pub edges: &'a [u64],
    pub grid: &'a [u64],
    pub count: u64,
}

/// The shape of the subchunk with number `n`, row-major, of an array of this shape.
pub(crate) fn part_shape(
    alloc: Global,
    shape: &[u64],
    subchunk: &ChunkShape,
    n: u64,
) -> Result<Vec<u64>, AllocError>
    requires rank { length shape.now ≡ length subchunk.now }
    requires below { n < product (grid_of shape.now subchunk.now) }
    ensures { IfOk result (λ made. made.items ≡ part_shape shape.now subchunk.now n) }
{
    let edges = subchunk.as_slice();
    let counted = grid_of(alloc, shape, subchunk)?;
    let grid = counted.as_slice();
    let Some(count) = count_places(grid) else {
        return Err(AllocError);
    };
    let cut = CutArray {
        shape,
        edges,
        grid,
        count,
    };
    let region = subchunk_region(alloc, cut, n)?;
    Ok(region.shape)
}

/// The box of the subchunk with number `n`, row-major, of an array of this shape. `Err` also where
/// the array has no such subchunk.
pub(crate) fn numbered_region(
    alloc: Global,
    shape: &[u64],
    subchunk: &ChunkShape,
    n: u64,
) -> Result<ArraySubset, AllocError>
    ensures region { IfOk result
        (λ region. region_of region ≡ subchunk_box shape.now subchunk.now n) }
    ensures below { IfOk result (λ region. n < product (grid_of shape.now subchunk.now)) }
{
    let edges = subchunk.as_slice();
    if shape.len() != edges.len() {
        return Err(AllocError);
    }
    let counted = grid_of(alloc, shape, subchunk)?;
    let grid = counted.as_slice();
    let Some(count) = count_places(grid) else {
        return Err(AllocError);
    };
    if n >= count {
        return Err(AllocError);
    }
    let cut = CutArray {
        shape,
        edges,
        grid,
        count,
    };
    subchunk_region(alloc, cut, n)
}

/// The box of the subchunk with number `n`, row-major.
pub(crate) fn subchunk_region(
    alloc: Global,
    cut: CutArray<'_>,
    n: u64,
) -> Result<ArraySubset, AllocError>
    requires grid { cut.grid.now ≡ grid_of cut.shape.now cut.edges.now }
    requires count { cut.count ≡ product cut.grid.now }
    requires below { n < product cut.grid.now }
    ensures { IfOk result (λ region. region_of region
        ≡ subchunk_box cut.entry.shape.now cut.entry.edges.now n) }
{
    let first = first_place(alloc, cut.grid)?;
    let region = ArraySubset::new_with_shape(alloc, cut.edges.to_vec(alloc)?)?;
    move_to_subchunk(region, first.as_slice(), cut, n)
}

/// The first place of a grid.
pub(crate) fn first_place(alloc: Global, grid: &[u64]) -> Result<Vec<u64>, AllocError>
    ensures { IfOk result (λ place. place.items ≡ replicate (length grid.now) 0) }
{
    vec![in alloc; 0u64; grid.len()]
}

/// The box of the subchunk with number `n`, row-major, in the room of another box; of the grid this
/// is the first place. `Err` where the box has not as many dimensions as the grid, a number is too
/// large, or an allocation failed.
pub(crate) fn move_to_subchunk(
    region: ArraySubset,
    first: &[u64],
    cut: CutArray<'_>,
    n: u64,
) -> Result<ArraySubset, AllocError>
    requires first { first.now ≡ replicate (length cut.grid.now) 0 }
    requires grid { cut.grid.now ≡ grid_of cut.shape.now cut.edges.now }
    requires count { cut.count ≡ product cut.grid.now }
    requires below { n < product cut.grid.now }
    ensures { IfOk result (λ moved. region_of moved
        ≡ subchunk_box cut.entry.shape.now cut.entry.edges.now n) }
{
    let start = subchunk_start(region.start, first, cut.grid, cut.count, n, cut.edges)?;
    let mut shape = region.shape;
    shape.clear();
    push_lengths(start.as_slice(), cut.shape, cut.edges, &mut shape)?;
    match ArraySubset::new_with_start_shape(start, shape) {
        Ok(moved) => Ok(moved),
        Err(_) => Err(AllocError),
    }
}

/// Where the subchunk of these edges with number `n`, row-major, begins, in the room of other
/// numbers; of the grid this is the first place. `Err` where there isn't one number for each
/// dimension, or a number is too large.
fn subchunk_start(
    room: Vec<u64>,
    first: &[u64],
    grid: &[u64],
    count: u64,
    n: u64,
    edges: &[u64],
) -> Result<Vec<u64>, AllocError>
    requires first { first.now ≡ replicate (length grid.now) 0 }
    requires count { count ≡ product grid.now }
    requires below { n < product grid.now }
    ensures { IfOk result (λ start. start.items ≡ each2 (λ i edge. i * edge)
        (place_at (replicate (length grid.now) 0) grid.now n) edges.now) }
{
    let mut start = room;
    if start.len() != grid.len() || edges.len() != grid.len() {
        return Err(AllocError);
    }
    place_into(first, grid, count, n, start.as_mut_slice());
    multiply(start.as_mut_slice(), edges)?;
    Ok(start)
}

/// The number, row-major, of the subchunk that a place of an array lies in, and how many subchunks
/// there are. `None` where one of the two is too large, and where the place has fewer dimensions
/// than the shape.
pub(crate) fn subchunk_number(place: &[u64], shape: &[u64], edges: &[u64]) -> Option<(u64, u64)>
    ensures number { IfSome result (λ found. found.0
        ≡ ravel (each2 (λ x edge. x / edge) place.now edges.now) (grid_of shape.now edges.now)) }
    ensures count { IfSome result (λ found. found.1 ≡ product (grid_of shape.now edges.now)) }
{
    let Some((along, place)) = place.split_first() else {
        return if shape.is_empty() { Some((0, 1)) } else { None };
    };
    let Some((size, sizes)) = shape.split_first() else {
        return None;
    };
    let Some((edge, edges)) = edges.split_first() else {
        return None;
    };
    let (number, count) = subchunk_number(place, sizes, edges)?;
    let before = along.checked_div(*edge)?.checked_mul(count)?;
    let all = count_along(*size, *edge)?.checked_mul(count)?;
    Some((before.checked_add(number)?, all))
}

/// How many subchunks of this edge there are in a dimension of this size. `None` where the edge is
/// 0.
#[tactic(auto, using(zarr_sharding_index::proofs::Grids::rounded_up))]
fn count_along(size: u64, edge: u64) -> Option<u64>
    ensures { IfSome result (λ count. count ≡ (size + (edge - 1)) / edge) }
{
    if edge == 0 {
        return None;
    }
    Some(size.div_ceil(edge))
}

/// Multiplies the number of each dimension by the one of an edge. `Err` where one is too large.
fn multiply(place: &mut [u64], edges: &[u64]) -> Result<(), AllocError>
    requires { length edges.now ≡ length place.old }
    ensures { OnOk result (place.new ≡ each2 (λ i edge. i * edge) place.old edges.now) }
{
    for k in 0..place.len() {
        match place[k].checked_mul(edges[k]) {
            Some(first) => place[k] = first,
            None => return Err(AllocError),
        }
    }
    Ok(())
}

/// Appends how long the subchunk of an array that begins at a place is in each dimension.
fn push_lengths(
    start: &[u64],
    shape: &[u64],
    edges: &[u64],
    lengths: &mut Vec<u64>,
) -> Result<(), AllocError>
    ensures { OnOk result (lengths.new.items ≡ lengths.old.items
        ++ each2 min edges.now (each2 (λ size begin. size - begin) shape.now start.now)) }
{
    let Some((edge, edges)) = edges.split_first() else {
        return Ok(());
    };
    let Some((size, sizes)) = shape.split_first() else {
        return Ok(());
    };
    let Some((first, starts)) = start.split_first() else {
        return Ok(());
    };
    lengths.push((*edge).min(size.saturating_sub(*first)))?;
    push_lengths(starts, sizes, edges, lengths)
}

/// The elements at the places of a box of an array, row-major: in stretches where each element has
/// the same number of bytes, over those in `room` where these are as many. `Err` where an
/// allocation failed, and where these are no elements of the array, or the box doesn't lie in it.
pub(crate) fn take_box(
    alloc: Global,
    room: Vec<u8>,
    bytes: &ArrayBytes,
    array: WholeArray<'_>,
    region: &ArraySubset,
) -> Result<ArrayBytes, AllocError>
    ensures { (cells : List Cell) → IsCounted (elements_of array.entry.elements.now).type
        (payload_of bytes.now) (product array.entry.shape.now) cells
        → IfOk result (λ piece. cells_in (elements_of array.entry.elements.now).type
        (payload_of piece) ≡ Some (gather (elements_of array.entry.elements.now).fill cells
        (numbers_of array.entry.shape.now (region_of region.now)))) }
{
    if !is_inside(array.shape, region) {
        return Err(AllocError);
    }
    match bytes {
        ArrayBytes::Fixed(bytes) => match whole_width(bytes.len(), array) {
            Some(width) => {
                let piece = take_stretches(
                    alloc,
                    room,
                    bytes.as_slice(),
                    array.shape,
                    region,
                    width,
                )?;
                Ok(ArrayBytes::Fixed(piece))
            }
            None => Err(AllocError),
        },
        _ => gather_box(alloc, bytes, array, region),
    }
}

/// The bytes at the places of a box of an array, row-major with `width` bytes to an element, over
/// those in `room` where these are as many. `Err` only where an allocation failed.
fn take_stretches(
    alloc: Global,
    room: Vec<u8>,
    bytes: &[u8],
    shape: &[u64],
    region: &ArraySubset,
    width: usize,
) -> Result<Vec<u8>, AllocError>
    requires inside { shape_has shape.now (region_of region.now) ≡ true }
    requires positive { 0 < width }
    requires whole { length bytes.now ≡ product shape.now * width }
    ensures elements { (other : Cell) → IfOk result (λ piece. fixed_cells width piece.items
        ≡ gather other (fixed_cells width bytes.now)
        (numbers_of shape.now (region_of region.now))) }
    ensures length { IfOk result
        (λ piece. length piece.items ≡ product region.now.shape.items * width) }
{
    if !is_full(room.len(), region.shape(), width) {
        return extract_box(alloc, bytes, shape, region, width);
    }
    let start = first_place(alloc, shape)?;
    let from = Extent {
        start: start.as_slice(),
        shape,
    };
    let into = Extent {
        start: region.start(),
        shape: region.shape(),
    };
    Ok(overlaid(room, into, bytes, from, width))
}

/// Whether so many bytes are those of all elements of a box of this shape.
fn is_full(size: usize, shape: &[u64], width: usize) -> bool
    ensures { result ≡ true → size ≡ product shape.now * width }
{
    let Some(count) = count_places(shape) else {
        return false;
    };
    match count.checked_mul(width as u64) {
        Some(total) => size as u64 == total,
        None => false,
    }
}

/// The bytes of a box after those of another were put over them.
fn overlaid(mut before: Vec<u8>, into: Extent, given: &[u8], from: Extent, width: usize) -> Vec<u8>
    requires rank { length from.start.now ≡ length into.start.now }
    requires before { length before.items ≡ product into.shape.now * width }
    requires given { length given.now ≡ product from.shape.now * width }
    ensures over { IsOverlaid width (extent_of into.entry) (extent_of from.entry) before.items
        given.now result.items }
    ensures length { length result.items ≡ length before.items }
{
    overlay(&mut before, into, given, from, width);
    before
}

/// The elements at the places of a box that lies in an array, row-major, one by one.
fn gather_box(
    alloc: Global,
    bytes: &ArrayBytes,
    array: WholeArray<'_>,
    region: &ArraySubset,
) -> Result<ArrayBytes, AllocError>
    requires { shape_has array.shape.now (region_of region.now) ≡ true }
    ensures { (cells : List Cell) → IsCounted (elements_of array.entry.elements.now).type
        (payload_of bytes.now) (product array.entry.shape.now) cells
        → IfOk result (λ piece. cells_in (elements_of array.entry.elements.now).type
        (payload_of piece) ≡ Some (gather (elements_of array.entry.elements.now).fill cells
        (numbers_of array.entry.shape.now (region_of region.now)))) }
{
    if count_places(array.shape).is_none() {
        return Err(AllocError);
    }
    let numbers = numbers_asked(alloc, array.shape, Indexer::Subset(region))?;
    gather_elements(alloc, bytes, array.elements, numbers.as_slice())
}

/// How many bytes each element of an array has, of which so many bytes are all elements.
pub(crate) fn whole_width(size: usize, array: WholeArray<'_>) -> Option<usize>
    ensures { IfSome result (λ width. (0 < width) × (size ≡ product array.entry.shape.now * width)
        × (byte_width (elements_of array.entry.elements.now).type ≡ Some width)) }
{
    let width = array.elements.data_type().byte_width()?;
    let count = count_places(array.shape)?;
    let total = count.checked_mul(width as u64)?;
    if width == 0 || size as u64 != total {
        return None;
    }
    Some(width)
}
