//! The subchunks that places of an array lie in.
ghost use Rattle.std.specs.Prelude.{◌≡◌, ◌*◌, ◌≤◌, ℕ, length, IfOk, IfSome, IsPermutation};
ghost use Rattle.std.specs.List.Sorted.{IsNonDecreasingBy};
ghost use Rattle.zarr_codecs_meaning.specs.Places.{grid_of};
ghost use Rattle.zarr_grids_boxes.specs.Boxes.{product};
ghost use Rattle.zarr_sharding_places.specs.Groups.{places_in};
ghost use Rattle.zarr_sharding_places.specs.Locating.{asked_places, axes_of, located};

use std::alloc::{AllocError, Global};
use zarr_grids_boxes::walk::count_places;

/// A place of an array that is asked for: the number of the subchunk that it lies in, its number in
/// that subchunk, both row-major, and where it stands among all places that are asked for.
#[derive(Clone, Copy, Debug)]
pub struct AskedPlace {
    pub subchunk: u64,
    pub inside: u64,
    pub position: u64,
}

/// One dimension of an array that is cut into subchunks: its size, the edge of a subchunk, and how
/// many places and subchunks all later dimensions have.
#[derive(Clone, Copy, Debug)]
pub(crate) struct Axis {
    pub size: u64,
    pub edge: u64,
    pub places: u64,
    pub subchunks: u64,
}

/// The numbers of the subchunk that a place lies in and of the place in that subchunk, and how many
/// places that subchunk has.
#[derive(Clone, Copy, Debug)]
pub(crate) struct Located {
    pub subchunk: u64,
    pub inside: u64,
    pub count: u64,
}

/// The places with these numbers in an array, subchunk by subchunk, those of one subchunk in the
/// order in which they are asked for; the array is cut into subchunks of these edges, as many as
/// the grid says in each dimension, the last one cut short. `Err` where an allocation failed, and
/// where there are 2^63 places or more.
pub fn places_by_subchunk(
    alloc: Global,
    numbers: &[u64],
    shape: &[u64],
    edges: &[u64],
    grid: &[u64],
) -> Result<Vec<AskedPlace>, AllocError>
    requires { grid.now ≡ grid_of shape.now edges.now }
    ensures all { IfOk result
        (λ places. IsPermutation (asked_places shape.now edges.now numbers.now) places.items) }
    ensures sorted { IfOk result
        (λ places. IsNonDecreasingBy (λ place. place.subchunk) places.items) }
    ensures stable { IfOk result (λ places. (k : ℕ) → places_in k places.items
        ≡ places_in k (asked_places shape.now edges.now numbers.now)) }
{
    let mut places = locate_all(alloc, numbers, shape, edges, grid)?;
    places.sort_by_key(|place| place.subchunk)?;
    Ok(places)
}

/// The places with these numbers, in their order.
fn locate_all(
    alloc: Global,
    numbers: &[u64],
    shape: &[u64],
    edges: &[u64],
    grid: &[u64],
) -> Result<Vec<AskedPlace>, AllocError>
    requires { grid.now ≡ grid_of shape.now edges.now }
    ensures { IfOk result (λ places. places.items ≡ asked_places shape.now edges.now numbers.now) }
{
    let mut places = Vec::with_capacity(alloc, numbers.len())?;
    if numbers.is_empty() {
        return Ok(places);
    }
    let axes = list_axes(alloc, shape, edges, grid)?;
    for position in 0..numbers.len() {
        let Some(found) = locate(axes.as_slice(), numbers[position]) else {
            return Err(AllocError);
        };
        places.push(AskedPlace {
            subchunk: found.subchunk,
            inside: found.inside,
            position: position as u64,
        })?;
    }
    Ok(places)
}

/// The dimensions of the grid. It goes from the last one to the first, and multiplies what the
/// later ones have by one size at a time, so it reads each size once.
fn list_axes(
    alloc: Global,
    shape: &[u64],
    edges: &[u64],
    grid: &[u64],
) -> Result<Vec<Axis>, AllocError>
    requires sizes { length grid.now ≤ length shape.now }
    requires edges { length grid.now ≤ length edges.now }
    ensures { IfOk result (λ axes. axes.items ≡ axes_of shape.now edges.now grid.now) }
{
    let dimensions = grid.len();
    let mut axes = Vec::with_capacity(alloc, dimensions)?;
    if dimensions == 0 {
        return Ok(axes);
    }
    let mut places = count(&shape[dimensions..])?;
    let mut subchunks = 1;
    for k in (1..dimensions).rev() {
        axes.push(Axis {
            size: shape[k],
            edge: edges[k],
            places,
            subchunks,
        })?;
        places = times(shape[k], places)?;
        subchunks = times(grid[k], subchunks)?;
    }
    axes.push(Axis {
        size: shape[0],
        edge: edges[0],
        places,
        subchunks,
    })?;
    axes.reverse();
    Ok(axes)
}

/// How many places a shape has. `Err` where they are 2^63 or more.
fn count(shape: &[u64]) -> Result<u64, AllocError>
    ensures { IfOk result (λ count. count ≡ product shape.now) }
{
    match count_places(shape) {
        Some(count) => Ok(count),
        None => Err(AllocError),
    }
}

/// A count of places times the size of one dimension more. `Err` where it is 2^63 or more.
fn times(size: u64, count: u64) -> Result<u64, AllocError>
    ensures { IfOk result (λ more. more ≡ size * count) }
{
    match size.checked_mul(count) {
        Some(more) if more < 1 << 63 => Ok(more),
        _ => Err(AllocError),
    }
}

/// The numbers of the subchunk that a place lies in and of the place in that subchunk. `None` where
/// there is no such place, or a number is too large.
fn locate(axes: &[Axis], n: u64) -> Option<Located>
    ensures { IfSome result (λ found. found ≡ located axes.now n) }
{
    let Some((axis, others)) = axes.split_first() else {
        return Some(Located {
            subchunk: 0,
            inside: 0,
            count: 1,
        });
    };
    let along = n.checked_div(axis.places)?;
    let rest = locate(others, n.checked_rem(axis.places)?)?;
    let block = along.checked_div(axis.edge)?;
    let first = block.checked_mul(axis.edge)?;
    let within = along.checked_rem(axis.edge)?;
    let extent = axis.edge.min(axis.size.saturating_sub(first));
    Some(Located {
        subchunk: block
            .checked_mul(axis.subchunks)?
            .checked_add(rest.subchunk)?,
        inside: within.checked_mul(rest.count)?.checked_add(rest.inside)?,
        count: extent.checked_mul(rest.count)?,
    })
}
