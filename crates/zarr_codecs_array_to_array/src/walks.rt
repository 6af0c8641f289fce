//! Elements moved to other places.
ghost use Rattle.std.specs.Prelude.{◌≡◌, ◌<◌, List, map, slice_index, length, replicate, true, Some, IfOk, OnOk};
ghost use Rattle.std.specs.List.{range_with_len};
ghost use Rattle.zarr_grids_boxes.specs.Boxes.{product, place_at};
ghost use Rattle.zarr_codecs_meaning.specs.Places.{gather, place_numbers, position_of};
ghost use Rattle.zarr_codecs_meaning.specs.Payloads.{cells_in};
ghost use Rattle.zarr_codecs_meaning.specs.Types.{Cell};
ghost use Rattle.zarr_codecs_arrays.specs.Views.{payload_of, elements_of};
ghost use Rattle.zarr_codecs_array_to_array.specs.Moving.{are_below, Checks, Gathers, picked_number};

use crate::strided::gathered_fixed;
use std::alloc::{AllocError, Global};
use zarr_codecs_arrays::{ArrayBytes, CodecError, Elements};
use zarr_codecs_regions::gather_elements;
use zarr_grids_boxes::ravel_indices;
use zarr_grids_boxes::walk::{count_places, place_into};

/// How places of a shape are those of another one: dimension i of the other one is the dimension
/// that stands at i among the picks.
#[derive(Clone, Copy)]
pub(crate) struct Route<'a> {
    pub(crate) from: &'a [u64],
    pub(crate) picks: &'a [u64],
    pub(crate) to: &'a [u64],
}

/// Tests that these are the elements of an array of this shape.
fn check(bytes: &ArrayBytes, elements: &Elements, shape: &[u64]) -> Result<(), CodecError>
    ensures { Checks (elements_of elements.now).type (product shape.now) (payload_of bytes.now)
        result }
{
    let Some(count) = count_places(shape) else {
        return Err(CodecError::Size);
    };
    bytes.validate(elements.data_type(), count)
}

/// Elements of an array of this shape that stay in their row-major order.
pub(crate) fn kept(
    bytes: ArrayBytes,
    elements: &Elements,
    shape: &[u64],
) -> Result<ArrayBytes, CodecError>
    ensures { Gathers (elements_of elements.now) (product shape.now) (place_numbers shape.now)
        (payload_of bytes) result }
{
    match check(&bytes, elements, shape) {
        Ok(()) => Ok(bytes),
        Err(error) => Err(error),
    }
}

/// For each place of the first shape of a route, the element of its place in the other shape.
pub(crate) fn gathered(
    alloc: Global,
    bytes: &ArrayBytes,
    elements: &Elements,
    route: Route<'_>,
) -> Result<ArrayBytes, CodecError>
    ensures { Gathers (elements_of elements.now) (product route.entry.to.now)
        (map (picked_number route.entry.from.now route.entry.picks.now
        route.entry.to.now) (place_numbers route.entry.from.now)) (payload_of bytes.now) result }
{
    if let Err(error) = check(bytes, elements, route.to) {
        return Err(error);
    }
    Ok(gather_route(alloc, bytes, elements, route)?)
}

/// Of this many dimensions at most, elements of one size are moved along strides, by calls as deep
/// as there are dimensions.
const MOST_DIMENSIONS: usize = 64;

/// For each place of the first shape of a route, the element of its place in the other shape.
/// `Err` only where an allocation failed, and where there is no such place or element.
fn gather_route(
    alloc: Global,
    bytes: &ArrayBytes,
    elements: &Elements,
    route: Route<'_>,
) -> Result<ArrayBytes, AllocError>
    ensures { (cells : List Cell)
        → cells_in (elements_of elements.now).type (payload_of bytes.now) ≡ Some cells
        → are_below (length cells) (map (picked_number route.entry.from.now
        route.entry.picks.now route.entry.to.now) (place_numbers route.entry.from.now)) ≡ true
        → IfOk result (λ made. cells_in (elements_of elements.now).type (payload_of made)
        ≡ Some (gather (elements_of elements.now).fill cells (map (picked_number
        route.entry.from.now route.entry.picks.now route.entry.to.now)
        (place_numbers route.entry.from.now)))) }
{
    match bytes {
        ArrayBytes::Fixed(fixed) => {
            if fixed.is_empty() || route.from.len() > MOST_DIMENSIONS {
                return gather_listed(alloc, bytes, elements, route);
            }
            gathered_fixed(alloc, fixed.as_slice(), elements, route)
        }
        _ => gather_listed(alloc, bytes, elements, route),
    }
}

/// `gather_route` by the numbers of all places.
fn gather_listed(
    alloc: Global,
    bytes: &ArrayBytes,
    elements: &Elements,
    route: Route<'_>,
) -> Result<ArrayBytes, AllocError>
    ensures { (cells : List Cell)
        → cells_in (elements_of elements.now).type (payload_of bytes.now) ≡ Some cells
        → are_below (length cells) (map (picked_number route.entry.from.now
        route.entry.picks.now route.entry.to.now) (place_numbers route.entry.from.now)) ≡ true
        → IfOk result (λ made. cells_in (elements_of elements.now).type (payload_of made)
        ≡ Some (gather (elements_of elements.now).fill cells (map (picked_number
        route.entry.from.now route.entry.picks.now route.entry.to.now)
        (place_numbers route.entry.from.now)))) }
{
    let numbers = all_numbers(alloc, route.from)?;
    let numbers = picked_numbers(alloc, route, &numbers)?;
    gather_elements(alloc, bytes, elements, &numbers)
}

/// The numbers of all places of a shape.
fn all_numbers(alloc: Global, shape: &[u64]) -> Result<Vec<u64>, AllocError>
    ensures { IfOk result (λ v. v.items ≡ place_numbers shape.now) }
{
    let Some(count) = count_places(shape) else {
        return Err(AllocError);
    };
    let mut numbers = Vec::with_capacity(alloc, count as usize)?;
    for number in 0..count {
        numbers.push(number)?;
    }
    Ok(numbers)
}

/// The numbers in the other shape of a route of the places that have these numbers in the first.
/// `Err` only where an allocation failed, and where there is no such place or number.
pub(crate) fn picked_numbers(
    alloc: Global,
    route: Route<'_>,
    numbers: &[u64],
) -> Result<Vec<u64>, AllocError>
    ensures { IfOk result (λ v. v.items
        ≡ map (picked_number route.entry.from.now route.entry.picks.now route.entry.to.now)
        numbers.now) }
{
    let Some(count) = count_places(route.from) else {
        return Err(AllocError);
    };
    let start = origin(alloc, route.from)?;
    let mut place = origin(alloc, route.from)?;
    let mut index = Vec::with_capacity(alloc, route.picks.len())?;
    let mut picked = Vec::with_capacity(alloc, numbers.len())?;
    for number in numbers {
        if *number >= count {
            return Err(AllocError);
        }
        place_of(&start, route.from, count, *number, &mut place);
        pick(&place, route.picks, &mut index)?;
        let Some(found) = ravel_indices(&index, route.to) else {
            return Err(AllocError);
        };
        picked.push(found)?;
    }
    Ok(picked)
}

/// The first place of a shape.
pub(crate) fn origin(alloc: Global, shape: &[u64]) -> Result<Vec<u64>, AllocError>
    ensures { IfOk result (λ place. place.items ≡ replicate (length shape.now) 0) }
{
    vec![in alloc; 0u64; shape.len()]
}

/// Writes the place with a number, of a shape with so many places. The start is the first place.
fn place_of(start: &[u64], shape: &[u64], count: u64, number: u64, place: &mut [u64])
    requires start { start.now ≡ map (λ size. 0) shape.now }
    requires room { length place.old ≡ length shape.now }
    requires count { count ≡ product shape.now }
    requires below { number < product shape.now }
    ensures { place.new ≡ place_at (map (λ size. 0) shape.now) shape.now number }
{
    place_into(start, shape, count, number, place);
}

/// Replaces numbers by those that stand at these places of others. `Err` also where there is no
/// such place.
pub(crate) fn pick(place: &[u64], picks: &[u64], index: &mut Vec<u64>) -> Result<(), AllocError>
    ensures { OnOk result (index.new.items ≡ map (slice_index place.now) picks.now) }
{
    index.clear();
    for dimension in picks {
        let Some(number) = place.get(*dimension as usize) else {
            return Err(AllocError);
        };
        index.push(*number)?;
    }
    Ok(())
}

/// The sizes that stand at these places of a shape. `Err` also where there is no such place.
pub(crate) fn permuted(alloc: Global, shape: &[u64], order: &[u64]) -> Result<Vec<u64>, AllocError>
    ensures { IfOk result (λ v. v.items ≡ map (slice_index shape.now) order.now) }
{
    let mut sizes = Vec::with_capacity(alloc, order.len())?;
    pick(shape, order, &mut sizes)?;
    Ok(sizes)
}

/// Where each number below the length of an order stands in it, or else the length. Of a number
/// that stands in it twice this is the first place.
pub(crate) fn inverse(alloc: Global, order: &[u64]) -> Result<Vec<u64>, AllocError>
    ensures { IfOk result (λ v. v.items
        ≡ map (λ d. position_of d order.now) (range_with_len 0 (length order.now))) }
{
    let count = order.len();
    let mut positions = vec![in alloc; count as u64; count]?;
    for step in 0..count {
        let place = count - 1 - step;
        let number = order[place] as usize;
        if number < count {
            positions[number] = place as u64;
        }
    }
    Ok(positions)
}

/// The same numbers, in memory of their own.
pub(crate) fn copied(alloc: Global, numbers: &[u64]) -> Result<Vec<u64>, AllocError>
    ensures { IfOk result (λ v. v.items ≡ numbers.now) }
{
    let copy = numbers.to_vec(alloc)?;
    Ok(copy)
}
