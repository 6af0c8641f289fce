//! Elements of one size moved to other places, along strides.
ghost use Rattle.std.specs.Prelude.{◌≡◌, ◌+◌, ◌*◌, List, ℕ, length, map, slice_index, true, Some, IfOk, IfSome};
ghost use Rattle.zarr_grids_boxes.specs.Boxes.{product, ravel};
ghost use Rattle.zarr_codecs_meaning.specs.Payloads.{cells_in, fixed};
ghost use Rattle.zarr_codecs_meaning.specs.Places.{gather, place_numbers};
ghost use Rattle.zarr_codecs_meaning.specs.Types.{Cell};
ghost use Rattle.zarr_codecs_arrays.specs.Views.{payload_of, elements_of};
ghost use Rattle.zarr_codecs_strides.specs.Strides.{strided};
ghost use Rattle.zarr_codecs_array_to_array.specs.Moving.{are_below, picked_number};
ghost use Rattle.zarr_codecs_array_to_array.specs.Strided.{distance};

use crate::walks::{Route, origin};
use std::alloc::{AllocError, Global};
use zarr_codecs_arrays::{ArrayBytes, Elements};
use zarr_codecs_strides::{Walk, gather_walk};

/// For each place of the first shape of a route, the element of one size of its place in the other
/// shape. `Err` only where an allocation failed, and where there is no such place or element.
pub(crate) fn gathered_fixed(
    alloc: Global,
    bytes: &[u8],
    elements: &Elements,
    route: Route<'_>,
) -> Result<ArrayBytes, AllocError>
    ensures { (cells : List Cell)
        → cells_in (elements_of elements.now).type (fixed bytes.now) ≡ Some cells
        → are_below (length cells) (map (picked_number route.entry.from.now
        route.entry.picks.now route.entry.to.now) (place_numbers route.entry.from.now)) ≡ true
        → IfOk result (λ made. cells_in (elements_of elements.now).type (payload_of made)
        ≡ Some (gather (elements_of elements.now).fill cells (map (picked_number
        route.entry.from.now route.entry.picks.now route.entry.to.now)
        (place_numbers route.entry.from.now)))) }
{
    let Some(width) = elements.data_type().byte_width() else {
        return Err(AllocError);
    };
    let strides = strides_of(alloc, route)?;
    let walk = Walk {
        sizes: route.from,
        strides: strides.as_slice(),
    };
    let gathered = gather_walk(alloc, bytes, width, walk)?;
    Ok(ArrayBytes::Fixed(gathered))
}

/// How many elements of the other shape of a route a step in each dimension of the first goes on.
fn strides_of(alloc: Global, route: Route<'_>) -> Result<Vec<u64>, AllocError>
    ensures { IfOk result (λ strides. strided 0 route.entry.from.now strides.items
        ≡ map (picked_number route.entry.from.now route.entry.picks.now route.entry.to.now)
        (place_numbers route.entry.from.now)) }
{
    let mut strides = origin(alloc, route.from)?;
    let Some(_count) = add_strides(&mut strides, route.picks, route.to) else {
        return Err(AllocError);
    };
    Ok(strides)
}

/// Adds to the stride of each dimension that is picked how many elements a step goes on in the
/// dimension of the other shape that it stands at. Returns how many elements that shape has.
fn add_strides(strides: &mut [u64], picks: &[u64], to: &[u64]) -> Option<u64>
    ensures rank { length strides.new ≡ length strides.old }
    ensures count { IfSome result (λ count. count ≡ product to.now) }
    ensures sums { (place : List ℕ) → length place ≡ length strides.old → IfSome result
        (λ count. distance place strides.new ≡ distance place strides.old
        + ravel (map (slice_index place) picks.now) to.now) }
{
    match (picks.split_first(), to.split_first()) {
        (Some((dimension, picks)), Some((size, to))) => {
            let count = add_strides(strides, picks, to)?;
            let at = *dimension as usize;
            if at >= strides.len() {
                return None;
            }
            let stride = strides[at].checked_add(count)?;
            strides[at] = stride;
            count.checked_mul(*size)
        }
        (None, None) => Some(1),
        _ => None,
    }
}
