//! Boxes, their places and the numbers of places, with values worked out by hand.
use crate::samples::{LAST, are, area, edges, is_area, is_next, says};
use std::alloc::{AllocError, Global};
use zarr_grids::{
    ArraySubset, ArraySubsetError, ChunkShape, GridError, chunk_shape_to_array_shape,
    ravel_indices, unravel_index,
};

/// Whether a box was made with this start and shape.
fn is_made<E: Drop>(made: Result<ArraySubset, E>, start: &[u64], shape: &[u64]) -> bool {
    match made {
        Ok(subset) => is_area(&subset, start, shape),
        Err(_) => false,
    }
}

#[test]
fn a_box_is_made_of_ranges(rt: HostRuntime) {
    let made = ArraySubset::new_with_ranges(rt.alloc(), &[2..4, 7..7, 9..3, LAST..0]);
    assert!(rt; is_made(made, &[2, 7, 9, LAST], &[2, 0, 0, 0]));
}

/// The box of this shape that begins at zero.
fn of_shape(alloc: Global, shape: &[u64]) -> Result<ArraySubset, AllocError> {
    ArraySubset::new_with_shape(alloc, shape.to_vec(alloc)?)
}

#[test]
fn a_box_of_a_shape_begins_at_zero(rt: HostRuntime) {
    assert!(rt; is_made(of_shape(rt.alloc(), &[4, LAST]), &[0, 0], &[4, LAST]));
    assert!(rt; is_made(ArraySubset::new_empty(rt.alloc(), 2), &[0, 0], &[0, 0]));
}

/// Whether the box with this start and shape ends so.
fn ends(
    alloc: Global,
    start: &[u64],
    shape: &[u64],
    end: &[u64],
) -> Result<bool, ArraySubsetError> {
    Ok(area(alloc, start, shape)?.end_exc(alloc)?.as_slice() == end)
}

#[test]
fn a_box_ends_at_the_last_number_at_most(rt: HostRuntime) {
    assert!(rt; ends(rt.alloc(), &[LAST, LAST - 1], &[0, 1], &[LAST, LAST]) == Ok(true));
    let passes = ends(rt.alloc(), &[LAST], &[1], &[]);
    assert!(rt; passes == Err(ArraySubsetError::EndPasses));
}

/// The last place of the box with this start and shape.
fn last(alloc: Global, start: &[u64], shape: &[u64]) -> Result<Option<Vec<u64>>, ArraySubsetError> {
    Ok(area(alloc, start, shape)?.end_inc(alloc)?)
}

/// Whether this is the last place of the box with this start and shape, or it has none.
fn ends_with(alloc: Global, start: &[u64], shape: &[u64], want: Option<&[u64]>) -> bool {
    match (last(alloc, start, shape), want) {
        (Ok(found), Some(place)) => are(found, place),
        (Ok(found), None) => found.is_none(),
        (Err(_), _) => false,
    }
}

#[test]
fn a_box_with_a_place_has_a_last_one(rt: HostRuntime) {
    assert!(rt; ends_with(rt.alloc(), &[1, 2], &[3, 4], Some(&[3, 5])));
    assert!(rt; ends_with(rt.alloc(), &[], &[], Some(&[])));
    assert!(rt; ends_with(rt.alloc(), &[1, 2], &[3, 0], None));
}

/// Whether a box is equal to its copy, and not to one of another shape.
fn is_equal_to_its_copy(alloc: Global) -> Result<bool, ArraySubsetError> {
    let subset = area(alloc, &[1, 2], &[3, 4])?;
    Ok(subset.try_clone(alloc)? == subset && subset != area(alloc, &[1, 2], &[3, 5])?)
}

#[test]
fn a_box_is_equal_to_its_copy(rt: HostRuntime) {
    assert!(rt; is_equal_to_its_copy(rt.alloc()) == Ok(true));
}

/// What the box from zero to (4, 4) shares with another one.
fn shared(alloc: Global, start: &[u64], shape: &[u64]) -> Result<ArraySubset, ArraySubsetError> {
    area(alloc, &[0, 0], &[4, 4])?.overlap(alloc, &area(alloc, start, shape)?)
}

#[test]
fn boxes_overlap_in_the_places_of_both(rt: HostRuntime) {
    assert!(rt; is_made(shared(rt.alloc(), &[2, 3], &[4, 4]), &[2, 3], &[2, 1]));
    assert!(rt; is_made(shared(rt.alloc(), &[7, 0], &[1, 1]), &[7, 0], &[0, 1]));
}

/// The box from (1, 2) to (4, 6), bounded by an end.
fn bounded(alloc: Global, end: &[u64]) -> Result<ArraySubset, ArraySubsetError> {
    area(alloc, &[1, 2], &[3, 4])?.bound(alloc, end)
}

#[test]
fn a_box_is_bounded_by_an_end(rt: HostRuntime) {
    assert!(rt; is_made(bounded(rt.alloc(), &[3, 10]), &[1, 2], &[2, 4]));
    assert!(rt; is_made(bounded(rt.alloc(), &[0, 4]), &[0, 2], &[0, 2]));
}

/// The box from (5, 7) to (7, 10), moved by an offset.
fn moved(alloc: Global, offset: &[u64]) -> Result<ArraySubset, ArraySubsetError> {
    area(alloc, &[5, 7], &[2, 3])?.relative_to(alloc, offset)
}

#[test]
fn a_box_is_moved_by_an_offset(rt: HostRuntime) {
    assert!(rt; is_made(moved(rt.alloc(), &[1, 7]), &[4, 0], &[2, 3]));
    let refused = moved(rt.alloc(), &[5, 8]);
    assert!(rt; matches!(refused, Err(ArraySubsetError::NotRelative)));
}

/// Whether a box's walk begins with these places, and then ends where that is said.
fn walks(alloc: Global, subset: &ArraySubset, places: &[[u64; 2]], ends: bool) -> bool {
    let Ok(mut walk) = subset.indices(alloc) else {
        return false;
    };
    for want in places {
        if !is_next(walk.next(), want) {
            return false;
        }
    }
    !ends || walk.next().is_none()
}

#[test]
fn a_box_walks_its_places_row_major(rt: HostRuntime) -> Result<(), ArraySubsetError> {
    let subset = area(rt.alloc(), &[10, 20], &[2, 2])?;
    let places = [[10, 20], [10, 21], [11, 20], [11, 21]];
    assert!(rt; walks(rt.alloc(), &subset, &places, true));
    Ok(())
}

#[test]
fn a_walk_of_a_large_box_begins_at_once(rt: HostRuntime) -> Result<(), ArraySubsetError> {
    let large = area(rt.alloc(), &[0, 3], &[LAST, LAST - 3])?;
    assert!(rt; walks(rt.alloc(), &large, &[[0, 3]], false));
    Ok(())
}

/// Whether these are the numbers of the places from (1, 1) to (3, 3) in an array of a shape.
fn has_numbers(alloc: Global, shape: &[u64], want: &[u64]) -> Result<bool, ArraySubsetError> {
    let subset = area(alloc, &[1, 1], &[2, 2])?;
    let numbers: Vec<u64> = subset.linearised_indices(shape)?.collect(alloc)?;
    Ok(numbers.as_slice() == want)
}

#[test]
fn a_box_walks_the_numbers_of_its_places(rt: HostRuntime) {
    assert!(rt; has_numbers(rt.alloc(), &[4, 3], &[4, 5, 7, 8]) == Ok(true));
}

/// Numbers, and the places of shapes that have them.
const NUMBERED: [(u64, &[u64], &[u64]); 5] = [
    (5, &[1, 2], &[2, 3]),
    (17, &[1, 1, 1], &[2, 3, 4]),
    (0, &[], &[]),
    (7, &[0, 0, 7], &[LAST, LAST, 9]),
    (LAST, &[4294967295, 4294967295], &[4294967296, 4294967296]),
];

/// Whether a place of a shape has a number, and a number a place.
fn has_number(alloc: Global, number: u64, place: &[u64], shape: &[u64]) -> bool {
    let Ok(found) = unravel_index(alloc, number, shape) else {
        return false;
    };
    are(found, place) && ravel_indices(place, shape) == Some(number)
}

/// The first of these numbers that is not that of its place.
fn first_misnumbered(alloc: Global, rows: &[(u64, &[u64], &[u64])]) -> Option<u64> {
    for (number, place, shape) in rows {
        if !has_number(alloc, *number, place, shape) {
            return Some(*number);
        }
    }
    None
}

#[test]
fn a_place_has_a_row_major_number(rt: HostRuntime) {
    assert!(rt; first_misnumbered(rt.alloc(), &NUMBERED) == None);
}

#[test]
fn a_place_outside_a_shape_has_no_number(rt: HostRuntime) {
    assert!(rt; ravel_indices(&[0, 3], &[2, 3]) == None);
    assert!(rt; ravel_indices(&[1, 1], &[2, LAST]) == None);
    assert!(rt; matches!(unravel_index(rt.alloc(), 6, &[2, 3]), Ok(None)));
}

/// Whether a chunk shape is equal to its copy, and has these sizes.
fn has_sizes(alloc: Global, shape: &ChunkShape, want: &[u64]) -> Result<bool, AllocError> {
    let sizes = chunk_shape_to_array_shape(alloc, shape)?;
    Ok(sizes.as_slice() == want && shape.try_clone(alloc)? == *shape)
}

#[test]
fn a_chunk_shape_is_copied(rt: HostRuntime) -> Result<(), GridError> {
    let shape = edges(rt.alloc(), &[2, 3])?;
    assert!(rt; matches!(has_sizes(rt.alloc(), &shape, &[2, 3]), Ok(true)));
    Ok(())
}

#[test]
fn a_refusal_of_a_box_is_said(rt: HostRuntime) {
    let lengths = "the start and the shape have different lengths";
    let said = says(rt.alloc(), &ArraySubsetError::LengthsDiffer, lengths);
    assert!(rt; matches!(said, Ok(true)));
    let passes = "the box ends past 2^64 - 1";
    let said = says(rt.alloc(), &ArraySubsetError::EndPasses, passes);
    assert!(rt; matches!(said, Ok(true)));
}
