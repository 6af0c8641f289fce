//! Elements whose marks are 1, alone.
ghost use Rattle.std.specs.Prelude.{◌≡◌, ◌==◌, ℕ, ◌∷◌, List, Some, IfOk, true, flat_map};
ghost use Rattle.std.specs.List.{list_all};
ghost use Rattle.zarr_codecs_meaning.specs.Payloads.{fixed, variable};
ghost use Rattle.zarr_codecs_meaning.specs.Types as types;
ghost use Rattle.zarr_codecs_types.specs.Views.{type_of};
ghost use Rattle.zarr_codecs_arrays.specs.Outcomes.{IsValid};
ghost use Rattle.zarr_codecs_arrays.specs.Views.{payload_of};
ghost use Rattle.zarr_codecs_sections.specs.Marks.{AreMarked, chosen_bytes, count_ones, ends_from, pieces_at};

use crate::masks::count_ones;
use std::alloc::{AllocError, Global};
use zarr_codecs_arrays::{ArrayBytes, ArrayBytesOffsets};
use zarr_codecs_types::DataType;
use zarr_grids_overlay::is_all;

/// The elements whose marks are 1, in their order, of a type that isn't optional; there is a mark
/// for each element. `Err` only where an allocation failed, or these are no such elements.
pub fn choose_elements(
    alloc: Global,
    elements: ArrayBytes,
    data_type: &DataType,
    marks: &[u8],
) -> Result<ArrayBytes, AllocError>
    ensures { (cells : List types.Cell)
        → AreMarked (type_of data_type.now) marks.now cells (payload_of elements)
        → list_all (types.is_value (type_of data_type.now)) cells ≡ true
        → IfOk result (λ made. IsValid (type_of data_type.now) (payload_of made)
        (count_ones marks.now) cells) }
{
    if is_all(marks, 1) {
        return Ok(elements);
    }
    match elements {
        ArrayBytes::Fixed(bytes) => choose_fixed(alloc, bytes.as_slice(), data_type, marks),
        ArrayBytes::Variable(bytes, offsets) => {
            choose_variable(alloc, bytes.as_slice(), offsets.as_slice(), marks)
        }
        ArrayBytes::Optional(_, _) => Err(AllocError),
    }
}

/// Of elements of one size.
fn choose_fixed(
    alloc: Global,
    bytes: &[u8],
    data_type: &DataType,
    marks: &[u8],
) -> Result<ArrayBytes, AllocError>
    ensures { (width : ℕ) → types.byte_width (type_of data_type.now) ≡ Some width
        → IfOk result (λ made. payload_of made ≡ fixed (chosen_bytes width marks.now bytes.now)) }
{
    let found = match data_type.byte_width() {
        Some(1) => chosen_bytes(alloc, 1, bytes, marks)?,
        Some(2) => chosen_bytes(alloc, 2, bytes, marks)?,
        Some(4) => chosen_bytes(alloc, 4, bytes, marks)?,
        Some(8) => chosen_bytes(alloc, 8, bytes, marks)?,
        Some(width) => chosen_bytes(alloc, width, bytes, marks)?,
        None => return Err(AllocError),
    };
    Ok(ArrayBytes::Fixed(found))
}

/// The bytes of those elements of one width whose marks are 1. A caller that knows the width has
/// them copied as numbers.
#[inline(always)]
fn chosen_bytes(
    alloc: Global,
    width: usize,
    bytes: &[u8],
    marks: &[u8],
) -> Result<Vec<u8>, AllocError>
    ensures { IfOk result (λ found. found.items ≡ chosen_bytes width marks.now bytes.now) }
{
    let capacity = width.saturating_mul(count_ones(marks) as usize);
    let mut found = Vec::with_capacity(alloc, capacity)?;
    let mut rest = bytes;
    for mark in marks {
        let Some((element, others)) = rest.split_at_checked(width) else {
            return Err(AllocError);
        };
        if *mark == 1 {
            found.extend_from_slice(element)?;
        }
        rest = others;
    }
    Ok(found)
}

/// Of elements of variable length.
fn choose_variable(
    alloc: Global,
    bytes: &[u8],
    offsets: &[u64],
    marks: &[u8],
) -> Result<ArrayBytes, AllocError>
    ensures { IfOk result (λ made. payload_of made
        ≡ variable (flat_map (λ piece. piece) (pieces_at marks.now offsets.now bytes.now))
        (0 ∷ ends_from 0 (pieces_at marks.now offsets.now bytes.now))) }
{
    let (found, ends) = chosen_pieces(alloc, bytes, offsets, marks)?;
    match ArrayBytesOffsets::new(ends) {
        Some(ends) => Ok(ArrayBytes::Variable(found, ends)),
        None => Err(AllocError),
    }
}

/// The bytes of those elements of variable length whose marks are 1, one after another, and where
/// each begins and the last one ends.
fn chosen_pieces(
    alloc: Global,
    bytes: &[u8],
    offsets: &[u64],
    marks: &[u8],
) -> Result<(Vec<u8>, Vec<u64>), AllocError>
    ensures bytes { IfOk result (λ found. found.0.items
        ≡ flat_map (λ piece. piece) (pieces_at marks.now offsets.now bytes.now)) }
    ensures ends { IfOk result (λ found. found.1.items
        ≡ 0 ∷ ends_from 0 (pieces_at marks.now offsets.now bytes.now)) }
{
    let Some((first, after)) = offsets.split_first() else {
        return Err(AllocError);
    };
    let mut found = Vec::with_capacity(alloc, bytes.len())?;
    let mut ends = Vec::with_capacity(alloc, count_ones(marks).saturating_add(1) as usize)?;
    ends.push(0)?;
    let mut start = *first;
    let mut rest = after;
    for mark in marks {
        let Some((end, others)) = rest.split_first() else {
            return Err(AllocError);
        };
        if *mark == 1 {
            let Some(piece) = bytes.get(start as usize..*end as usize) else {
                return Err(AllocError);
            };
            found.extend_from_slice(piece)?;
            ends.push(found.len() as u64)?;
        }
        start = *end;
        rest = others;
    }
    Ok((found, ends))
}
