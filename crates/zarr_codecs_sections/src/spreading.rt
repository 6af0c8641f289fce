//! Elements spread to where marks are 1.
ghost use Rattle.std.specs.Prelude.{◌≡◌, ℕ, List, Some, length, IfOk};
ghost use Rattle.zarr_codecs_meaning.specs.Keeping.{spread};
ghost use Rattle.zarr_codecs_meaning.specs.Payloads.{cells_in, fixed, variable};
ghost use Rattle.zarr_codecs_meaning.specs.Types as types;
ghost use Rattle.zarr_codecs_types.specs.Views.{type_of};
ghost use Rattle.zarr_codecs_arrays.specs.Views.{payload_of};
ghost use Rattle.zarr_codecs_sections.specs.Marks.{AreMarked, IsMask, IsSpreadMask, count_ones, spread_bytes, spread_offsets};

use std::alloc::{AllocError, Global};
use zarr_codecs_arrays::{ArrayBytes, ArrayBytesOffsets};
use zarr_codecs_types::DataType;
use zarr_grids_overlay::is_all;

/// An element for each mark: where it is 1 the next of some elements, as many as there are ones, of
/// a type that isn't optional, and else zero or no bytes. `Err` only where an allocation failed, or
/// these are no such elements.
pub fn spread_elements(
    alloc: Global,
    elements: ArrayBytes,
    data_type: &DataType,
    marks: &[u8],
) -> Result<ArrayBytes, AllocError>
    ensures { (cells : List types.Cell)
        → cells_in (type_of data_type.now) (payload_of elements) ≡ Some cells
        → length cells ≡ count_ones marks.now
        → IfOk result
        (λ made. AreMarked (type_of data_type.now) marks.now cells (payload_of made)) }
{
    if is_all(marks, 1) {
        return Ok(elements);
    }
    match elements {
        ArrayBytes::Fixed(bytes) => spread_fixed(alloc, bytes.as_slice(), data_type, marks),
        ArrayBytes::Variable(bytes, offsets) => {
            spread_variable(alloc, bytes, offsets.as_slice(), marks)
        }
        ArrayBytes::Optional(_, _) => Err(AllocError),
    }
}

/// Elements of one size.
fn spread_fixed(
    alloc: Global,
    bytes: &[u8],
    data_type: &DataType,
    marks: &[u8],
) -> Result<ArrayBytes, AllocError>
    ensures { (width : ℕ) → types.byte_width (type_of data_type.now) ≡ Some width
        → IfOk result (λ made. payload_of made ≡ fixed (spread_bytes width marks.now bytes.now)) }
{
    let spread = match data_type.byte_width() {
        Some(1) => spread_bytes(alloc, 1, bytes, marks)?,
        Some(2) => spread_bytes(alloc, 2, bytes, marks)?,
        Some(4) => spread_bytes(alloc, 4, bytes, marks)?,
        Some(8) => spread_bytes(alloc, 8, bytes, marks)?,
        Some(width) => spread_bytes(alloc, width, bytes, marks)?,
        None => return Err(AllocError),
    };
    Ok(ArrayBytes::Fixed(spread))
}

/// For each mark that is 1 the bytes of the next element of one width, and zeros for each that
/// isn't. A caller that knows the width has them copied as numbers.
#[inline(always)]
fn spread_bytes(
    alloc: Global,
    width: usize,
    bytes: &[u8],
    marks: &[u8],
) -> Result<Vec<u8>, AllocError>
    ensures { IfOk result (λ spread. spread.items ≡ spread_bytes width marks.now bytes.now) }
{
    let zeros = vec![in alloc; 0u8; width]?;
    let mut spread = Vec::with_capacity(alloc, width.saturating_mul(marks.len()))?;
    let mut rest = bytes;
    for mark in marks {
        if *mark != 1 {
            spread.extend_from_slice(zeros.as_slice())?;
            continue;
        }
        let Some((element, others)) = rest.split_at_checked(width) else {
            return Err(AllocError);
        };
        spread.extend_from_slice(element)?;
        rest = others;
    }
    Ok(spread)
}

/// Elements of variable length.
fn spread_variable(
    alloc: Global,
    bytes: Vec<u8>,
    offsets: &[u64],
    marks: &[u8],
) -> Result<ArrayBytes, AllocError>
    ensures { IfOk result (λ made. payload_of made
        ≡ variable bytes.items (spread_offsets marks.now offsets.now)) }
{
    match ArrayBytesOffsets::new(spread_offsets(alloc, offsets, marks)?) {
        Some(offsets) => Ok(ArrayBytes::Variable(bytes, offsets)),
        None => Err(AllocError),
    }
}

/// For each mark that is 1 the next offset, and for each that isn't the one before again.
fn spread_offsets(alloc: Global, offsets: &[u64], marks: &[u8]) -> Result<Vec<u64>, AllocError>
    ensures { IfOk result (λ spread. spread.items ≡ spread_offsets marks.now offsets.now) }
{
    let Some((first, ends)) = offsets.split_first() else {
        return Err(AllocError);
    };
    let mut spread = Vec::with_capacity(alloc, marks.len().saturating_add(1))?;
    spread.push(*first)?;
    let mut start = *first;
    let mut rest = ends;
    for mark in marks {
        if *mark == 1 {
            let Some((end, others)) = rest.split_first() else {
                return Err(AllocError);
            };
            start = *end;
            rest = others;
        }
        spread.push(start)?;
    }
    Ok(spread)
}

/// Elements of an optional type, from those below, one for each mark, of which those are present
/// whose marks are 1. `Err` only where an allocation failed.
pub fn mask_elements(
    alloc: Global,
    below: ArrayBytes,
    marks: Vec<u8>,
) -> Result<ArrayBytes, AllocError>
    ensures all { (inner : types.DataType) (masks found : List types.Cell)
        → AreMarked inner marks.items found (payload_of below) → IsMask masks marks.items
        → IfOk result (λ made. cells_in (types.optional_of inner) (payload_of made)
        ≡ Some (spread masks found)) }
    ensures chosen { (inner : types.DataType) (outer : List ℕ) (masks found : List types.Cell)
        → AreMarked inner marks.items found (payload_of below)
        → IsSpreadMask outer masks marks.items → length masks ≡ count_ones outer
        → IfOk result (λ made. AreMarked (types.optional_of inner) outer (spread masks found)
        (payload_of made)) }
{
    Ok(ArrayBytes::Optional(Box::new(alloc, below)?, marks))
}
