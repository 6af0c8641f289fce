//! Elements of one size, one after another in bytes.
ghost use Rattle.std.specs.Prelude.{◌≡◌, ℕ, List, ◌∷◌, ◌||◌, nat_lt, nat_le, ◌-◌, ◌++◌, ◌*◌, ◌/◌, ◌%◌, ◌+◌, ◌<◌, ◌≤◌, Some, None, false, length, take, drop, OnOk, IfOk, MatchOption, option_map, unwrap_or};
ghost use Rattle.std.specs.List.{repeat, list_all};
ghost use Rattle.zarr_codecs_meaning.specs.Payloads.{fixed_in, fixed_cells, cells_in, fixed};
ghost use Rattle.zarr_codecs_meaning.specs.Types as types;
ghost use Rattle.zarr_codecs_types.specs.Views.{type_of};
ghost use Rattle.zarr_codecs_arrays.specs.Values.{takes_all_bytes};

use std::alloc::{AllocError, Global};
use zarr_codecs_types::{DataType, is_value_in_bytes};
use zarr_grids_overlay::is_all;

/// How long a pattern is made before it is copied as a whole.
const PATTERN_LENGTH: usize = 4096;

/// An element so many times, one after another. Equal bytes are filled in at once, others by a
/// pattern of many elements.
pub(crate) fn repeated(alloc: Global, element: &[u8], count: usize) -> Result<Vec<u8>, AllocError>
    ensures { IfOk result (λ v. v.items ≡ repeat count element.now) }
{
    let Some(total) = element.len().checked_mul(count) else {
        return Err(AllocError);
    };
    if element.is_empty() {
        return Ok(Vec::new(alloc));
    }
    if is_all(element, element[0]) {
        vec![in alloc; element[0]; total]
    } else {
        repeated_by_pattern(alloc, element, count, total)
    }
}

/// An element so many times, in so many bytes of memory.
fn repeated_by_pattern(
    alloc: Global,
    element: &[u8],
    count: usize,
    total: usize,
) -> Result<Vec<u8>, AllocError>
    requires { 0 < length element.now }
    ensures { IfOk result (λ v. v.items ≡ repeat count element.now) }
{
    let run = (PATTERN_LENGTH / element.len()).min(count).max(1);
    let mut pattern = Vec::new(alloc);
    push_copies(&mut pattern, element, run)?;
    let mut bytes = Vec::with_capacity(alloc, total)?;
    push_copies(&mut bytes, pattern.as_slice(), count / run)?;
    push_copies(&mut bytes, element, count % run)?;
    Ok(bytes)
}

/// Appends a piece so many times.
fn push_copies(bytes: &mut Vec<u8>, piece: &[u8], count: usize) -> Result<(), AllocError>
    ensures { OnOk result (bytes.new.items ≡ bytes.old.items ++ repeat count piece.now) }
{
    for _copy in 0..count {
        bytes.extend_from_slice(piece)?;
    }
    Ok(())
}

/// Whether bytes are an element any number of times: they begin with it, and are the same when
/// shifted by it. False for an element of no bytes, since no bytes are elements of that size.
pub(crate) fn are_copies(bytes: &[u8], element: &[u8]) -> bool
    ensures { result ≡ unwrap_or (option_map (types.is_fill (types.of_bytes element.now))
        (fixed_in (length element.now) bytes.now)) false }
{
    let width = element.len();
    if width == 0 || bytes.len() % width != 0 {
        return false;
    }
    if bytes.is_empty() {
        return true;
    }
    let (first, others) = bytes.split_at(width);
    first == element && others == &bytes[..bytes.len() - width]
}

/// How many elements of a fixed type bytes are. `None` where they are not whole elements, and for
/// another type.
pub(crate) fn fixed_count(data_type: &DataType, bytes: &[u8]) -> Option<usize>
    ensures { result ≡ option_map length (cells_in (type_of data_type.now) (fixed bytes.now)) }
{
    if !data_type.is_fixed() {
        return None;
    }
    match data_type.byte_width() {
        Some(width) => {
            if width != 0 && bytes.len() % width == 0 {
                Some(bytes.len() / width)
            } else {
                None
            }
        }
        None => { if bytes.is_empty() { Some(0) } else { None } }
    }
}

/// The bytes of an element of so many bytes by its index, where there is one.
pub(crate) fn element_at(bytes: &[u8], width: usize, index: usize) -> Option<&[u8]>
    ensures { MatchOption result (length bytes.now < index * width + width)
        (λ element. element.now ≡ take width (drop (index * width) bytes.now)) }
{
    let start = index.checked_mul(width)?;
    let end = start.checked_add(width)?;
    bytes.get(start..end)
}

/// Whether each of the elements that bytes are is a value of their fixed type. Of types of which
/// all bytes are values no byte is looked at.
pub(crate) fn are_fixed_values(data_type: &DataType, bytes: &[u8]) -> bool
    ensures { (cells : List types.Cell)
        → cells_in (type_of data_type.now) (fixed bytes.now) ≡ Some cells
        → result ≡ list_all (types.is_value (type_of data_type.now)) cells }
{
    match data_type.byte_width() {
        Some(width) => {
            if width == 0 {
                return true;
            }
            if bytes.len() % width != 0 {
                return true;
            }
            if takes_all_bytes(data_type) {
                return true;
            }
            are_whole_values(data_type, width, bytes)
        }
        None => true,
    }
}

/// Whether any bytes of the right number are a value of a data type.
pub fn takes_all_bytes(data_type: &DataType) -> bool
    ensures { result ≡ takes_all_bytes (type_of data_type.now) }
{
    match data_type {
        DataType::Bool | DataType::Int2 | DataType::Int4 | DataType::UInt2 | DataType::UInt4 => {
            false
        }
        DataType::Optional(_) | DataType::Custom(_) => false,
        _ => true,
    }
}

/// Whether the elements of so many bytes each are values of a data type.
fn are_whole_values(data_type: &DataType, width: usize, bytes: &[u8]) -> bool
    requires positive { 0 < width }
    requires width { types.byte_width (type_of data_type.now) ≡ Some width }
    requires whole { length bytes.now % width ≡ 0 }
    ensures { result
        ≡ list_all (types.is_value (type_of data_type.now)) (fixed_cells width bytes.now) }
{
    match data_type {
        DataType::Bool => are_below(bytes, 2),
        DataType::UInt2 => are_below(bytes, 4),
        DataType::UInt4 => are_below(bytes, 16),
        DataType::Int2 => are_near_zero(bytes, 2),
        DataType::Int4 => are_near_zero(bytes, 8),
        _ => are_each_values(data_type, width, bytes),
    }
}

/// Whether each byte is less than a bound.
pub(crate) fn are_below(bytes: &[u8], bound: u8) -> bool
    ensures { result ≡ list_all (λ b. nat_lt b bound) bytes.now }
{
    match bytes.split_first() {
        Some((first, others)) => highest(*first, others) < bound,
        None => true,
    }
}

/// The highest of a byte and others. All are looked at, so that a processor can take many at once.
fn highest(first: u8, bytes: &[u8]) -> u8
    ensures { (bound : ℕ) → list_all (λ b. nat_lt b bound) (first ∷ bytes.now)
        ≡ nat_lt result bound }
{
    let mut highest = first;
    for byte in bytes {
        highest = highest.max(*byte);
    }
    highest
}

/// Whether each byte, as a signed number, is from a bound below zero to less than the bound.
fn are_near_zero(bytes: &[u8], bound: u8) -> bool
    ensures { result ≡ list_all (λ b. nat_lt b bound || nat_le (256 - bound) b) bytes.now }
{
    bytes
        .iter()
        .all(|byte| *byte < bound || *byte > 255 - bound)
}

/// Whether the elements of so many bytes each are values of a data type, one after another.
fn are_each_values(data_type: &DataType, width: usize, bytes: &[u8]) -> bool
    requires { 0 < width }
    ensures { result
        ≡ list_all (types.is_value (type_of data_type.now)) (fixed_cells width bytes.now) }
{
    let mut rest = bytes;
    while rest.len() >= width {
        let (element, others) = rest.split_at(width);
        if !is_value_in_bytes(data_type, element) {
            return false;
        }
        rest = others;
    }
    true
}
