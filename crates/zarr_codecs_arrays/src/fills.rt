//! Elements that are all one element.
ghost use Rattle.std.specs.Prelude.{◌≡◌, ◌-◌, ◌&&◌, List, Option, Some, true, false, nat_le, length, take, drop, replicate, bytes_eq, IfOk, option_map, option_and_then, unwrap_or};
ghost use Rattle.zarr_codecs_meaning.specs.Payloads as payloads;
ghost use Rattle.zarr_codecs_meaning.specs.Types as types;
ghost use Rattle.zarr_codecs_types.specs.Views.{type_of, cell_of};
ghost use Rattle.zarr_codecs_arrays.specs.Views.{payload_of};

use crate::array_bytes::ArrayBytes;
use crate::counting::counted;
use crate::fixed::are_copies;
use zarr_codecs_types::{Cell, DataType};
use zarr_grids_overlay::is_all;

/// Whether elements are some of a data type's, and each is an element, which is a value of it.
pub(crate) fn are_all(elements: &ArrayBytes, data_type: &DataType, cell: &Cell) -> bool
    requires { types.is_value (type_of data_type.now) (cell_of cell.now) ≡ true }
    ensures { result ≡ unwrap_or (option_map (types.is_fill (cell_of cell.now))
        (payloads.cells_in (type_of data_type.now) (payload_of elements.now))) false }
{
    match elements {
        ArrayBytes::Fixed(bytes) => are_all_fixed(bytes.as_slice(), data_type, cell),
        ArrayBytes::Variable(bytes, offsets) => {
            are_all_variable(bytes.as_slice(), offsets.as_slice(), data_type, cell)
        }
        ArrayBytes::Optional(inner, mask) => match data_type {
            DataType::Optional(of_type) => match cell {
                Cell::Bytes(_) => false,
                Cell::Absent => are_all_absent(counted(inner, of_type), mask.as_slice()),
                Cell::Present(cell) => {
                    let below = are_all(inner, of_type, cell);
                    are_all_present(counted(inner, of_type), below, mask.as_slice())
                }
            },
            _ => false,
        },
    }
}

fn are_all_fixed(bytes: &[u8], data_type: &DataType, cell: &Cell) -> bool
    requires { types.is_value (type_of data_type.now) (cell_of cell.now) ≡ true }
    ensures { result ≡ unwrap_or (option_map (types.is_fill (cell_of cell.now))
        (payloads.cells_in (type_of data_type.now) (payloads.fixed bytes.now))) false }
{
    if !data_type.is_fixed() {
        return false;
    }
    match cell {
        Cell::Bytes(element) => are_copies(bytes, element.as_slice()),
        _ => false,
    }
}

fn are_all_variable(bytes: &[u8], offsets: &[u64], data_type: &DataType, cell: &Cell) -> bool
    requires { types.is_value (type_of data_type.now) (cell_of cell.now) ≡ true }
    ensures { result ≡ unwrap_or (option_map (types.is_fill (cell_of cell.now))
        (payloads.cells_in (type_of data_type.now)
        (payloads.variable bytes.now offsets.now))) false }
{
    if !data_type.is_variable() {
        return false;
    }
    match cell {
        Cell::Bytes(element) => are_copies_between(bytes, offsets, element.as_slice()),
        _ => false,
    }
}

/// Whether the bytes from each offset to the next are an element.
fn are_copies_between(bytes: &[u8], offsets: &[u64], element: &[u8]) -> bool
    ensures { result ≡ unwrap_or (option_map (types.is_fill (types.of_bytes element.now))
        (payloads.variable_in offsets.now bytes.now)) false }
{
    let Some((first, ends)) = offsets.split_first() else {
        return false;
    };
    let mut start = *first;
    for end in ends {
        if !is_between(bytes, start, *end, element) {
            return false;
        }
        start = *end;
    }
    start == bytes.len() as u64
}

/// Whether the bytes from one offset to another, where they are in order and within the bytes, are
/// an element.
fn is_between(bytes: &[u8], start: u64, end: u64, element: &[u8]) -> bool
    ensures { result ≡ (nat_le start end && (nat_le end (length bytes.now)
        && bytes_eq (take (end - start) (drop start bytes.now)) element.now)) }
{
    if start > end {
        return false;
    }
    if end > bytes.len() as u64 {
        return false;
    }
    &bytes[start as usize..end as usize] == element
}

/// Whether none of so many elements, of which a mask says whether they are present, is.
fn are_all_absent(count: Option<usize>, mask: &[u8]) -> bool
    ensures { (below : Option (List types.Cell)) → count ≡ option_map length below → result
        ≡ unwrap_or (option_map (types.is_fill types.absent)
        (option_and_then (λ cells. payloads.masked_in cells mask.now) below)) false }
{
    match count {
        Some(count) => {
            if count != mask.len() {
                return false;
            }
            is_all(mask, 0)
        }
        None => false,
    }
}

/// Whether each of so many elements is present and an element, where it is known whether those
/// below the mask are.
fn are_all_present(count: Option<usize>, below: bool, mask: &[u8]) -> bool
    ensures { (cell : types.Cell) (elements : Option (List types.Cell))
        → count ≡ option_map length elements
        → below ≡ unwrap_or (option_map (types.is_fill cell) elements) false
        → result ≡ unwrap_or (option_map (types.is_fill (types.present cell))
        (option_and_then (λ cells. payloads.masked_in cells mask.now) elements)) false }
{
    match count {
        Some(count) => {
            if count != mask.len() {
                return false;
            }
            if !is_all(mask, 1) {
                return false;
            }
            below
        }
        None => false,
    }
}
