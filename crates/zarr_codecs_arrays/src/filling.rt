//! Elements made of one element.
ghost use Rattle.std.specs.Prelude.{◌≡◌, ◌+◌, ◌*◌, Some, true, false, replicate, map, IfOk};
ghost use Rattle.std.specs.List.{range_with_len};
ghost use Rattle.zarr_codecs_meaning.specs.Payloads as payloads;
ghost use Rattle.zarr_codecs_meaning.specs.Types as types;
ghost use Rattle.zarr_codecs_types.specs.Views.{type_of, cell_of};
ghost use Rattle.zarr_codecs_arrays.specs.Views.{payload_of};

use crate::array_bytes::ArrayBytes;
use crate::fixed::repeated;
use crate::offsets::ArrayBytesOffsets;
use std::alloc::{AllocError, Global};
use zarr_codecs_types::{Cell, DataType};

/// An element of a data type so many times. `Err` where an allocation failed, and for a type whose
/// elements have no bytes: of those no bytes are elements.
pub(crate) fn filled(
    alloc: Global,
    data_type: &DataType,
    cell: &Cell,
    count: usize,
) -> Result<ArrayBytes, AllocError>
    requires { types.is_value (type_of data_type.now) (cell_of cell.now) ≡ true }
    ensures { IfOk result (λ a. payloads.cells_in (type_of data_type.now) (payload_of a)
        ≡ Some (replicate count (cell_of cell.now))) }
{
    match cell {
        Cell::Bytes(element) => {
            if data_type.is_fixed() {
                filled_fixed(alloc, data_type, element.as_slice(), count)
            } else {
                filled_variable(alloc, data_type, element.as_slice(), count)
            }
        }
        Cell::Absent => match data_type {
            DataType::Optional(of_type) => {
                let zero = zero_cell(alloc, of_type)?;
                let inner = filled(alloc, of_type, &zero, count)?;
                masked(alloc, inner, 0, count)
            }
            _ => Err(AllocError),
        },
        Cell::Present(cell) => match data_type {
            DataType::Optional(of_type) => {
                let inner = filled(alloc, of_type, cell, count)?;
                masked(alloc, inner, 1, count)
            }
            _ => Err(AllocError),
        },
    }
}

/// Elements with so many equal numbers of a mask.
fn masked(
    alloc: Global,
    inner: ArrayBytes,
    mark: u8,
    count: usize,
) -> Result<ArrayBytes, AllocError>
    ensures { IfOk result
        (λ a. payload_of a ≡ payloads.optional (payload_of inner) (replicate count mark)) }
{
    let mask = vec![in alloc; mark; count]?;
    Ok(ArrayBytes::Optional(Box::new(alloc, inner)?, mask))
}

/// The element of zero bytes, of no bytes, or absent. `Err` where an allocation failed.
fn zero_cell(alloc: Global, data_type: &DataType) -> Result<Cell, AllocError>
    ensures { IfOk result (λ c. cell_of c ≡ types.zero_cell (type_of data_type.now)) }
{
    match data_type {
        DataType::Optional(_) => Ok(Cell::Absent),
        DataType::String | DataType::Bytes => Ok(Cell::Bytes(Vec::new(alloc))),
        _ => match data_type.byte_width() {
            Some(width) => Ok(Cell::Bytes(vec![in alloc; 0; width]?)),
            None => Err(AllocError),
        },
    }
}

fn filled_fixed(
    alloc: Global,
    data_type: &DataType,
    element: &[u8],
    count: usize,
) -> Result<ArrayBytes, AllocError>
    requires fixed { types.is_fixed (type_of data_type.now) ≡ true }
    requires value { types.is_value (type_of data_type.now) (types.of_bytes element.now) ≡ true }
    ensures { IfOk result (λ a. payloads.cells_in (type_of data_type.now) (payload_of a)
        ≡ Some (replicate count (types.of_bytes element.now))) }
{
    if element.is_empty() {
        return Err(AllocError);
    }
    match repeated(alloc, element, count) {
        Ok(bytes) => Ok(ArrayBytes::Fixed(bytes)),
        Err(e) => Err(e),
    }
}

fn filled_variable(
    alloc: Global,
    data_type: &DataType,
    element: &[u8],
    count: usize,
) -> Result<ArrayBytes, AllocError>
    requires variable { types.is_fixed (type_of data_type.now) ≡ false }
    requires value { types.is_value (type_of data_type.now) (types.of_bytes element.now) ≡ true }
    ensures { IfOk result (λ a. payloads.cells_in (type_of data_type.now) (payload_of a)
        ≡ Some (replicate count (types.of_bytes element.now))) }
{
    let bytes = repeated(alloc, element, count)?;
    let offsets = even_offsets(alloc, element.len(), count)?;
    match ArrayBytesOffsets::new(offsets) {
        Some(offsets) => Ok(ArrayBytes::Variable(bytes, offsets)),
        None => Err(AllocError),
    }
}

/// Where each of so many elements of one size begins, and where the last one ends. `Err` also
/// where that is too large a number.
fn even_offsets(alloc: Global, size: usize, count: usize) -> Result<Vec<u64>, AllocError>
    ensures { IfOk result
        (λ v. v.items ≡ map (λ n. n * size) (range_with_len 0 (count + 1))) }
{
    let mut offsets = Vec::new(alloc);
    let mut end: u64 = 0;
    offsets.push(end)?;
    for _element in 0..count {
        let Some(next) = end.checked_add(size as u64) else {
            return Err(AllocError);
        };
        end = next;
        offsets.push(end)?;
    }
    Ok(offsets)
}
