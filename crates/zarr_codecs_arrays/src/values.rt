//! Whether elements are values of a data type.
ghost use Rattle.std.specs.Prelude.{◌≡◌, ◌<◌, ◌==◌, ◌||◌, List, Some, true, length, slice_index_or};
ghost use Rattle.std.specs.List.{list_all};
ghost use Rattle.zarr_codecs_meaning.specs.Payloads as payloads;
ghost use Rattle.zarr_codecs_meaning.specs.Types as types;
ghost use Rattle.zarr_codecs_types.specs.Views.{type_of};
ghost use Rattle.zarr_codecs_arrays.specs.Views.{payload_of, numbers_of};

use crate::array_bytes::ArrayBytes;
use crate::fixed::{are_fixed_values, element_at};
use crate::offsets::ArrayBytesOffsets;
use zarr_codecs_types::{DataType, is_value_in_bytes};

/// Whether each of the elements, which are some of a data type's, is a value of it.
pub(crate) fn are_values(elements: &ArrayBytes, data_type: &DataType) -> bool
    ensures { (cells : List types.Cell)
        → payloads.cells_in (type_of data_type.now) (payload_of elements.now) ≡ Some cells
        → result ≡ list_all (types.is_value (type_of data_type.now)) cells }
{
    match elements {
        ArrayBytes::Fixed(bytes) => are_fixed_values(data_type, bytes.as_slice()),
        ArrayBytes::Variable(bytes, offsets) => {
            are_variable_values(data_type, bytes.as_slice(), offsets)
        }
        ArrayBytes::Optional(inner, mask) => match data_type {
            DataType::Optional(of_type) => {
                are_values(inner, of_type) || are_present_values(inner, of_type, mask.as_slice())
            }
            _ => true,
        },
    }
}

/// Whether elements of variable length are values: all bytes are.
fn are_variable_values(data_type: &DataType, bytes: &[u8], offsets: &ArrayBytesOffsets) -> bool
    ensures yes { result ≡ true }
    ensures values { (cells : List types.Cell)
        → payloads.cells_in (type_of data_type.now)
        (payloads.variable bytes.now (numbers_of offsets.now)) ≡ Some cells
        → result ≡ list_all (types.is_value (type_of data_type.now)) cells }
{
    true
}

/// Whether the elements that are present, by a mask, are values of a data type.
fn are_present_values(elements: &ArrayBytes, data_type: &DataType, mask: &[u8]) -> bool
    ensures { (cells all : List types.Cell)
        → payloads.cells_in (type_of data_type.now) (payload_of elements.now) ≡ Some cells
        → payloads.masked_in cells mask.now ≡ Some all
        → result ≡ list_all (types.is_value (types.optional_of (type_of data_type.now))) all }
{
    for index in 0..mask.len() {
        if !is_absent_or_value(elements, data_type, mask[index], index) {
            return false;
        }
    }
    true
}

/// Whether an element, by its index and its number in the mask, is absent, or a value of a data
/// type.
fn is_absent_or_value(elements: &ArrayBytes, data_type: &DataType, mark: u8, index: usize) -> bool
    ensures { (cells : List types.Cell)
        → payloads.cells_in (type_of data_type.now) (payload_of elements.now) ≡ Some cells
        → index < length cells
        → result ≡ (mark == 0 || types.is_value (type_of data_type.now)
        (slice_index_or cells index types.absent)) }
{
    mark == 0 || is_value_at(elements, data_type, index)
}

/// Whether an element, by its index, is a value of a data type.
fn is_value_at(elements: &ArrayBytes, data_type: &DataType, index: usize) -> bool
    ensures { (cells : List types.Cell)
        → payloads.cells_in (type_of data_type.now) (payload_of elements.now) ≡ Some cells
        → index < length cells
        → result
        ≡ types.is_value (type_of data_type.now) (slice_index_or cells index types.absent) }
{
    match elements {
        ArrayBytes::Fixed(bytes) => is_fixed_value_at(data_type, bytes.as_slice(), index),
        ArrayBytes::Variable(bytes, offsets) => {
            are_variable_values(data_type, bytes.as_slice(), offsets)
        }
        ArrayBytes::Optional(inner, mask) => match data_type {
            DataType::Optional(of_type) => {
                is_absent_at(mask.as_slice(), index) || is_value_at(inner, of_type, index)
            }
            _ => true,
        },
    }
}

/// Whether an element of a fixed type, by its index, is a value of it.
fn is_fixed_value_at(data_type: &DataType, bytes: &[u8], index: usize) -> bool
    ensures { (cells : List types.Cell)
        → payloads.cells_in (type_of data_type.now) (payloads.fixed bytes.now) ≡ Some cells
        → index < length cells
        → result
        ≡ types.is_value (type_of data_type.now) (slice_index_or cells index types.absent) }
{
    let Some(width) = data_type.byte_width() else {
        return true;
    };
    match element_at(bytes, width, index) {
        Some(element) => is_value_in_bytes(data_type, element),
        None => true,
    }
}

/// Whether the mask has a zero at an index.
fn is_absent_at(mask: &[u8], index: usize) -> bool
    ensures { result ≡ (slice_index_or mask.now index 1 == 0) }
{
    match mask.get(index) {
        Some(mark) => *mark == 0,
        None => false,
    }
}
