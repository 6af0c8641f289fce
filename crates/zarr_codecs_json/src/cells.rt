//! The texts of elements, one by one.
ghost use Rattle.std.specs.Prelude.{◌≡◌, ℕ, ◌≤◌, ◌<◌, ◌*◌, ◌+◌, ◌++◌, Some, None, IfOk, OnOk, OnErr, length, slice_index_or};
ghost use Rattle.serde_json.specs.Data.{array};
ghost use Rattle.serde_json.specs.Written.{compact_text};
ghost use Rattle.zarr_codecs_meaning.specs.Payloads as payloads;
ghost use Rattle.zarr_codecs_meaning.specs.Types as types;
ghost use Rattle.zarr_codecs_types.specs.FillMetadata.{byte_items, bytes_data, cell_data};
ghost use Rattle.zarr_codecs_types.specs.Views.{type_of};
ghost use Rattle.zarr_codecs_arrays.specs.Views.{payload_of, numbers_of};
ghost use Rattle.zarr_codecs_json.specs.Texts.{Appends, Begins, all_cells, element_data, single_width};

use crate::numbers::{Kind, number_width, push_element, push_numbers};
use crate::strings::push_string;
use std::alloc::AllocError;
use zarr_codecs_arrays::{ArrayBytes, ArrayBytesOffsets};
use zarr_codecs_types::{DataType, is_value_in_bytes};

/// Appends the text of an element, by its index. False where it has none; a part of a text may
/// stand there then.
#[cycle(push_cell)]
pub(crate) fn push_cell(
    text: &mut Vec<u8>,
    data_type: &DataType,
    elements: &ArrayBytes,
    index: usize,
) -> Result<bool, AllocError>
    requires { index < length (all_cells (type_of data_type.now) (payload_of elements.now)) }
    ensures ok { IfOk result (Appends (cell_data (type_of data_type.now)
        (slice_index_or (all_cells (type_of data_type.now) (payload_of elements.now)) index
        types.absent)) text.old.items text.new.items) }
    ensures err { OnErr result (Begins text.old.items text.new.items) }
{
    match elements {
        ArrayBytes::Fixed(bytes) => push_fixed(text, data_type, bytes.as_slice(), index),
        ArrayBytes::Variable(bytes, offsets) => {
            push_variable(text, data_type, bytes.as_slice(), offsets, index)
        }
        ArrayBytes::Optional(inner, mask) => match data_type {
            DataType::Optional(of_type) => {
                push_optional(text, of_type, inner, mask.as_slice(), index)
            }
            _ => Ok(false),
        },
    }
}

/// Appends the text of an element of an optional type.
#[cycle(push_cell)]
fn push_optional(
    text: &mut Vec<u8>,
    of_type: &DataType,
    inner: &ArrayBytes,
    mask: &[u8],
    index: usize,
) -> Result<bool, AllocError>
    requires { index < length (all_cells (types.optional_of (type_of of_type.now))
        (payloads.optional (payload_of inner.now) mask.now)) }
    ensures ok { IfOk result (Appends (cell_data (types.optional_of (type_of of_type.now))
        (slice_index_or (all_cells (types.optional_of (type_of of_type.now))
        (payloads.optional (payload_of inner.now) mask.now)) index types.absent))
        text.old.items text.new.items) }
    ensures err { OnErr result (Begins text.old.items text.new.items) }
{
    if mask[index] == 0 {
        return push_null(text);
    }
    text.push(b'[')?;
    if !push_cell(text, of_type, inner, index)? {
        return Ok(false);
    }
    text.push(b']')?;
    Ok(true)
}

fn push_null(text: &mut Vec<u8>) -> Result<bool, AllocError>
    ensures ok { (inner : types.DataType) → IfOk result
        (Appends (cell_data (types.optional_of inner) types.absent)
        text.old.items text.new.items) }
    ensures err { OnErr result (Begins text.old.items text.new.items) }
{
    text.extend_from_slice(b"null")?;
    Ok(true)
}

/// Appends the text of an element of one size.
fn push_fixed(
    text: &mut Vec<u8>,
    data_type: &DataType,
    bytes: &[u8],
    index: usize,
) -> Result<bool, AllocError>
    requires { index < length (all_cells (type_of data_type.now) (payloads.fixed bytes.now)) }
    ensures ok { IfOk result (Appends (cell_data (type_of data_type.now)
        (slice_index_or (all_cells (type_of data_type.now) (payloads.fixed bytes.now)) index
        types.absent)) text.old.items text.new.items) }
    ensures err { OnErr result (Begins text.old.items text.new.items) }
{
    let Some(width) = number_width(data_type) else {
        return Ok(false);
    };
    let start = index * width;
    push_value(text, data_type, &bytes[start..start + width])
}

/// Appends the text of an element of variable length.
#[inline(always)]
pub(crate) fn push_variable(
    text: &mut Vec<u8>,
    data_type: &DataType,
    bytes: &[u8],
    offsets: &ArrayBytesOffsets,
    index: usize,
) -> Result<bool, AllocError>
    requires { index < length (all_cells (type_of data_type.now)
        (payloads.variable bytes.now (numbers_of offsets.now))) }
    ensures ok { IfOk result (Appends (cell_data (type_of data_type.now)
        (slice_index_or (all_cells (type_of data_type.now)
        (payloads.variable bytes.now (numbers_of offsets.now))) index types.absent))
        text.old.items text.new.items) }
    ensures err { OnErr result (Begins text.old.items text.new.items) }
{
    let offsets = offsets.as_slice();
    let start = offsets[index] as usize;
    let end = offsets[index + 1] as usize;
    push_value(text, data_type, &bytes[start..end])
}

/// Appends the text of an element that is given by its bytes.
#[inline(always)]
fn push_value(text: &mut Vec<u8>, data_type: &DataType, bytes: &[u8]) -> Result<bool, AllocError>
    ensures ok { IfOk result (Appends (cell_data (type_of data_type.now)
        (types.of_bytes bytes.now)) text.old.items text.new.items) }
    ensures err { OnErr result (Begins text.old.items text.new.items) }
{
    if !is_value_in_bytes(data_type, bytes) {
        return Ok(false);
    }
    match number_width(data_type) {
        Some(_) => {
            push_number(text, data_type, bytes)?;
            Ok(true)
        }
        None => push_other(text, data_type, bytes),
    }
}

/// Appends the text of a string or of bytes.
#[inline(always)]
fn push_other(text: &mut Vec<u8>, data_type: &DataType, bytes: &[u8]) -> Result<bool, AllocError>
    requires { single_width (type_of data_type.now) ≡ None }
    ensures ok { IfOk result (Appends (bytes_data (type_of data_type.now) bytes.now)
        text.old.items text.new.items) }
    ensures err { OnErr result (Begins text.old.items text.new.items) }
{
    match data_type {
        DataType::String => push_string(text, bytes),
        DataType::Bytes => push_byte_list(text, bytes),
        _ => Ok(false),
    }
}

/// Appends the text of a boolean or an integer.
fn push_number(text: &mut Vec<u8>, data_type: &DataType, bytes: &[u8]) -> Result<(), AllocError>
    requires { length bytes.now ≤ 8 }
    ensures ok { (width : ℕ) → single_width (type_of data_type.now) ≡ Some width
        → OnOk result (text.new.items ≡ text.old.items
        ++ compact_text (element_data (type_of data_type.now) bytes.now)) }
    ensures err { OnErr result (Begins text.old.items text.new.items) }
{
    match data_type {
        DataType::Bool => push_element(text, false, Kind::Bool, 1, bytes),
        DataType::Int2 => push_element(text, false, Kind::Signed, 2, bytes),
        DataType::Int4 => push_element(text, false, Kind::Signed, 4, bytes),
        DataType::Int8 => push_element(text, false, Kind::Signed, 8, bytes),
        DataType::Int16 => push_element(text, false, Kind::Signed, 16, bytes),
        DataType::Int32 => push_element(text, false, Kind::Signed, 32, bytes),
        DataType::Int64 => push_element(text, false, Kind::Signed, 64, bytes),
        DataType::UInt2 => push_element(text, false, Kind::Unsigned, 2, bytes),
        DataType::UInt4 => push_element(text, false, Kind::Unsigned, 4, bytes),
        DataType::UInt8 => push_element(text, false, Kind::Unsigned, 8, bytes),
        DataType::UInt16 => push_element(text, false, Kind::Unsigned, 16, bytes),
        DataType::UInt32 => push_element(text, false, Kind::Unsigned, 32, bytes),
        DataType::UInt64 => push_element(text, false, Kind::Unsigned, 64, bytes),
        _ => Ok(()),
    }
}

/// Appends a list of bytes.
fn push_byte_list(text: &mut Vec<u8>, bytes: &[u8]) -> Result<bool, AllocError>
    ensures ok { IfOk result
        (Appends (bytes_data types.variable_bytes bytes.now) text.old.items text.new.items) }
    ensures err { OnErr result (Begins text.old.items text.new.items) }
{
    text.push(b'[')?;
    push_numbers(text, Kind::Unsigned, 8, bytes)?;
    Ok(true)
}
