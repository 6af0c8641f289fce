//! Elements printed as JSON.
ghost use Rattle.std.specs.Prelude.{◌≡◌, ◌<◌, ◌++◌, Some, None, length, IfOk, OnErr, MatchOption, option_map};
ghost use Rattle.zarr_codecs_meaning.specs.Payloads as payloads;
ghost use Rattle.zarr_codecs_meaning.specs.Payloads.{cells_in};
ghost use Rattle.zarr_codecs_meaning.specs.Types as types;
ghost use Rattle.zarr_codecs_types.specs.Views.{type_of};
ghost use Rattle.zarr_codecs_arrays.specs.Views.{numbers_of, payload_of};
ghost use Rattle.zarr_codecs_json.specs.Outcomes.{AppendsItems, AreValues, Prints, elements_data, payload_data};
ghost use Rattle.zarr_codecs_json.specs.Texts.{Begins, all_cells, single_width};

use crate::cells::{push_cell, push_variable};
use crate::numbers::{number_width, push_comma, push_list};
use std::alloc::AllocError;
use zarr_codecs_arrays::{ArrayBytes, ArrayBytesOffsets};
use zarr_codecs_types::DataType;

/// What is printed of elements.
#[derive(Clone, Copy, Debug, PartialEq, Eq)]
pub enum Printed {
    /// All of them.
    Whole,
    /// Nothing: they are none of the type's, or one is no value of it or has no text.
    NoText,
}

/// Appends the compact JSON list of elements of a data type, as `[1,2,3]`, `["a","b"]` or
/// `[null,[5]]`. Nothing is appended where they are none of the type's, or where one is no value of
/// it, a string that is not UTF-8, or an element of a caller's type. After an error a part of the
/// list may stand there.
pub fn push_elements(
    text: &mut Vec<u8>,
    data_type: &DataType,
    elements: &ArrayBytes,
) -> Result<Printed, AllocError>
    ensures ok { IfOk result (λ p. Prints (type_of data_type.now) (payload_of elements.now)
        text.old.items text.new.items p) }
    ensures err { OnErr result (Begins text.old.items text.new.items) }
{
    let Some(width) = number_width(data_type) else {
        return push_each(text, data_type, elements);
    };
    let Some(bytes) = value_bytes(data_type, width, elements) else {
        return Ok(Printed::NoText);
    };
    match push_list(text, data_type, bytes) {
        Ok(()) => Ok(Printed::Whole),
        Err(e) => Err(e),
    }
}

/// The bytes of elements, where each is a value of their data type.
fn value_bytes<'a>(data_type: &DataType, width: usize, elements: &'a ArrayBytes) -> Option<&'a [u8]>
    requires positive { 0 < width }
    requires width { single_width (type_of data_type.now) ≡ Some width }
    ensures { MatchOption result
        (payload_data (type_of data_type.now) (payload_of elements.now) ≡ None)
        (λ bytes. AreValues (type_of data_type.now) width (payload_of elements.now) bytes.now) }
{
    let ArrayBytes::Fixed(bytes) = elements else {
        return None;
    };
    let count = bytes.len() / width;
    if elements.validate(data_type, count as u64).is_ok() {
        Some(bytes.as_slice())
    } else {
        None
    }
}

/// Appends the list of elements of any type.
fn push_each(
    text: &mut Vec<u8>,
    data_type: &DataType,
    elements: &ArrayBytes,
) -> Result<Printed, AllocError>
    ensures ok { IfOk result (λ p. Prints (type_of data_type.now) (payload_of elements.now)
        text.old.items text.new.items p) }
    ensures err { OnErr result (Begins text.old.items text.new.items) }
{
    let Some(count) = elements.num_elements(data_type) else {
        return Ok(Printed::NoText);
    };
    let before = text.len();
    text.push(b'[')?;
    if push_items(text, data_type, elements, count)? {
        return Ok(Printed::Whole);
    }
    text.truncate(before);
    Ok(Printed::NoText)
}

/// Appends so many elements with commas between them, and the list's end. False where one has no
/// text; a part of the list may stand there then.
fn push_items(
    text: &mut Vec<u8>,
    data_type: &DataType,
    elements: &ArrayBytes,
    count: usize,
) -> Result<bool, AllocError>
    requires { Some count
        ≡ option_map length (cells_in (type_of data_type.now) (payload_of elements.now)) }
    ensures ok { IfOk result (AppendsItems
        (payload_data (type_of data_type.now) (payload_of elements.now))
        text.old.items text.new.items) }
    ensures err { OnErr result (Begins text.old.items text.new.items) }
{
    match (data_type, elements) {
        (DataType::String, ArrayBytes::Variable(bytes, offsets)) => {
            push_strings(text, bytes.as_slice(), offsets, count)
        }
        _ => push_cells(text, data_type, elements, count),
    }
}

/// As `push_items`, of strings. Compiled for them alone.
fn push_strings(
    text: &mut Vec<u8>,
    bytes: &[u8],
    offsets: &ArrayBytesOffsets,
    count: usize,
) -> Result<bool, AllocError>
    requires { Some count ≡ option_map length (cells_in types.string
        (payloads.variable bytes.now (numbers_of offsets.now))) }
    ensures ok { IfOk result (AppendsItems (payload_data types.string
        (payloads.variable bytes.now (numbers_of offsets.now)))
        text.old.items text.new.items) }
    ensures err { OnErr result (Begins text.old.items text.new.items) }
{
    for index in 0..count {
        let later = index > 0;
        push_comma(text, later)?;
        if !push_variable(text, &DataType::String, bytes, offsets, index)? {
            return Ok(false);
        }
    }
    text.push(b']')?;
    Ok(true)
}

/// As `push_items`, of elements of any type.
fn push_cells(
    text: &mut Vec<u8>,
    data_type: &DataType,
    elements: &ArrayBytes,
    count: usize,
) -> Result<bool, AllocError>
    requires { Some count
        ≡ option_map length (cells_in (type_of data_type.now) (payload_of elements.now)) }
    ensures ok { IfOk result (AppendsItems
        (payload_data (type_of data_type.now) (payload_of elements.now))
        text.old.items text.new.items) }
    ensures err { OnErr result (Begins text.old.items text.new.items) }
{
    for index in 0..count {
        push_comma(text, index > 0)?;
        if !push_cell(text, data_type, elements, index)? {
            return Ok(false);
        }
    }
    text.push(b']')?;
    Ok(true)
}
