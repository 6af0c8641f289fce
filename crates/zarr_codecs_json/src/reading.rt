//! Elements as JSON says them.
ghost use Rattle.std.specs.Prelude.{◌≡◌, ◌≤◌, ◌<◌, List, None, true, IfOk, IfSome, IfNone, option_map};
ghost use Rattle.serde_json.specs.View.{items_view};
ghost use Rattle.zarr_codecs_meaning.specs.Payloads.{fixed, variable};
ghost use Rattle.zarr_codecs_meaning.specs.Types as types;
ghost use Rattle.zarr_codecs_types.specs.Given.{elements_in};
ghost use Rattle.zarr_codecs_types.specs.Views.{type_of, sign_of};
ghost use Rattle.zarr_codecs_arrays.specs.Offsets.{are_rising};
ghost use Rattle.zarr_codecs_arrays.specs.Views.{payload_of};
ghost use Rattle.zarr_codecs_json.specs.Inside.{cell_inside, mark_inside, said};
ghost use Rattle.zarr_codecs_json.specs.Outcomes.{AppendsBytes, AreGiven, AreInside};

use crate::inside::{
    bool_inside, byte_in, integer_inside, is_absent, list_inside, mark_inside, text_inside,
};
use serde_json::Value;
use std::alloc::{AllocError, Global};
use zarr_codecs_arrays::{ArrayBytes, ArrayBytesOffsets};
use zarr_codecs_types::{DataType, Sign};

/// The elements of a data type that JSON values say: `true` or `false`; integers in the type's
/// range, which a float never is; texts; for `bytes` lists of numbers below 256; for an optional
/// type null, or a list of one element of the inner type. `None` where a value says no element.
/// `Err` only where an allocation failed, and for a caller's type whose elements have no bytes.
pub fn elements_in(
    alloc: Global,
    data_type: &DataType,
    values: &[Value],
) -> Result<Option<ArrayBytes>, AllocError>
    ensures some { IfOk result (λ o. IfSome o
        (λ a. AreGiven (type_of data_type.now) (items_view values.now) (payload_of a))) }
    ensures none { IfOk result (λ o. IfNone o
        (elements_in (type_of data_type.now) (items_view values.now) ≡ None)) }
{
    elements_inside(alloc, data_type, 0, values)
}

/// The elements that values say inside of so many optional types, and a zero where nothing stands.
#[cycle(elements_inside)]
fn elements_inside(
    alloc: Global,
    data_type: &DataType,
    levels: usize,
    values: &[Value],
) -> Result<Option<ArrayBytes>, AllocError>
    ensures some { IfOk result (λ o. IfSome o (λ a.
        AreInside (type_of data_type.now) levels (items_view values.now) (payload_of a))) }
    ensures none { IfOk result (λ o. IfNone o
        (said (cell_inside (type_of data_type.now) levels) (items_view values.now) ≡ None)) }
{
    match data_type {
        DataType::String => texts(alloc, levels, values),
        DataType::Bytes => byte_lists(alloc, levels, values),
        DataType::Optional(of_type) => optional_inside(alloc, of_type, levels, values),
        _ => match fixed_inside(alloc, data_type, levels, values)? {
            Some(bytes) => Ok(Some(ArrayBytes::Fixed(bytes))),
            None => Ok(None),
        },
    }
}

/// The elements of an optional type: those of the inner type, and the mask.
#[cycle(elements_inside)]
fn optional_inside(
    alloc: Global,
    of_type: &DataType,
    levels: usize,
    values: &[Value],
) -> Result<Option<ArrayBytes>, AllocError>
    ensures some { IfOk result (λ o. IfSome o (λ a. AreInside
        (types.optional_of (type_of of_type.now)) levels (items_view values.now) (payload_of a))) }
    ensures none { IfOk result (λ o. IfNone o
        (said (cell_inside (types.optional_of (type_of of_type.now)) levels)
        (items_view values.now) ≡ None)) }
{
    let Some(deeper) = levels.checked_add(1) else {
        return Err(AllocError);
    };
    let Some(mask) = marks(alloc, deeper, values)? else {
        return Ok(None);
    };
    match elements_inside(alloc, of_type, deeper, values)? {
        Some(inner) => Ok(Some(ArrayBytes::Optional(Box::new(alloc, inner)?, mask))),
        None => Ok(None),
    }
}

/// The bytes of elements of one size. `None` where a value says none.
fn fixed_inside(
    alloc: Global,
    data_type: &DataType,
    levels: usize,
    values: &[Value],
) -> Result<Option<Vec<u8>>, AllocError>
    ensures some { types.is_fixed (type_of data_type.now) ≡ true → IfOk result
        (λ o. IfSome o (λ v. AreInside (type_of data_type.now) levels (items_view values.now)
        (fixed v.items))) }
    ensures none { types.is_fixed (type_of data_type.now) ≡ true → IfOk result
        (λ o. IfNone o (said (cell_inside (type_of data_type.now) levels)
        (items_view values.now) ≡ None)) }
{
    match data_type {
        DataType::Bool => bools(alloc, levels, values),
        DataType::Int2 => integers(alloc, Sign::Signed, 2, levels, values),
        DataType::Int4 => integers(alloc, Sign::Signed, 4, levels, values),
        DataType::Int8 => integers(alloc, Sign::Signed, 8, levels, values),
        DataType::Int16 => integers(alloc, Sign::Signed, 16, levels, values),
        DataType::Int32 => integers(alloc, Sign::Signed, 32, levels, values),
        DataType::Int64 => integers(alloc, Sign::Signed, 64, levels, values),
        DataType::UInt2 => integers(alloc, Sign::Unsigned, 2, levels, values),
        DataType::UInt4 => integers(alloc, Sign::Unsigned, 4, levels, values),
        DataType::UInt8 => integers(alloc, Sign::Unsigned, 8, levels, values),
        DataType::UInt16 => integers(alloc, Sign::Unsigned, 16, levels, values),
        DataType::UInt32 => integers(alloc, Sign::Unsigned, 32, levels, values),
        DataType::UInt64 => integers(alloc, Sign::Unsigned, 64, levels, values),
        DataType::Custom(_) => zeros(alloc, data_type, levels, values),
        _ => Ok(None),
    }
}

/// The bytes of booleans. `None` where a value says none.
fn bools(alloc: Global, levels: usize, values: &[Value]) -> Result<Option<Vec<u8>>, AllocError>
    ensures some { IfOk result (λ o. IfSome o
        (λ v. AreInside types.bool levels (items_view values.now) (fixed v.items))) }
    ensures none { IfOk result (λ o. IfNone o
        (said (cell_inside types.bool levels) (items_view values.now) ≡ None)) }
{
    let mut bytes = Vec::with_capacity(alloc, values.len())?;
    for value in values {
        let Some(flag) = bool_inside(value, levels) else {
            return Ok(None);
        };
        bytes.push(flag as u8)?;
    }
    Ok(Some(bytes))
}

/// The bytes of integers of so many bits, little endian. `None` where a value says none in range.
/// Compiled for each type of its own.
#[inline(always)]
fn integers(
    alloc: Global,
    sign: Sign,
    width: usize,
    levels: usize,
    values: &[Value],
) -> Result<Option<Vec<u8>>, AllocError>
    requires some { 0 < width }
    requires narrow { width ≤ 64 }
    ensures some { IfOk result (λ o. IfSome o
        (λ v. AreInside (types.integer (sign_of sign) width) levels (items_view values.now)
        (fixed v.items))) }
    ensures none { IfOk result (λ o. IfNone o
        (said (cell_inside (types.integer (sign_of sign) width) levels) (items_view values.now)
        ≡ None)) }
{
    let count = (width + 7) / 8;
    let Some(total) = values.len().checked_mul(count) else {
        return Err(AllocError);
    };
    let mut bytes = Vec::with_capacity(alloc, total)?;
    for value in values {
        let Some(integer) = integer_inside(sign, width, value, levels) else {
            return Ok(None);
        };
        let word = integer.to_le_bytes();
        bytes.extend_from_slice(&word[..count])?;
    }
    Ok(Some(bytes))
}

/// The bytes of elements of a caller's type, which no value says: zeros where nothing stands. `Err`
/// also where an element has no bytes.
fn zeros(
    alloc: Global,
    data_type: &DataType,
    levels: usize,
    values: &[Value],
) -> Result<Option<Vec<u8>>, AllocError>
    ensures some { (parts : List types.Component) → type_of data_type.now ≡ types.custom parts
        → IfOk result (λ o. IfSome o
        (λ v. AreInside (types.custom parts) levels (items_view values.now) (fixed v.items))) }
    ensures none { (parts : List types.Component) → type_of data_type.now ≡ types.custom parts
        → IfOk result (λ o. IfNone o
        (said (cell_inside (types.custom parts) levels) (items_view values.now) ≡ None)) }
{
    let Some(width) = data_type.byte_width() else {
        return Err(AllocError);
    };
    if width == 0 {
        return Err(AllocError);
    }
    let zero = vec![in alloc; 0; width]?;
    let mut bytes = Vec::new(alloc);
    for value in values {
        if !is_absent(value, levels) {
            return Ok(None);
        }
        bytes.extend_from_slice(zero.as_slice())?;
    }
    Ok(Some(bytes))
}

/// Texts, joined. `None` where a value says none.
fn texts(alloc: Global, levels: usize, values: &[Value]) -> Result<Option<ArrayBytes>, AllocError>
    ensures some { IfOk result (λ o. IfSome o
        (λ a. AreInside types.string levels (items_view values.now) (payload_of a))) }
    ensures none { IfOk result (λ o. IfNone o
        (said (cell_inside types.string levels) (items_view values.now) ≡ None)) }
{
    let mut bytes = Vec::new(alloc);
    let mut offsets = Vec::with_capacity(alloc, values.len() + 1)?;
    offsets.push(0)?;
    for value in values {
        let Some(text) = text_inside(value, levels) else {
            return Ok(None);
        };
        bytes.extend_from_slice(text)?;
        offsets.push(bytes.len() as u64)?;
    }
    Ok(Some(with_offsets(bytes, offsets)))
}

/// Lists of bytes, joined. `None` where a value says none.
fn byte_lists(
    alloc: Global,
    levels: usize,
    values: &[Value],
) -> Result<Option<ArrayBytes>, AllocError>
    ensures some { IfOk result (λ o. IfSome o
        (λ a. AreInside types.variable_bytes levels (items_view values.now) (payload_of a))) }
    ensures none { IfOk result (λ o. IfNone o
        (said (cell_inside types.variable_bytes levels) (items_view values.now) ≡ None)) }
{
    let mut bytes = Vec::new(alloc);
    let mut offsets = Vec::with_capacity(alloc, values.len() + 1)?;
    offsets.push(0)?;
    for value in values {
        let Some(list) = list_inside(value, levels) else {
            return Ok(None);
        };
        if !push_bytes(&mut bytes, list)? {
            return Ok(None);
        }
        offsets.push(bytes.len() as u64)?;
    }
    Ok(Some(with_offsets(bytes, offsets)))
}

/// Elements of variable length with their offsets.
fn with_offsets(bytes: Vec<u8>, offsets: Vec<u64>) -> ArrayBytes
    requires { are_rising offsets.items ≡ true }
    ensures { payload_of result ≡ variable bytes.items offsets.items }
{
    match ArrayBytesOffsets::new(offsets) {
        Some(offsets) => ArrayBytes::Variable(bytes, offsets),
        None => unreachable!(),
    }
}

/// Appends the bytes that values are. False where one is no number below 256.
fn push_bytes(bytes: &mut Vec<u8>, values: &[Value]) -> Result<bool, AllocError>
    ensures { IfOk result
        (AppendsBytes (items_view values.now) bytes.old.items bytes.new.items) }
{
    for value in values {
        let Some(byte) = byte_in(value) else {
            return Ok(false);
        };
        bytes.push(byte)?;
    }
    Ok(true)
}

/// The numbers of a mask. `None` where a value is no element of an optional type.
fn marks(alloc: Global, levels: usize, values: &[Value]) -> Result<Option<Vec<u8>>, AllocError>
    ensures { IfOk result (λ o. option_map (λ v. v.items) o
        ≡ said (mark_inside levels) (items_view values.now)) }
{
    let mut marks = Vec::with_capacity(alloc, values.len())?;
    for value in values {
        let Some(mark) = mark_inside(value, levels) else {
            return Ok(None);
        };
        marks.push(mark)?;
    }
    Ok(Some(marks))
}
