//! Fill values as they are written in metadata.
ghost use Rattle.std.specs.Prelude.{◌≡◌, ◌≤◌, Some, true, IfOk, length, option_map};
ghost use Rattle.serde_json.specs.Data.{array, item, no_items};
ghost use Rattle.serde_json.specs.View.{view, items_view};
ghost use Rattle.zarr_codecs_meaning.specs.Numbers.{number};
ghost use Rattle.zarr_codecs_meaning.specs.Types as types;
ghost use Rattle.zarr_codecs_types.specs.Views.{sign_of, type_of, cell_of};
ghost use Rattle.zarr_codecs_types.specs.FillMetadata.{integer_from, byte_items, bytes_data, cell_data};

use crate::cell::Cell;
use crate::data_type::{DataType, Sign};
use crate::fill_value::FillValue;
use crate::values::is_value_in_bytes;
use serde_json::{Number, Value};
use std::alloc::{AllocError, Global};

impl FillValue {
    ghost use Rattle.std.specs.Prelude.{◌≡◌, IfOk, option_map};
    ghost use Rattle.serde_json.specs.View.{view};
    ghost use Rattle.zarr_codecs_types.specs.Views.{type_of, fill_of};
    ghost use Rattle.zarr_codecs_types.specs.FillMetadata.{cell_data};

    /// The metadata that is written for a value of a data type; for `bytes` it is a list of
    /// numbers. `None` where it is no value of the type, for a caller's type, and for a string that
    /// is not UTF-8. `Err` only where an allocation failed.
    pub fn to_metadata(
        &self,
        alloc: Global,
        data_type: &DataType,
    ) -> Result<Option<Value>, AllocError>
        ensures { IfOk result
            (λ o. option_map view o ≡ cell_data (type_of data_type.now) (fill_of self.now)) }
    {
        cell_data(alloc, data_type, self.as_cell())
    }
}

fn cell_data(alloc: Global, data_type: &DataType, cell: &Cell) -> Result<Option<Value>, AllocError>
    ensures { IfOk result
        (λ o. option_map view o ≡ cell_data (type_of data_type.now) (cell_of cell.now)) }
{
    match cell {
        Cell::Bytes(bytes) => {
            if is_value_in_bytes(data_type, bytes.as_slice()) {
                bytes_data(alloc, data_type, bytes.as_slice())
            } else {
                Ok(None)
            }
        }
        Cell::Absent => Ok(absent_data(data_type)),
        Cell::Present(cell) => match data_type {
            DataType::Optional(inner) => present_data(alloc, cell_data(alloc, inner, cell)?),
            _ => Ok(None),
        },
    }
}

fn absent_data(data_type: &DataType) -> Option<Value>
    ensures { option_map view result ≡ cell_data (type_of data_type.now) types.absent }
{
    if data_type.is_optional() {
        Some(Value::Null)
    } else {
        None
    }
}

/// A list of what is written for the value that is present.
fn present_data(alloc: Global, value: Option<Value>) -> Result<Option<Value>, AllocError>
    ensures { IfOk result (λ o. option_map view o
        ≡ option_map (λ d. array (item d no_items)) (option_map view value)) }
{
    match value {
        Some(value) => {
            let mut items = Vec::with_capacity(alloc, 1)?;
            items.push(value)?;
            Ok(Some(Value::Array(items)))
        }
        None => Ok(None),
    }
}

/// What is written for bytes that are a value of a data type.
fn bytes_data(
    alloc: Global,
    data_type: &DataType,
    bytes: &[u8],
) -> Result<Option<Value>, AllocError>
    requires { types.is_value_in_bytes (type_of data_type.now) bytes.now ≡ true }
    ensures { IfOk result
        (λ o. option_map view o ≡ bytes_data (type_of data_type.now) bytes.now) }
{
    match data_type {
        DataType::Bool => Ok(Some(Value::Bool(bytes != [0].as_slice()))),
        DataType::Int2 => Ok(integer_data(Sign::Signed, 2, bytes)),
        DataType::Int4 => Ok(integer_data(Sign::Signed, 4, bytes)),
        DataType::Int8 => Ok(integer_data(Sign::Signed, 8, bytes)),
        DataType::Int16 => Ok(integer_data(Sign::Signed, 16, bytes)),
        DataType::Int32 => Ok(integer_data(Sign::Signed, 32, bytes)),
        DataType::Int64 => Ok(integer_data(Sign::Signed, 64, bytes)),
        DataType::UInt2 => Ok(integer_data(Sign::Unsigned, 2, bytes)),
        DataType::UInt4 => Ok(integer_data(Sign::Unsigned, 4, bytes)),
        DataType::UInt8 => Ok(integer_data(Sign::Unsigned, 8, bytes)),
        DataType::UInt16 => Ok(integer_data(Sign::Unsigned, 16, bytes)),
        DataType::UInt32 => Ok(integer_data(Sign::Unsigned, 32, bytes)),
        DataType::UInt64 => Ok(integer_data(Sign::Unsigned, 64, bytes)),
        DataType::String => text_data(alloc, bytes),
        DataType::Bytes => Ok(Some(Value::Array(byte_items(alloc, bytes)?))),
        DataType::Optional(_) | DataType::Custom(_) => Ok(None),
    }
}

fn text_data(alloc: Global, bytes: &[u8]) -> Result<Option<Value>, AllocError>
    ensures { IfOk result (λ o. option_map view o ≡ bytes_data types.string bytes.now) }
{
    match str::from_utf8(bytes) {
        Ok(text) => Ok(Some(Value::try_from_str(alloc, text)?)),
        Err(_) => Ok(None),
    }
}

/// Each byte as a number.
fn byte_items(alloc: Global, bytes: &[u8]) -> Result<Vec<Value>, AllocError>
    ensures { IfOk result (λ v. items_view v.items ≡ byte_items bytes.now) }
{
    let mut items = Vec::with_capacity(alloc, bytes.len())?;
    for byte in bytes {
        items.push(Value::Number(Number::from(*byte)))?;
    }
    Ok(items)
}

/// The integer of so many bits that bytes are.
fn integer_data(sign: Sign, width: usize, bytes: &[u8]) -> Option<Value>
    requires narrow { width ≤ 64 }
    requires value { types.is_value_in_bytes (types.integer (sign_of sign) width) bytes.now ≡ true }
    ensures { option_map view result
        ≡ bytes_data (types.integer (sign_of sign) width) bytes.now }
{
    let integer = integer_from(sign, width, bytes);
    match Number::from_i128(integer) {
        Some(number) => Some(Value::Number(number)),
        None => None,
    }
}

/// The integer that bytes are, where a number of so many bits is in them.
fn integer_from(sign: Sign, width: usize, bytes: &[u8]) -> i128
    requires narrow { width ≤ 64 }
    requires few { length bytes.now ≤ 8 }
    ensures { result ≡ integer_from (sign_of sign) width bytes.now }
{
    let word = number(bytes) as u128;
    match sign {
        Sign::Unsigned => word as i128,
        Sign::Signed => {
            if word < 2u128.pow(width.saturating_sub(1) as u32) {
                word as i128
            } else {
                let below = 256u128.pow(bytes.len() as u32) - (word + 1);
                -1 - below as i128
            }
        }
    }
}

/// The number that bytes write, the lowest first.
fn number(bytes: &[u8]) -> u64
    requires { length bytes.now ≤ 8 }
    ensures { result ≡ number 256 bytes.now }
{
    match bytes {
        [] => 0,
        [first, rest @ ..] => *first as u64 + 256 * number(rest),
    }
}
