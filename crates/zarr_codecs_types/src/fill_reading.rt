//! Fill values as metadata says them.
ghost use Rattle.std.specs.Prelude.{◌≡◌, ◌≤◌, IfOk, IfSome, true, option_map};
ghost use Rattle.std.specs.Result.{result_ok};
ghost use Rattle.base64.specs.Engines.{standard};
ghost use Rattle.base64.specs.GeneralPurpose.{decode_of};
ghost use Rattle.serde_json.specs.View.{view, items_view};
ghost use Rattle.zarr_codecs_meaning.specs.Types as types;
ghost use Rattle.zarr_codecs_types.specs.Integers.{integer_bytes, magnitude, Reaches};
ghost use Rattle.zarr_codecs_types.specs.Views.{sign_of, type_of, cell_of};
ghost use Rattle.zarr_codecs_types.specs.FillMetadata.{integer_fits, integer_in, byte_in, byte_list, bytes_in, only_item, option_in, cell_in, holds_bytes};

use crate::cell::Cell;
use crate::data_type::{DataType, Sign};
use crate::error::FillValueError;
use crate::fill_value::FillValue;
use base64::DecodeAllocError;
use base64::engine::general_purpose::STANDARD;
use serde_json::Value;
use std::alloc::{AllocError, Global};

impl FillValue {
    ghost use Rattle.std.specs.Prelude.{◌≡◌, ◌≢◌, IfOk, IfErr, Some, None, true};
    ghost use Rattle.zarr_codecs_meaning.specs.Types.{is_value};
    ghost use Rattle.serde_json.specs.View.{view};
    ghost use Rattle.zarr_codecs_types.specs.Views.{type_of, fill_of};
    ghost use Rattle.zarr_codecs_types.specs.FillMetadata.{cell_in};

    /// The fill value of a data type that a JSON value says: `true` or `false`, an integer in the
    /// type's range, a text, for `bytes` a list of numbers below 256 or a text in base64, and for
    /// an optional type `null` or a list of one value. A float is none, and a caller's type has
    /// none.
    pub fn from_metadata(
        alloc: Global,
        data_type: &DataType,
        metadata: &Value,
    ) -> Result<FillValue, FillValueError>
        ensures ok { IfOk result
            (λ v. cell_in (type_of data_type.now) (view metadata.now) ≡ Some (fill_of v)) }
        ensures err { IfErr result (λ e. e ≢ FillValueError.Memory
            → cell_in (type_of data_type.now) (view metadata.now) ≡ None) }
        ensures value { IfOk result
            (λ v. is_value (type_of data_type.now) (fill_of v) ≡ true) }
    {
        match cell_in(alloc, data_type, metadata)? {
            Some(cell) => Ok(FillValue::from(cell)),
            None => Err(FillValueError::NotOfType),
        }
    }
}

/// The cell of a data type that a JSON value says.
fn cell_in(alloc: Global, data_type: &DataType, value: &Value) -> Result<Option<Cell>, AllocError>
    ensures cell { IfOk result
        (λ o. option_map cell_of o ≡ cell_in (type_of data_type.now) (view value.now)) }
    ensures bytes { IfOk result (λ o. IfSome o (λ c. holds_bytes (cell_of c) ≡ true)) }
{
    match data_type {
        DataType::Bool => bool_cell(alloc, value),
        DataType::Int2 => integer_cell(alloc, Sign::Signed, 2, value),
        DataType::Int4 => integer_cell(alloc, Sign::Signed, 4, value),
        DataType::Int8 => integer_cell(alloc, Sign::Signed, 8, value),
        DataType::Int16 => integer_cell(alloc, Sign::Signed, 16, value),
        DataType::Int32 => integer_cell(alloc, Sign::Signed, 32, value),
        DataType::Int64 => integer_cell(alloc, Sign::Signed, 64, value),
        DataType::UInt2 => integer_cell(alloc, Sign::Unsigned, 2, value),
        DataType::UInt4 => integer_cell(alloc, Sign::Unsigned, 4, value),
        DataType::UInt8 => integer_cell(alloc, Sign::Unsigned, 8, value),
        DataType::UInt16 => integer_cell(alloc, Sign::Unsigned, 16, value),
        DataType::UInt32 => integer_cell(alloc, Sign::Unsigned, 32, value),
        DataType::UInt64 => integer_cell(alloc, Sign::Unsigned, 64, value),
        DataType::String => text_cell(alloc, value),
        DataType::Bytes => bytes_cell(alloc, value),
        DataType::Optional(inner) => match option_in(value) {
            None => Ok(None),
            Some(None) => Ok(Some(Cell::Absent)),
            Some(Some(value)) => present_cell(alloc, cell_in(alloc, inner, value)?),
        },
        DataType::Custom(_) => Ok(None),
    }
}

/// The cell that is present with another.
fn present_cell(alloc: Global, cell: Option<Cell>) -> Result<Option<Cell>, AllocError>
    requires { IfSome cell (λ c. holds_bytes (cell_of c) ≡ true) }
    ensures cell { IfOk result (λ o. option_map cell_of o
        ≡ option_map types.present (option_map cell_of cell)) }
    ensures bytes { IfOk result (λ o. IfSome o (λ c. holds_bytes (cell_of c) ≡ true)) }
{
    match cell {
        Some(cell) => Ok(Some(Cell::Present(Box::new(alloc, cell)?))),
        None => Ok(None),
    }
}

/// What an optional element has inside: nothing where it is absent. The outer `None` is for a
/// value that is neither null nor a list of one value.
fn option_in(value: &Value) -> Option<Option<&Value>>
    ensures { option_map (option_map (λ v. view v.now)) result ≡ option_in (view value.now) }
{
    match value {
        Value::Null => Some(None),
        Value::Array(items) => {
            let item = only_item(items.as_slice())?;
            Some(Some(item))
        }
        _ => None,
    }
}

#[tactic(auto, using(crate::proofs::FillLemmas::long_list))]
fn only_item(items: &[Value]) -> Option<&Value>
    ensures { option_map (λ v. view v.now) result ≡ only_item (items_view items.now) }
{
    match items {
        [] => None,
        [item] => Some(item),
        [_, _, ..] => None,
    }
}

#[tactic(auto, using(crate::proofs::Bytes::are_bytes_items))]
fn bytes_as_cell(bytes: Vec<u8>) -> Cell
    ensures cell { cell_of result ≡ types.of_bytes bytes.items }
    ensures bytes { holds_bytes (cell_of result) ≡ true }
{
    Cell::Bytes(bytes)
}

fn bool_cell(alloc: Global, value: &Value) -> Result<Option<Cell>, AllocError>
    ensures cell { IfOk result (λ o. option_map cell_of o ≡ cell_in types.bool (view value.now)) }
    ensures bytes { IfOk result (λ o. IfSome o (λ c. holds_bytes (cell_of c) ≡ true)) }
{
    match value.as_bool() {
        Some(flag) => Ok(Some(bytes_as_cell([flag as u8].to_vec(alloc)?))),
        None => Ok(None),
    }
}

fn integer_cell(
    alloc: Global,
    sign: Sign,
    width: usize,
    value: &Value,
) -> Result<Option<Cell>, AllocError>
    requires { width ≤ 64 }
    ensures cell { IfOk result (λ o. option_map cell_of o
        ≡ cell_in (types.integer (sign_of sign) width) (view value.now)) }
    ensures bytes { IfOk result (λ o. IfSome o (λ c. holds_bytes (cell_of c) ≡ true)) }
{
    match integer_in(sign, width, value) {
        Some(integer) => {
            let bytes = integer_bytes(alloc, (width + 7) / 8, integer)?;
            Ok(Some(bytes_as_cell(bytes)))
        }
        None => Ok(None),
    }
}

/// The integer in the range of so many bits that a JSON value is; a float is none.
#[inline(always)]
pub fn integer_in(sign: Sign, width: usize, value: &Value) -> Option<i128>
    requires { width ≤ 64 }
    ensures { result ≡ integer_in (sign_of sign) width (view value.now) }
{
    let integer = value.as_number()?.as_i128()?;
    if integer_fits(sign, width, integer) {
        Some(integer)
    } else {
        None
    }
}

#[inline(always)]
fn integer_fits(sign: Sign, width: usize, integer: i128) -> bool
    requires { width ≤ 64 }
    ensures { result ≡ integer_fits (sign_of sign) width integer }
{
    match sign {
        Sign::Unsigned => integer >= 0 && (integer as u128) < 2u128.pow(width as u32),
        Sign::Signed => magnitude(integer) < 2u128.pow(width.saturating_sub(1) as u32),
    }
}

/// The number itself, or how far it is below -1.
#[inline(always)]
fn magnitude(integer: i128) -> u128
    ensures { result ≡ magnitude integer }
{
    if integer < 0 {
        (-1 - integer) as u128
    } else {
        integer as u128
    }
}

/// The lowest bytes of an integer, in two's complement.
fn integer_bytes(alloc: Global, count: usize, integer: i128) -> Result<Vec<u8>, AllocError>
    requires few { count ≤ 8 }
    requires reaches { Reaches count integer }
    ensures { IfOk result (λ v. v.items ≡ integer_bytes count integer) }
{
    let bytes = integer.to_le_bytes();
    bytes[..count].to_vec(alloc)
}

fn text_cell(alloc: Global, value: &Value) -> Result<Option<Cell>, AllocError>
    ensures cell { IfOk result (λ o. option_map cell_of o ≡ cell_in types.string (view value.now)) }
    ensures bytes { IfOk result (λ o. IfSome o (λ c. holds_bytes (cell_of c) ≡ true)) }
{
    match value.as_str() {
        Some(text) => Ok(Some(bytes_as_cell(text.as_bytes().to_vec(alloc)?))),
        None => Ok(None),
    }
}

fn bytes_cell(alloc: Global, value: &Value) -> Result<Option<Cell>, AllocError>
    ensures cell { IfOk result
        (λ o. option_map cell_of o ≡ cell_in types.variable_bytes (view value.now)) }
    ensures bytes { IfOk result (λ o. IfSome o (λ c. holds_bytes (cell_of c) ≡ true)) }
{
    match bytes_in(alloc, value)? {
        Some(bytes) => Ok(Some(bytes_as_cell(bytes))),
        None => Ok(None),
    }
}

/// The bytes that a JSON value is: a list of numbers below 256, or a text in base64.
fn bytes_in(alloc: Global, value: &Value) -> Result<Option<Vec<u8>>, AllocError>
    ensures { IfOk result (λ o. option_map (λ v. v.items) o ≡ bytes_in (view value.now)) }
{
    match value {
        Value::String(text) => decoded(alloc, text.as_str()),
        Value::Array(items) => byte_list(alloc, items.as_slice()),
        _ => Ok(None),
    }
}

fn decoded(alloc: Global, text: &str) -> Result<Option<Vec<u8>>, AllocError>
    ensures { IfOk result
        (λ o. option_map (λ v. v.items) o ≡ result_ok (decode_of standard text.now)) }
{
    match STANDARD.decode(alloc, text.as_bytes()) {
        Ok(bytes) => Ok(Some(bytes)),
        Err(DecodeAllocError::OutOfMemory) => Err(AllocError),
        Err(DecodeAllocError::DecodeError(_)) => Ok(None),
    }
}

fn byte_list(alloc: Global, items: &[Value]) -> Result<Option<Vec<u8>>, AllocError>
    ensures { IfOk result
        (λ o. option_map (λ v. v.items) o ≡ byte_list (items_view items.now)) }
{
    let mut bytes = Vec::with_capacity(alloc, items.len())?;
    for item in items {
        let Some(byte) = byte_in(item) else {
            return Ok(None);
        };
        bytes.push(byte)?;
    }
    Ok(Some(bytes))
}

fn byte_in(value: &Value) -> Option<u8>
    ensures { result ≡ byte_in (view value.now) }
{
    let number = value.as_u64()?;
    u8::try_from(number).ok()
}
