//! The dtypes of version 2, and the fill values beside them.
ghost use Rattle.std.specs.Prelude.{◌≡◌, IfOk, option_map};
ghost use Rattle.serde_json.specs.View.{view};
ghost use Rattle.zarr_array_v2.specs.Dtypes.{rows, one_byte, little, big, dtype_named, dtype_in, data_type_of, is_bool, is_number, fill_value_of, boolean_fill, number_fill};
ghost use Rattle.zarr_array_v2.specs.Views.{dtype_of};

use serde_json::Value;
use std::alloc::{AllocError, Global};

/// What a dtype says.
#[derive(Clone, Copy)]
pub(crate) struct Dtype {
    /// The name of the data type.
    pub data_type: &'static str,
    /// The byte order of numbers of several bytes.
    pub endian: Option<&'static str>,
}

/// What a dtype says, where it is one that is known.
pub(crate) fn dtype_in(value: &Value) -> Option<Dtype>
    ensures { option_map dtype_of result ≡ dtype_in (view value.now) }
{
    dtype_named(value.as_str()?)
}

fn dtype_named(text: &str) -> Option<Dtype>
    ensures { option_map dtype_of result ≡ dtype_named text.now rows }
{
    match text {
        "|b1" => Some(one_byte("bool")),
        "|i1" | "<i1" | ">i1" => Some(one_byte("int8")),
        "|u1" | "<u1" | ">u1" => Some(one_byte("uint8")),
        "<i2" => Some(little("int16")),
        "<i4" => Some(little("int32")),
        "<i8" => Some(little("int64")),
        ">i2" => Some(big("int16")),
        ">i4" => Some(big("int32")),
        ">i8" => Some(big("int64")),
        "<u2" => Some(little("uint16")),
        "<u4" => Some(little("uint32")),
        "<u8" => Some(little("uint64")),
        ">u2" => Some(big("uint16")),
        ">u4" => Some(big("uint32")),
        ">u8" => Some(big("uint64")),
        _ => None,
    }
}

fn one_byte(data_type: &'static str) -> Dtype
    ensures { dtype_of result ≡ one_byte data_type.now }
{
    Dtype {
        data_type,
        endian: None,
    }
}

fn little(data_type: &'static str) -> Dtype
    ensures { dtype_of result ≡ little data_type.now }
{
    Dtype {
        data_type,
        endian: Some("little"),
    }
}

fn big(data_type: &'static str) -> Dtype
    ensures { dtype_of result ≡ big data_type.now }
{
    Dtype {
        data_type,
        endian: Some("big"),
    }
}

/// The field `data_type`: null for a dtype that is not known.
pub(crate) fn data_type_of(alloc: Global, dtype: Option<Dtype>) -> Result<Value, AllocError>
    ensures { IfOk result (λ v. view v ≡ data_type_of (option_map dtype_of dtype)) }
{
    match dtype {
        Some(dtype) => Value::try_from_str(alloc, dtype.data_type),
        None => Ok(Value::Null),
    }
}

fn is_bool(dtype: Option<Dtype>) -> bool
    ensures { result ≡ is_bool (option_map dtype_of dtype) }
{
    match dtype {
        Some(dtype) => dtype.data_type == "bool",
        None => false,
    }
}

/// The fill value that says the same: null is zero or false, and for booleans 0 and 1 are false
/// and true.
pub(crate) fn fill_value_of(dtype: Option<Dtype>, value: &Value) -> Result<Value, AllocError>
    ensures { IfOk result
        (λ v. view v ≡ fill_value_of (option_map dtype_of dtype) (view value.now)) }
{
    if is_bool(dtype) {
        boolean_fill(value)
    } else {
        number_fill(value)
    }
}

fn boolean_fill(value: &Value) -> Result<Value, AllocError>
    ensures { IfOk result (λ v. view v ≡ boolean_fill (view value.now)) }
{
    if value.is_null() || is_number(0, value) {
        Ok(Value::Bool(false))
    } else if is_number(1, value) {
        Ok(Value::Bool(true))
    } else {
        value.clone()
    }
}

fn number_fill(value: &Value) -> Result<Value, AllocError>
    ensures { IfOk result (λ v. view v ≡ number_fill (view value.now)) }
{
    if value.is_null() {
        Ok(Value::from(0u64))
    } else {
        value.clone()
    }
}

fn is_number(number: u64, value: &Value) -> bool
    ensures { result ≡ is_number number (view value.now) }
{
    match value.as_u64() {
        Some(given) => given == number,
        None => false,
    }
}
