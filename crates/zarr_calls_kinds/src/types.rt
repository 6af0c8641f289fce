//! Data types and fill values.
use anyhow::{Context, Result};
use serde_json::Value;
use std::alloc::Global;
use zarr_calls_grids::words::{bytes_in, cut, refused, truth, word};
use zarr_codecs_arrays::Elements;
use zarr_codecs_types::{Cell, Component, DataType, FillValue, Sign, is_value};

/// What a call of types gives.
pub(crate) fn answer(alloc: Global, name: &str, rest: &str) -> Option<Result<String>> {
    match name {
        "type" => Some(written_type(alloc, rest)),
        "fill" => Some(written_fill(alloc, rest)),
        "value" => Some(has_value(alloc, rest)),
        _ => None,
    }
}

/// The type of a text: of its metadata, or a caller's own of a list of its numbers.
pub(crate) fn type_in(alloc: Global, text: &str) -> Result<DataType> {
    match Value::from_str(alloc, text)? {
        Value::Array(numbers) => custom_type(alloc, numbers.as_slice()),
        metadata => Ok(DataType::from_metadata(alloc, &metadata)?),
    }
}

/// A caller's type, whose elements are these numbers.
fn custom_type(alloc: Global, numbers: &[Value]) -> Result<DataType> {
    let mut components = Vec::new(alloc);
    for number in numbers {
        components.push(component_of(number).context("a type has no number")?)?;
    }
    Ok(DataType::Custom(components))
}

/// A number of an element: how many bits it has, how many bytes, and whether it has a sign.
fn component_of(number: &Value) -> Option<Component> {
    let [width, byte_count, is_signed] = number.as_array()?.as_slice() else {
        return None;
    };
    let (width, byte_count) = (width.as_u64()? as usize, byte_count.as_u64()? as usize);
    let sign = sign_of(is_signed.as_bool()?);
    Some(Component {
        width,
        byte_count,
        sign,
    })
}

fn sign_of(is_signed: bool) -> Sign {
    if is_signed {
        Sign::Signed
    } else {
        Sign::Unsigned
    }
}

/// The fill value of a text.
fn fill_in(alloc: Global, data_type: &DataType, text: &str) -> Result<FillValue> {
    let value = Value::from_str(alloc, text)?;
    Ok(FillValue::from_metadata(alloc, data_type, &value)?)
}

/// The elements of a type and a fill value.
pub(crate) fn elements_in(alloc: Global, type_text: &str, fill: &str) -> Result<Elements> {
    let data_type = type_in(alloc, type_text)?;
    let fill_value = fill_in(alloc, &data_type, fill)?;
    Elements::new(data_type, fill_value).context("a fill value is none of its type")
}

/// How the type of a text is written.
fn written_type(alloc: Global, text: &str) -> Result<String> {
    let value = Value::from_str(alloc, text)?;
    match DataType::from_metadata(alloc, &value) {
        Ok(data_type) => written_copy(alloc, &data_type),
        Err(error) => refused(alloc, &error),
    }
}

/// How a type is written, which is equal to its copy.
fn written_copy(alloc: Global, data_type: &DataType) -> Result<String> {
    let copy = data_type.try_clone(alloc)?;
    match copy.metadata(alloc)? {
        Some(written) if copy == *data_type => Ok(written.to_string(alloc)?),
        _ => word(alloc, "none"),
    }
}

/// How a fill value of a type is written.
fn written_fill(alloc: Global, rest: &str) -> Result<String> {
    let (type_text, text) = cut(rest)?;
    let data_type = type_in(alloc, type_text)?;
    let value = Value::from_str(alloc, text)?;
    match FillValue::from_metadata(alloc, &data_type, &value) {
        Ok(fill) => fill_text(alloc, &data_type, &fill),
        Err(error) => refused(alloc, &error),
    }
}

/// How a fill value is written, which is equal to its copy.
fn fill_text(alloc: Global, data_type: &DataType, fill: &FillValue) -> Result<String> {
    let copy = fill.try_clone(alloc)?;
    match copy.to_metadata(alloc, data_type)? {
        Some(written) if copy == *fill => Ok(written.to_string(alloc)?),
        _ => word(alloc, "none"),
    }
}

/// Whether bytes are a cell of a type.
fn has_value(alloc: Global, rest: &str) -> Result<String> {
    let (type_text, digits) = cut(rest)?;
    let cell = Cell::Bytes(bytes_in(alloc, digits)?);
    truth(alloc, is_value(&type_in(alloc, type_text)?, &cell))
}
