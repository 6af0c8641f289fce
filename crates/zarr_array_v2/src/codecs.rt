//! The codecs of version 2: an order, filters and a compressor.
ghost use Rattle.std.specs.Prelude.{◌≡◌, ◌∷◌, ◌++◌, [], codes, map, IfOk, OnOk, option_map};
ghost use Rattle.serde_json.specs.Data.{string, array};
ghost use Rattle.serde_json.specs.View.{view, items_view, members_view};
ghost use Rattle.zarr_grids_metadata.specs.ExtensionPoints.{configured, written_point};
ghost use Rattle.zarr_array_v2.specs.Codecs.{point, falling, dimensions_of, order_codecs, bytes_codec, codec_named, codec_in, codecs_in, filters_in, compressor_in};

use crate::attributes::without;
use crate::fields::Order;
use serde_json::{Map, Value, json};
use std::alloc::{AllocError, Global};
use zarr_grids_metadata::member;

/// An extension point whose configuration has one field.
pub(crate) fn point(
    alloc: Global,
    name: &str,
    field: &str,
    value: Value,
) -> Result<Value, AllocError>
    ensures { IfOk result (λ written. view written ≡ point name.now field.now (view value)) }
{
    json!(in alloc; {"name": name, "configuration": {field: value}})
}

/// Puts the codec of the order first: a transposition in the order F, and none in the order C.
pub(crate) fn push_order(
    codecs: &mut Vec<Value>,
    alloc: Global,
    order: Order,
    shape: &Value,
) -> Result<(), AllocError>
    ensures { OnOk result (map view codecs.new.items
        ≡ map view codecs.old.items ++ order_codecs order (dimensions_of (view shape.now))) }
{
    match order {
        Order::C => Ok(()),
        Order::F => {
            let dimensions = falling(alloc, dimensions_of(shape))?;
            let transpose = point(alloc, "transpose", "order", Value::Array(dimensions))?;
            Ok(codecs.push(transpose)?)
        }
    }
}

fn dimensions_of(shape: &Value) -> usize
    ensures { result ≡ dimensions_of (view shape.now) }
{
    match shape {
        Value::Array(sizes) => sizes.len(),
        _ => 0,
    }
}

/// The dimensions from the last to the first.
fn falling(alloc: Global, dimensions: usize) -> Result<Vec<Value>, AllocError>
    ensures { IfOk result (λ list. items_view list.items ≡ falling dimensions) }
{
    let mut list = Vec::with_capacity(alloc, dimensions)?;
    for passed in 0..dimensions {
        list.push(Value::from(dimensions - 1 - passed))?;
    }
    Ok(list)
}

/// `bytes` with a byte order, where there is one.
pub(crate) fn bytes_codec(alloc: Global, endian: Option<&str>) -> Result<Value, AllocError>
    ensures { IfOk result
        (λ written. view written ≡ bytes_codec (option_map (λ e. e.now) endian.entry)) }
{
    match endian {
        None => Value::try_from_str(alloc, "bytes"),
        Some(endian) => {
            let endian = Value::try_from_str(alloc, endian)?;
            point(alloc, "bytes", "endian", endian)
        }
    }
}

/// The codec that a filter or a compressor is; null, which is no codec, where it is no object or
/// has no `id`.
fn codec_in(alloc: Global, value: &Value) -> Result<Value, AllocError>
    ensures { IfOk result (λ written. view written ≡ codec_in (view value.now)) }
{
    let Some(members) = value.as_object() else {
        return Ok(Value::Null);
    };
    let Some(id) = member(members, "id").and_then(Value::as_str) else {
        return Ok(Value::Null);
    };
    codec_named(alloc, id, without(members, "id")?)
}

/// A codec with this name, whose configuration has these members; without members it has none.
fn codec_named(
    alloc: Global,
    id: &str,
    configuration: Map<String, Value>,
) -> Result<Value, AllocError>
    ensures { IfOk result (λ written. view written
        ≡ written_point (codec_named id.now (members_view configuration.entries))) }
{
    if configuration.is_empty() {
        return Value::try_from_str(alloc, id);
    }
    configured(alloc, id, configuration)
}

/// An extension point with a configuration.
fn configured(
    alloc: Global,
    name: &str,
    configuration: Map<String, Value>,
) -> Result<Value, AllocError>
    ensures { IfOk result (λ written. view written
        ≡ written_point (configured name.now (members_view configuration.entries))) }
{
    json!(in alloc; {"name": name, "configuration": Value::Object(configuration)})
}

/// Puts the codecs of the filters last: a list, or null for none.
pub(crate) fn push_filters(
    codecs: &mut Vec<Value>,
    alloc: Global,
    filters: &Value,
) -> Result<(), AllocError>
    ensures { OnOk result (map view codecs.new.items
        ≡ map view codecs.old.items ++ filters_in (view filters.now)) }
{
    match filters {
        Value::Null => Ok(()),
        Value::Array(filters) => push_codecs(codecs, alloc, filters.as_slice()),
        _ => Ok(codecs.push(Value::Null)?),
    }
}

fn push_codecs(codecs: &mut Vec<Value>, alloc: Global, values: &[Value]) -> Result<(), AllocError>
    ensures { OnOk result (map view codecs.new.items
        ≡ map view codecs.old.items ++ codecs_in (items_view values.now)) }
{
    for value in values {
        codecs.push(codec_in(alloc, value)?)?;
    }
    Ok(())
}

/// Puts the codec of the compressor last: one codec, or null for none.
pub(crate) fn push_compressor(
    codecs: &mut Vec<Value>,
    alloc: Global,
    compressor: &Value,
) -> Result<(), AllocError>
    ensures { OnOk result (map view codecs.new.items
        ≡ map view codecs.old.items ++ compressor_in (view compressor.now)) }
{
    match compressor {
        Value::Null => Ok(()),
        _ => Ok(codecs.push(codec_in(alloc, compressor)?)?),
    }
}
