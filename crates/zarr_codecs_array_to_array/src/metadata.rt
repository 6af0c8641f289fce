//! Array to array codecs read from configurations, and written as metadata.
ghost use Rattle.std.specs.Prelude.{◌≡◌, ◌≢◌, [], map, Some, None, option_map, IfOk, IfErr};
ghost use Rattle.serde_json.specs.View.{view, items_view, members_view, number_view};
ghost use Rattle.zarr_grids_metadata.specs.ExtensionPoints.{configuration_members};
ghost use Rattle.zarr_grids_metadata.specs.Members.{has_only};
ghost use Rattle.zarr_grids_metadata.specs.Views.{point_of};
ghost use Rattle.zarr_codecs_meaning.specs.Chains.ArrayCodec.{reshape, transpose};
ghost use Rattle.zarr_codecs_metadata.specs.ArrayCodecs.{entry_of_number, entries_of, entry_in, naturals_of, only_member, reshape_of, transpose_of};
ghost use Rattle.zarr_codecs_array_to_array.specs.Views.{order_of, entries_of as shape_entries};
ghost use Rattle.zarr_codecs_array_to_array.specs.Entries.{entry_of};
ghost use Rattle.zarr_codecs_array_to_array.specs.Written.{array_codec_point, entry_data, number_data};

use crate::dimensions::ReshapeDim;
use crate::new_shape::ReshapeShape;
use crate::order::TransposeOrder;
use serde_json::{Map, Number, Value, put};
use std::alloc::{AllocError, Global};
use zarr_grids_metadata::{MetadataV3, PluginCreateError, has_only, member};

/// The member with this name, where a configuration has no other.
pub(crate) fn only_member<'m>(
    configuration: Option<&'m Map<String, Value>>,
    name: &str,
) -> Option<&'m Value>
    ensures { option_map (λ v. view v.now) result ≡ only_member name.now (configuration_members
        (option_map (λ members. members_view members.now.entries) configuration.entry)) }
{
    let members = configuration?;
    if has_only(members, &[name]) {
        member(members, name)
    } else {
        None
    }
}

/// The whole numbers that a JSON list says, or `None` where one of its values is none.
pub(crate) fn naturals_of(alloc: Global, items: &[Value]) -> Result<Option<Vec<u64>>, AllocError>
    ensures { IfOk result
        (λ numbers. option_map (λ v. v.items) numbers ≡ naturals_of (items_view items.now)) }
{
    let mut numbers = Vec::with_capacity(alloc, items.len())?;
    for item in items {
        let Some(number) = item.as_u64() else {
            return Ok(None);
        };
        numbers.push(number)?;
    }
    Ok(Some(numbers))
}

/// The order that the configuration of `transpose` gives.
pub(crate) fn configured_order(
    alloc: Global,
    configuration: Option<&Map<String, Value>>,
) -> Result<TransposeOrder, PluginCreateError>
    ensures ok { IfOk result (λ order. transpose_of (configuration_members
        (option_map (λ members. members_view members.now.entries) configuration.entry))
        ≡ Some (transpose (order_of order))) }
    ensures err { IfErr result (λ e. e ≢ PluginCreateError.Memory → transpose_of
        (configuration_members
        (option_map (λ members. members_view members.now.entries) configuration.entry)) ≡ None) }
    ensures cause { IfErr result
        (λ e. e ≢ PluginCreateError.Memory → e ≡ PluginCreateError.MetadataInvalid) }
{
    let Some(value) = only_member(configuration, "order") else {
        return Err(PluginCreateError::MetadataInvalid);
    };
    let Some(items) = value.as_array() else {
        return Err(PluginCreateError::MetadataInvalid);
    };
    let Ok(read) = naturals_of(alloc, items.as_slice()) else {
        return Err(PluginCreateError::Memory);
    };
    let Some(dimensions) = read else {
        return Err(PluginCreateError::MetadataInvalid);
    };
    match TransposeOrder::new(alloc, dimensions) {
        Ok(Some(order)) => Ok(order),
        Ok(None) => Err(PluginCreateError::MetadataInvalid),
        Err(_failed) => Err(PluginCreateError::Memory),
    }
}

/// The metadata of `transpose` with an order.
pub(crate) fn transpose_metadata(alloc: Global, order: &[u64]) -> Result<MetadataV3, AllocError>
    ensures { IfOk result
        (λ metadata. point_of metadata ≡ array_codec_point (transpose order.now)) }
{
    let name = String::from_str(alloc, "transpose")?;
    let numbers = number_values(alloc, order)?;
    let mut members = Map::new(alloc);
    put(&mut members, alloc, "order", Value::Array(numbers))?;
    Ok(MetadataV3::new_with_configuration(name, members))
}

/// Numbers as JSON values.
pub(crate) fn number_values(alloc: Global, numbers: &[u64]) -> Result<Vec<Value>, AllocError>
    ensures { IfOk result (λ values. map view values.items ≡ map number_data numbers.now) }
{
    let mut values = Vec::with_capacity(alloc, numbers.len())?;
    for number in numbers {
        values.push(Value::from(*number))?;
    }
    Ok(values)
}

/// The shape that the configuration of `reshape` gives.
pub(crate) fn configured_shape(
    alloc: Global,
    configuration: Option<&Map<String, Value>>,
) -> Result<ReshapeShape, PluginCreateError>
    ensures ok { IfOk result (λ shape. reshape_of (configuration_members
        (option_map (λ members. members_view members.now.entries) configuration.entry))
        ≡ Some (reshape (shape_entries shape))) }
    ensures err { IfErr result (λ e. e ≢ PluginCreateError.Memory → reshape_of
        (configuration_members
        (option_map (λ members. members_view members.now.entries) configuration.entry)) ≡ None) }
    ensures cause { IfErr result
        (λ e. e ≢ PluginCreateError.Memory → e ≡ PluginCreateError.MetadataInvalid) }
{
    let Some(value) = only_member(configuration, "shape") else {
        return Err(PluginCreateError::MetadataInvalid);
    };
    let Some(items) = value.as_array() else {
        return Err(PluginCreateError::MetadataInvalid);
    };
    let Ok(read) = dimensions_of(alloc, items.as_slice()) else {
        return Err(PluginCreateError::Memory);
    };
    let Some(dimensions) = read else {
        return Err(PluginCreateError::MetadataInvalid);
    };
    match ReshapeShape::new(dimensions) {
        Some(shape) => Ok(shape),
        None => Err(PluginCreateError::MetadataInvalid),
    }
}

/// The dimensions of a new shape that a JSON list says, or `None` where one of its values is none.
fn dimensions_of(alloc: Global, items: &[Value]) -> Result<Option<Vec<ReshapeDim>>, AllocError>
    ensures { IfOk result (λ found. option_map (λ v. map entry_of v.items) found
        ≡ entries_of (items_view items.now)) }
{
    let mut dimensions = Vec::with_capacity(alloc, items.len())?;
    for item in items {
        let Some(dimension) = dimension_in(alloc, item)? else {
            return Ok(None);
        };
        dimensions.push(dimension)?;
    }
    Ok(Some(dimensions))
}

/// One dimension of a new shape: a number, or a list of dimensions.
fn dimension_in(alloc: Global, value: &Value) -> Result<Option<ReshapeDim>, AllocError>
    ensures { IfOk result (λ found. option_map entry_of found ≡ entry_in (view value.now)) }
{
    match value {
        Value::Number(number) => Ok(dimension_of(number)),
        Value::Array(items) => match naturals_of(alloc, items.as_slice())? {
            Some(named) => Ok(Some(ReshapeDim::InputDims(named))),
            None => Ok(None),
        },
        _ => Ok(None),
    }
}

/// A size, or what is left where the number is -1.
fn dimension_of(number: &Number) -> Option<ReshapeDim>
    ensures { option_map entry_of result ≡ entry_of_number (number_view number.now) }
{
    match number.as_u64() {
        Some(size) => Some(ReshapeDim::Size(size)),
        None => match number.as_i64() {
            Some(integer) if integer == -1 => Some(ReshapeDim::Auto),
            _ => None,
        },
    }
}

/// The metadata of `reshape` with a shape.
pub(crate) fn reshape_metadata(
    alloc: Global,
    shape: &ReshapeShape,
) -> Result<MetadataV3, AllocError>
    ensures { IfOk result
        (λ metadata. point_of metadata ≡ array_codec_point (reshape (shape_entries shape.now))) }
{
    let name = String::from_str(alloc, "reshape")?;
    let values = dimension_values(alloc, shape.as_slice())?;
    let mut members = Map::new(alloc);
    put(&mut members, alloc, "shape", Value::Array(values))?;
    Ok(MetadataV3::new_with_configuration(name, members))
}

/// Dimensions of a new shape as JSON values.
fn dimension_values(alloc: Global, dimensions: &[ReshapeDim]) -> Result<Vec<Value>, AllocError>
    ensures { IfOk result
        (λ values. map view values.items ≡ map entry_data (map entry_of dimensions.now)) }
{
    let mut values = Vec::with_capacity(alloc, dimensions.len())?;
    for dimension in dimensions {
        values.push(dimension_value(alloc, dimension)?)?;
    }
    Ok(values)
}

/// A dimension of a new shape as a JSON value.
fn dimension_value(alloc: Global, dimension: &ReshapeDim) -> Result<Value, AllocError>
    ensures { IfOk result (λ value. view value ≡ entry_data (entry_of dimension.now)) }
{
    match dimension {
        ReshapeDim::Size(size) => Ok(Value::from(*size)),
        ReshapeDim::InputDims(named) => {
            let numbers = number_values(alloc, named.as_slice())?;
            Ok(Value::Array(numbers))
        }
        ReshapeDim::Auto => Ok(Value::from(-1i64)),
    }
}

/// Whether a configuration has no member.
pub(crate) fn is_empty(configuration: Option<&Map<String, Value>>) -> bool
    ensures { result ≡ has_only [] (configuration_members
        (option_map (λ members. members_view members.now.entries) configuration.entry)) }
{
    match configuration {
        None => true,
        Some(members) => has_only(members, &[]),
    }
}
