//! The metadata of data types: a name, and for an optional type the inner type as configuration.
ghost use Rattle.std.specs.Prelude.{◌≡◌, ◌≢◌, IfOk, IfErr, Some, None, option_map, codes};
ghost use Rattle.serde_json.specs.Data.{string, no_members, put};
ghost use Rattle.serde_json.specs.View.{view, members_view};
ghost use Rattle.zarr_grids_metadata.specs.ExtensionPoints.{configuration_in, configuration_members, written_point};
ghost use Rattle.zarr_grids_metadata.specs.Views.{point_view};
ghost use Rattle.zarr_codecs_types.specs.Views.{type_of};
ghost use Rattle.zarr_codecs_types.specs.Metadata.{rows, type_named, name_of, is_optional_name, inner_point, plain_type, point_type, named, type_point, optional_configuration};

use crate::data_type::{DataType, optional};
use crate::error::DataTypeError;
use serde_json::{Map, Value, put};
use std::alloc::{AllocError, Global};
use zarr_grids_metadata::{ExtensionPoint, has_only, member};

impl DataType {
    ghost use Rattle.std.specs.Prelude.{◌≡◌, ◌≢◌, IfOk, IfErr, Some, None, option_map};
    ghost use Rattle.serde_json.specs.View.{view};
    ghost use Rattle.zarr_codecs_types.specs.Views.{type_of};
    ghost use Rattle.zarr_codecs_types.specs.Metadata.{data_type_in, metadata_of};

    /// The data type that a JSON value says: a name, or an object with a name and a
    /// configuration. Where the name is an alias, `variable_length_bytes` or `optional`, the type
    /// does not keep that. It goes as deep as optional types nest in the value.
    pub fn from_metadata(alloc: Global, metadata: &Value) -> Result<DataType, DataTypeError>
        ensures ok { IfOk result (λ t. data_type_in (view metadata.now) ≡ Some (type_of t)) }
        ensures err { IfErr result
            (λ e. e ≢ DataTypeError.Memory → data_type_in (view metadata.now) ≡ None) }
    {
        match ExtensionPoint::read(metadata) {
            Some(point) => point_type(alloc, point),
            None => Err(DataTypeError::Unsupported),
        }
    }

    /// The metadata that is written for the type: its name alone, but for an optional type an
    /// object. `None` for a caller's type. `Err` only where an allocation failed.
    pub fn metadata(&self, alloc: Global) -> Result<Option<Value>, AllocError>
        ensures { IfOk result (λ o. option_map view o ≡ metadata_of (type_of self.now)) }
    {
        match self {
            DataType::Optional(inner) => match optional_configuration(alloc, inner)? {
                Some(configuration) => Ok(Some(optional_metadata(alloc, &configuration)?)),
                None => Ok(None),
            },
            _ => match name_of(self) {
                Some(name) => Ok(Some(Value::try_from_str(alloc, name)?)),
                None => Ok(None),
            },
        }
    }
}

/// The type that an extension point says.
fn point_type(alloc: Global, point: ExtensionPoint<'_>) -> Result<DataType, DataTypeError>
    ensures ok { IfOk result (λ t. point_type (point_view point.entry) ≡ Some (type_of t)) }
    ensures err { IfErr result
        (λ e. e ≢ DataTypeError.Memory → point_type (point_view point.entry) ≡ None) }
{
    if !is_optional_name(point.name) {
        return plain_type(point).ok_or(DataTypeError::Unsupported);
    }
    let Some(inner) = inner_point(point.configuration) else {
        return Err(DataTypeError::Unsupported);
    };
    let inner = point_type(alloc, inner)?;
    Ok(optional(alloc, inner)?)
}

fn is_optional_name(name: &str) -> bool
    ensures { result ≡ is_optional_name name.now }
{
    name == "zarrs.optional" || name == "optional"
}

/// The extension point of the inner type, in the configuration of an optional type.
fn inner_point<'v>(configuration: Option<&'v Map<String, Value>>) -> Option<ExtensionPoint<'v>>
    ensures { option_map point_view result
        ≡ inner_point (configuration_members
        (option_map (λ ms. members_view ms.now.entries) configuration.entry)) }
{
    let members = configuration?;
    if !has_only(members, &["name", "configuration"]) {
        return None;
    }
    let name = member(members, "name")?.as_str()?;
    let configuration = configuration_in(member(members, "configuration"))?;
    Some(ExtensionPoint {
        name,
        configuration,
        must_understand: true,
    })
}

/// The configuration that a member gives. The outer `None` is for a member that is no object.
fn configuration_in<'v>(value: Option<&'v Value>) -> Option<Option<&'v Map<String, Value>>>
    ensures { option_map (option_map (λ members. members_view members.now.entries)) result
        ≡ configuration_in (option_map (λ v. view v.now) value.entry) }
{
    match value {
        None => Some(None),
        Some(value) => {
            let members = value.as_object()?;
            Some(Some(members))
        }
    }
}

/// The type that a name says alone, where the configuration has no member.
fn plain_type(point: ExtensionPoint<'_>) -> Option<DataType>
    ensures { option_map type_of result ≡ plain_type (point_view point.entry) }
{
    match point.configuration {
        Some(members) => {
            if has_only(members, &[]) {
                type_named(point.name)
            } else {
                None
            }
        }
        None => type_named(point.name),
    }
}

fn type_named(name: &str) -> Option<DataType>
    ensures { option_map type_of result ≡ type_named name.now rows }
{
    match name {
        "bool" => Some(DataType::Bool),
        "int2" => Some(DataType::Int2),
        "int4" => Some(DataType::Int4),
        "int8" => Some(DataType::Int8),
        "int16" => Some(DataType::Int16),
        "int32" => Some(DataType::Int32),
        "int64" => Some(DataType::Int64),
        "uint2" => Some(DataType::UInt2),
        "uint4" => Some(DataType::UInt4),
        "uint8" => Some(DataType::UInt8),
        "uint16" => Some(DataType::UInt16),
        "uint32" => Some(DataType::UInt32),
        "uint64" => Some(DataType::UInt64),
        "string" => Some(DataType::String),
        "bytes" | "variable_length_bytes" => Some(DataType::Bytes),
        _ => None,
    }
}

/// The name of a type that has no configuration.
fn name_of(data_type: &DataType) -> Option<&'static str>
    ensures { option_map (λ name. name.now) result ≡ name_of (type_of data_type.now) rows }
{
    match data_type {
        DataType::Bool => Some("bool"),
        DataType::Int2 => Some("int2"),
        DataType::Int4 => Some("int4"),
        DataType::Int8 => Some("int8"),
        DataType::Int16 => Some("int16"),
        DataType::Int32 => Some("int32"),
        DataType::Int64 => Some("int64"),
        DataType::UInt2 => Some("uint2"),
        DataType::UInt4 => Some("uint4"),
        DataType::UInt8 => Some("uint8"),
        DataType::UInt16 => Some("uint16"),
        DataType::UInt32 => Some("uint32"),
        DataType::UInt64 => Some("uint64"),
        DataType::String => Some("string"),
        DataType::Bytes => Some("bytes"),
        DataType::Optional(_) | DataType::Custom(_) => None,
    }
}

/// The configuration of an optional type with this inner type. `None` where that is, or has
/// inside, a caller's type.
fn optional_configuration(
    alloc: Global,
    inner: &DataType,
) -> Result<Option<Map<String, Value>>, AllocError>
    ensures { IfOk result (λ o. option_map (λ ms. members_view ms.entries) o
        ≡ option_map optional_configuration (type_point (type_of inner.now))) }
{
    match inner {
        DataType::Optional(inner) => match optional_configuration(alloc, inner)? {
            Some(configuration) => {
                let mut members = named_members(alloc, "zarrs.optional")?;
                put(
                    &mut members,
                    alloc,
                    "configuration",
                    Value::Object(configuration),
                )?;
                Ok(Some(members))
            }
            None => Ok(None),
        },
        _ => match name_of(inner) {
            Some(name) => Ok(Some(named_members(alloc, name)?)),
            None => Ok(None),
        },
    }
}

/// An object's members: a name alone.
fn named_members(alloc: Global, name: &str) -> Result<Map<String, Value>, AllocError>
    ensures { IfOk result
        (λ ms. members_view ms.entries ≡ put (codes "name") (string name.now) no_members) }
{
    let mut members = Map::new(alloc);
    let name = Value::try_from_str(alloc, name)?;
    put(&mut members, alloc, "name", name)?;
    Ok(members)
}

/// The metadata of an optional type with this configuration.
fn optional_metadata(alloc: Global, configuration: &Map<String, Value>) -> Result<Value, AllocError>
    ensures { IfOk result (λ v. view v ≡ written_point
        (named (Some (members_view configuration.now.entries)) (codes "zarrs.optional"))) }
{
    let point = ExtensionPoint {
        name: "zarrs.optional",
        configuration: Some(configuration),
        must_understand: true,
    };
    point.to_value(alloc)
}
