//! Lists of codecs in a configuration.
ghost use Rattle.std.specs.Prelude.{◌≡◌, ◌++◌, map, option_map, IfOk, OnOk};
ghost use Rattle.serde_json.specs.View.{view, items_view, members_view};
ghost use Rattle.zarr_grids_metadata.specs.ExtensionPoints.{configured, written_point};
ghost use Rattle.zarr_grids_metadata.specs.Views.{point_of, point_view};
ghost use Rattle.zarr_codecs_metadata.specs.Chains.{points_in};
ghost use Rattle.zarr_codecs_configurations.specs.Reading.{listed_points};
ghost use Rattle.zarr_codecs_configurations.specs.Written.{points_list};

use serde_json::{Map, Value, put};
use std::alloc::{AllocError, Global};
use zarr_grids_metadata::{ExtensionPoint, MetadataV3, member};

/// The codecs that the member with this name lists. `None` where it lists none.
pub(crate) fn listed_points<'v>(
    alloc: Global,
    members: &'v Map<String, Value>,
    name: &str,
) -> Result<Option<Vec<ExtensionPoint<'v>>>, AllocError>
    ensures { IfOk result (λ found. option_map (λ points. map point_view points.items) found
        ≡ listed_points name.now (members_view members.now.entries)) }
{
    let Some(value) = member(members, name) else {
        return Ok(None);
    };
    match value.as_array() {
        Some(values) => points_in(alloc, values.as_slice()),
        None => Ok(None),
    }
}

/// The extension points that values say, where each says one.
fn points_in<'v>(
    alloc: Global,
    values: &'v [Value],
) -> Result<Option<Vec<ExtensionPoint<'v>>>, AllocError>
    ensures { IfOk result (λ found. option_map (λ points. map point_view points.items) found
        ≡ points_in (items_view values.now)) }
{
    let mut points = Vec::with_capacity(alloc, values.len())?;
    for value in values {
        let Some(point) = ExtensionPoint::read(value) else {
            return Ok(None);
        };
        points.push(point)?;
    }
    Ok(Some(points))
}

/// Copies of extension points.
pub(crate) fn copies_of(
    alloc: Global,
    points: &[ExtensionPoint<'_>],
) -> Result<Vec<MetadataV3>, AllocError>
    ensures { IfOk result
        (λ copies. map point_of copies.items ≡ map point_view points.now) }
{
    let mut copies = Vec::with_capacity(alloc, points.len())?;
    for point in points {
        copies.push(MetadataV3::from_point(alloc, *point)?)?;
    }
    Ok(copies)
}

/// The JSON values that are written for extension points.
pub(crate) fn values_of(alloc: Global, metadatas: &[MetadataV3]) -> Result<Vec<Value>, AllocError>
    ensures { IfOk result
        (λ values. items_view values.items ≡ points_list (map point_of metadatas.now)) }
{
    let mut values = Vec::with_capacity(alloc, metadatas.len())?;
    push_values(&mut values, alloc, metadatas)?;
    Ok(values)
}

/// Appends the JSON values that are written for extension points. `Err` only where an allocation
/// failed.
pub fn push_values(
    values: &mut Vec<Value>,
    alloc: Global,
    metadatas: &[MetadataV3],
) -> Result<(), AllocError>
    ensures { OnOk result (map view values.new.items
        ≡ map view values.old.items ++ map written_point (map point_of metadatas.now)) }
{
    for metadata in metadatas {
        values.push(metadata.to_value(alloc)?)?;
    }
    Ok(())
}

/// The JSON value that is written for a name and a configuration, which is moved into it. `Err`
/// only where an allocation failed.
pub fn configured_value(
    alloc: Global,
    name: &str,
    configuration: Map<String, Value>,
) -> Result<Value, AllocError>
    ensures { IfOk result (λ value. view value
        ≡ written_point (configured name.now (members_view configuration.entries))) }
{
    let mut members = Map::new(alloc);
    let name = Value::try_from_str(alloc, name)?;
    put(&mut members, alloc, "name", name)?;
    let configuration = Value::Object(configuration);
    put(&mut members, alloc, "configuration", configuration)?;
    Ok(Value::Object(members))
}
