//! Lists of codecs in a configuration.
ghost use Rattle.std.specs.Prelude.{◌≡◌, map, option_map, IfOk, OnOk};
ghost use Rattle.serde_json.specs.Data.{array, put};
ghost use Rattle.serde_json.specs.View.{view, items_view, members_view};
ghost use Rattle.zarr_grids_metadata.specs.Views.{point_of};
ghost use Rattle.zarr_codecs_metadata.specs.Chains.{points_in};
ghost use Rattle.zarr_sharding_metadata.specs.Metadata.{points_listed};
ghost use Rattle.zarr_codecs_configurations.specs.Written.{points_list};

use serde_json::{Map, Value, put};
use std::alloc::{AllocError, Global};
use zarr_grids_metadata::{MetadataV3, member};

/// The metadata of the codecs that the member with this name lists. `None` where it lists none.
pub(crate) fn listed_metadatas(
    alloc: Global,
    members: &Map<String, Value>,
    name: &str,
) -> Result<Option<Vec<MetadataV3>>, AllocError>
    ensures { IfOk result (λ found. option_map (λ points. map point_of points.items) found
        ≡ points_listed name.now (members_view members.now.entries)) }
{
    let Some(value) = member(members, name) else {
        return Ok(None);
    };
    match value.as_array() {
        Some(values) => metadatas_in(alloc, values.as_slice()),
        None => Ok(None),
    }
}

/// The extension points that values say, where each says one.
fn metadatas_in(alloc: Global, values: &[Value]) -> Result<Option<Vec<MetadataV3>>, AllocError>
    ensures { IfOk result (λ found. option_map (λ points. map point_of points.items) found
        ≡ points_in (items_view values.now)) }
{
    let mut points = Vec::with_capacity(alloc, values.len())?;
    for value in values {
        let Some(point) = MetadataV3::from_value(alloc, value)? else {
            return Ok(None);
        };
        points.push(point)?;
    }
    Ok(Some(points))
}

/// Puts a list of codecs among the members of a configuration.
pub(crate) fn put_metadatas(
    members: &mut Map<String, Value>,
    alloc: Global,
    name: &str,
    metadatas: &[MetadataV3],
) -> Result<(), AllocError>
    ensures { OnOk result (members_view members.new.entries
        ≡ put name.now (array (points_list (map point_of metadatas.now)))
        (members_view members.old.entries)) }
{
    let values = values_of(alloc, metadatas)?;
    put(members, alloc, name, Value::Array(values))
}

/// The JSON values that are written for extension points.
fn values_of(alloc: Global, metadatas: &[MetadataV3]) -> Result<Vec<Value>, AllocError>
    ensures { IfOk result
        (λ values. items_view values.items ≡ points_list (map point_of metadatas.now)) }
{
    let mut values = Vec::with_capacity(alloc, metadatas.len())?;
    for metadata in metadatas {
        values.push(metadata.to_value(alloc)?)?;
    }
    Ok(values)
}
