//! The configuration of `sharding_indexed` written as members.
ghost use Rattle.std.specs.Prelude.{◌≡◌, ◌<◌, map, IfOk};
ghost use Rattle.serde_json.specs.View.{view, members_view};
ghost use Rattle.zarr_grids_boxes.specs.Boxes.{product};
ghost use Rattle.zarr_codecs_configurations.specs.Written.{location_name};
ghost use Rattle.zarr_sharding_index.specs.Views.{location_of};
ghost use Rattle.zarr_sharding_configurations.specs.Views.{shard_points};
ghost use Rattle.zarr_sharding_configurations.specs.Written.{shard_members, size_data};

use crate::lists::put_metadatas;
use crate::sharding::ShardingCodecConfiguration;
use serde_json::{Map, Value, put};
use std::alloc::{AllocError, Global};
use zarr_sharding_index::ShardingIndexLocation;

/// The members that are written for a configuration.
pub(crate) fn members_of(
    alloc: Global,
    configuration: &ShardingCodecConfiguration,
) -> Result<Map<String, Value>, AllocError>
    ensures written { IfOk result (λ members.
        members_view members.entries ≡ shard_members (shard_points configuration.now)) }
    ensures positive { 0 < product configuration.now.chunk_shape }
{
    let mut members = Map::new(alloc);
    let sizes = size_values(alloc, configuration.chunk_shape.as_slice())?;
    put(&mut members, alloc, "chunk_shape", Value::Array(sizes))?;
    let codecs = configuration.codecs.as_slice();
    put_metadatas(&mut members, alloc, "codecs", codecs)?;
    let index_codecs = configuration.index_codecs.as_slice();
    put_metadatas(&mut members, alloc, "index_codecs", index_codecs)?;
    let location = Value::try_from_str(alloc, location_name(configuration.index_location))?;
    put(&mut members, alloc, "index_location", location)?;
    Ok(members)
}

/// Sizes as JSON values.
fn size_values(alloc: Global, sizes: &[u64]) -> Result<Vec<Value>, AllocError>
    ensures { IfOk result (λ values. map view values.items ≡ map size_data sizes.now) }
{
    let mut values = Vec::with_capacity(alloc, sizes.len())?;
    for size in sizes {
        values.push(Value::from(*size))?;
    }
    Ok(values)
}

fn location_name(location: ShardingIndexLocation) -> &'static str
    ensures { result.now ≡ location_name (location_of location) }
{
    match location {
        ShardingIndexLocation::Start => "start",
        ShardingIndexLocation::End => "end",
    }
}
