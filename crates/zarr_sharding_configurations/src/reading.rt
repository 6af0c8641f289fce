//! The configuration of `sharding_indexed` read from its members.
ghost use Rattle.std.specs.Prelude.{◌≡◌, ◌≢◌, codes, Some, None, map, option_map, option_and_then, IfOk, IfErr};
ghost use Rattle.serde_json.specs.Find.{get_member};
ghost use Rattle.serde_json.specs.View.{view, items_view, members_view};
ghost use Rattle.zarr_codecs_metadata.specs.ArrayCodecs.{naturals_of};
ghost use Rattle.zarr_codecs_metadata.specs.Sections.{location_named};
ghost use Rattle.zarr_sharding_index.specs.Views.{location_of};
ghost use Rattle.zarr_sharding_metadata.specs.Metadata.{index_location_in, none_zero, shard_location_in, shard_points_in, subchunk_in};
ghost use Rattle.zarr_sharding_configurations.specs.Views.{shard_points};

use crate::lists::listed_metadatas;
use crate::sharding::ShardingCodecConfiguration;
use serde_json::{Map, Value};
use std::alloc::{AllocError, Global};
use zarr_grids_boxes::ChunkShape;
use zarr_grids_metadata::{PluginCreateError, has_only, member};
use zarr_sharding_index::ShardingIndexLocation;

/// The configuration that members give.
pub(crate) fn read_members(
    alloc: Global,
    members: &Map<String, Value>,
) -> Result<ShardingCodecConfiguration, PluginCreateError>
    ensures ok { IfOk result (λ configuration. shard_points_in (members_view members.now.entries)
        ≡ Some (shard_points configuration)) }
    ensures err { IfErr result (λ e. e ≢ PluginCreateError.Memory →
        shard_points_in (members_view members.now.entries) ≡ None) }
    ensures cause { IfErr result
        (λ e. e ≢ PluginCreateError.Memory → e ≡ PluginCreateError.MetadataInvalid) }
{
    let Some(index_location) = location_in(members) else {
        return Err(PluginCreateError::MetadataInvalid);
    };
    let Some(chunk_shape) = chunk_shape_in(alloc, members)? else {
        return Err(PluginCreateError::MetadataInvalid);
    };
    let Some(codecs) = listed_metadatas(alloc, members, "codecs")? else {
        return Err(PluginCreateError::MetadataInvalid);
    };
    let Some(index_codecs) = listed_metadatas(alloc, members, "index_codecs")? else {
        return Err(PluginCreateError::MetadataInvalid);
    };
    Ok(ShardingCodecConfiguration {
        chunk_shape,
        codecs,
        index_codecs,
        index_location,
    })
}

/// The shape that the member `chunk_shape` gives.
fn chunk_shape_in(
    alloc: Global,
    members: &Map<String, Value>,
) -> Result<Option<ChunkShape>, AllocError>
    ensures { IfOk result (λ found. found ≡ option_and_then subchunk_in
        (get_member (codes "chunk_shape") (members_view members.now.entries))) }
{
    let Some(value) = member(members, "chunk_shape") else {
        return Ok(None);
    };
    let Some(items) = value.as_array() else {
        return Ok(None);
    };
    match sizes_in(alloc, items.as_slice())? {
        Some(sizes) => Ok(shape_of(sizes)),
        None => Ok(None),
    }
}

/// The shape of these sizes, if none of them is 0.
fn shape_of(sizes: Vec<u64>) -> Option<ChunkShape>
    ensures { result ≡ none_zero sizes.items }
{
    match ChunkShape::new(sizes) {
        Ok(shape) => Some(shape),
        Err(_zero) => None,
    }
}

/// The sizes that a JSON list says, or `None` where one of its values is no whole number.
fn sizes_in(alloc: Global, items: &[Value]) -> Result<Option<Vec<u64>>, AllocError>
    ensures { IfOk result
        (λ sizes. option_map (λ v. v.items) sizes ≡ naturals_of (items_view items.now)) }
{
    let mut sizes = Vec::with_capacity(alloc, items.len())?;
    for item in items {
        let Some(size) = item.as_u64() else {
            return Ok(None);
        };
        sizes.push(size)?;
    }
    Ok(Some(sizes))
}

/// Where the index stands, where the configuration has only the members of `sharding_indexed`.
fn location_in(members: &Map<String, Value>) -> Option<ShardingIndexLocation>
    ensures { option_map location_of result
        ≡ shard_location_in (members_view members.now.entries) }
{
    let names = ["chunk_shape", "codecs", "index_codecs", "index_location"];
    if !has_only(members, &names) {
        return None;
    }
    index_location_in(member(members, "index_location"))
}

/// Where a member says that the index stands.
fn index_location_in(value: Option<&Value>) -> Option<ShardingIndexLocation>
    ensures { option_map location_of result
        ≡ index_location_in (option_map (λ v. view v.now) value.entry) }
{
    match value {
        None => Some(ShardingIndexLocation::End),
        Some(value) => location_named(value.as_str()?),
    }
}

fn location_named(name: &str) -> Option<ShardingIndexLocation>
    ensures { option_map location_of result ≡ location_named name.now }
{
    match name {
        "start" => Some(ShardingIndexLocation::Start),
        "end" => Some(ShardingIndexLocation::End),
        _ => None,
    }
}
