//! Shards in shards, as metadata names them.
ghost use Rattle.std.specs.Prelude.{◌≡◌, map, IfOk};
ghost use Rattle.zarr_grids_metadata.specs.Views.{point_of};
ghost use Rattle.zarr_sharding_metadata.specs.Metadata.{names_shard};
ghost use Rattle.zarr_sharding_metadata.specs.Nesting.{shards_nest};
ghost use Rattle.zarr_sharding_chains.specs.Metadata.{shard_inside};

use std::alloc::{AllocError, Global};
use zarr_codecs_array_to_array::ArrayToArrayCodec;
use zarr_codecs_chains::chain_metadata::shard_stands;
use zarr_grids_metadata::{MetadataV3, PluginCreateError};
use zarr_sharding_codec::ShardingCodecConfiguration;

/// Whether metadata names a shard, after the array to array codecs that it begins with, among whose
/// subchunks' codecs a shard is named in turn. `Err` only where an allocation failed.
pub(crate) fn shards_nest(alloc: Global, codecs: &[MetadataV3]) -> Result<bool, AllocError>
    ensures { IfOk result (λ nest. nest ≡ shards_nest (map point_of codecs.now)) }
{
    for metadata in codecs {
        match ArrayToArrayCodec::from_metadata(alloc, metadata) {
            Ok(_codec) => {}
            Err(PluginCreateError::Memory) => return Err(AllocError),
            Err(_other) => return shard_inside(alloc, metadata),
        }
    }
    Ok(false)
}

/// Whether metadata names a shard among whose subchunks' codecs one is named.
fn shard_inside(alloc: Global, metadata: &MetadataV3) -> Result<bool, AllocError>
    ensures { IfOk result (λ stands. stands ≡ shard_inside (point_of metadata.now)) }
{
    if !names_shard(metadata.name()) {
        return Ok(false);
    }
    match ShardingCodecConfiguration::from_metadata(alloc, metadata) {
        Ok(configuration) => shard_stands(alloc, configuration.codecs.as_slice()),
        Err(PluginCreateError::Memory) => Err(AllocError),
        Err(_other) => Ok(false),
    }
}

pub(crate) fn names_shard(name: &str) -> bool
    ensures { result ≡ names_shard name.now }
{
    name == "sharding_indexed"
}
