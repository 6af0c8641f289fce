//! The configuration of `sharding_indexed`.

use crate::reading::read_members;
use crate::writing::members_of;
use std::alloc::{AllocError, Global};
use zarr_grids_boxes::ChunkShape;
use zarr_grids_metadata::{MetadataV3, PluginCreateError};
use zarr_sharding_index::ShardingIndexLocation;

/// What `sharding_indexed` is configured by (Zarr sharding codec, "Configuration parameters"): the
/// shape of its subchunks, their codecs, those of its index, and where the index stands.
#[derive(Debug, Drop)]
pub struct ShardingCodecConfiguration {
    pub chunk_shape: ChunkShape,
    pub codecs: Vec<MetadataV3>,
    pub index_codecs: Vec<MetadataV3>,
    pub index_location: ShardingIndexLocation,
}

impl ShardingCodecConfiguration {
    ghost use Rattle.std.specs.Prelude.{◌≡◌, ◌≢◌, Some, None, IfOk, IfErr};
    ghost use Rattle.zarr_grids_metadata.specs.ExtensionPoints.{configuration_members};
    ghost use Rattle.zarr_grids_metadata.specs.Views.{point_of};
    ghost use Rattle.zarr_sharding_metadata.specs.Metadata.{shard_points_in};
    ghost use Rattle.zarr_sharding_configurations.specs.Written.{shard_point};
    ghost use Rattle.zarr_sharding_configurations.specs.Views.{shard_points};

    /// The configuration in metadata of `sharding_indexed`, of whatever name. `MetadataInvalid`
    /// where it has another member than `chunk_shape`, which is a list of positive numbers,
    /// `codecs` and `index_codecs`, which are lists of extension points, and perhaps
    /// `index_location`, which is `start` or `end`, and `end` where it isn't there; `Memory` where
    /// an allocation failed.
    pub fn from_metadata(
        alloc: Global,
        metadata: &MetadataV3,
    ) -> Result<ShardingCodecConfiguration, PluginCreateError>
        ensures ok { IfOk result (λ configuration.
            shard_points_in (configuration_members (point_of metadata.now).configuration)
            ≡ Some (shard_points configuration)) }
        ensures err { IfErr result (λ e. e ≢ PluginCreateError.Memory →
            shard_points_in (configuration_members (point_of metadata.now).configuration)
            ≡ None) }
        ensures cause { IfErr result
            (λ e. e ≢ PluginCreateError.Memory → e ≡ PluginCreateError.MetadataInvalid) }
    {
        match metadata.configuration() {
            Some(members) => read_members(alloc, members),
            None => Err(PluginCreateError::MetadataInvalid),
        }
    }

    /// The metadata of `sharding_indexed`, of which `from_metadata` makes an equal configuration.
    /// `Err` only where an allocation failed.
    pub fn metadata(&self, alloc: Global) -> Result<MetadataV3, AllocError>
        ensures written { IfOk result
            (λ metadata. point_of metadata ≡ shard_point (shard_points self.now)) }
        ensures reads_back { IfOk result (λ metadata.
            shard_points_in (configuration_members (point_of metadata).configuration)
            ≡ Some (shard_points self.now)) }
    {
        let members = members_of(alloc, self)?;
        let name = String::from_str(alloc, "sharding_indexed")?;
        Ok(MetadataV3::new_with_configuration(name, members))
    }
}
