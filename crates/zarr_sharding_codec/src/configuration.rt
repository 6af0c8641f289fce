//! Shards as their configurations give them.
ghost use Rattle.std.specs.Prelude.{◌≡◌, ◌≢◌, Some, None, IfOk, IfErr};
ghost use Rattle.zarr_codecs_options.specs.declared.subchunk_write_order.SubchunkWriteOrder.TheVariants as order;
ghost use Rattle.zarr_sharding_configurations.specs.Views.{shard_points};
ghost use Rattle.zarr_sharding_metadata.specs.Metadata.{shard_of};
ghost use Rattle.zarr_sharding_codec.specs.Configured.{RefusesShard, shard_too_deep};
ghost use Rattle.zarr_sharding_codec.specs.Views.{index_of, inner_of, order_of, shard_chain};

use crate::codec::ShardingCodec;
use std::alloc::{AllocError, Global};
use zarr_codecs_configurations::any_too_deep;
use zarr_grids_metadata::PluginCreateError;
use zarr_sharding_configurations::ShardingCodecConfiguration;
use zarr_sharding_inner::{ChainOfMetadata, IndexChainOfMetadata};

impl<I: ChainOfMetadata, X: IndexChainOfMetadata> ShardingCodec<I, X> {
    ghost use Rattle.std.specs.Prelude.{◌≡◌, ◌≢◌, ◌⊎◌, Some, None, true, false, IfOk, IfErr};
    ghost use Rattle.zarr_codecs_metadata.specs.Allowed.{is_allowed};
    ghost use Rattle.zarr_codecs_options.specs.declared.subchunk_write_order.SubchunkWriteOrder.TheVariants as order;
    ghost use Rattle.zarr_sharding_configurations.specs.Views.{shard_points};
    ghost use Rattle.zarr_sharding_metadata.specs.Metadata.{shard_of};
    ghost use Rattle.zarr_sharding_codec.specs.Configured.{RefusesReadShard, given_to_shard, shard_too_deep};
    ghost use Rattle.zarr_sharding_codec.specs.Views.{index_of, inner_of, order_of, shard_chain};

    /// The shard that a configuration gives, its subchunks written in any order, without gaps.
    /// `TooDeep`, before all else, where one of its codecs, for the subchunks or the index, nests
    /// deeper than `CodecChain::from_metadata` reads. The codecs of its subchunks are refused as
    /// `I` refuses them, and then those of its index as `X` does. `Memory` where an allocation
    /// failed.
    pub fn new_with_configuration(
        alloc: Global,
        configuration: &ShardingCodecConfiguration,
    ) -> Result<ShardingCodec<I, X>, PluginCreateError>
        ensures ok { IfOk result (λ codec.
            shard_of I.reads X.reads (shard_points configuration.now)
            ≡ Some (shard_chain I.meaning X.meaning codec)) }
        ensures order { IfOk result (λ codec. order_of codec ≡ order.Unordered) }
        ensures inner_names { IfOk result
            (λ codec. I.names (inner_of codec) (shard_points configuration.now).inner) }
        ensures index_names { IfOk result
            (λ codec. X.names (index_of codec) (shard_points configuration.now).index) }
        ensures shallow { IfOk result
            (λ _. shard_too_deep (shard_points configuration.now) ≡ false) }
        ensures err { IfErr result (λ e. e ≢ PluginCreateError.Memory →
            (shard_too_deep (shard_points configuration.now) ≡ true)
            ⊎ (shard_of I.reads X.reads (shard_points configuration.now) ≡ None)) }
        ensures refused { IfErr result (λ e. e ≢ PluginCreateError.Memory →
            RefusesReadShard I.reads I.refuses X.refuses (shard_points configuration.now) e) }
    {
        if shard_too_deep(configuration) {
            return Err(PluginCreateError::TooDeep);
        }
        read_allowed_shard(alloc, configuration)
    }

    /// What the codec is configured by, of which `new_with_configuration` makes an equal codec
    /// where array to array codecs stand only where they may. An equal codec is made again only if
    /// those inside of it nest no deeper than 127 levels as they are written. `Err` only where an
    /// allocation failed.
    pub fn configuration(&self, alloc: Global) -> Result<ShardingCodecConfiguration, AllocError>
        ensures given { IfOk result (λ configuration. shard_points configuration
            ≡ given_to_shard I.described X.described self.now) }
        ensures made_again { is_allowed (shard_chain I.meaning X.meaning self.now)
            ≡ true → IfOk result (λ configuration.
            shard_of I.reads X.reads (shard_points configuration)
            ≡ Some (shard_chain I.meaning X.meaning self.now)) }
    {
        let chunk_shape = self.subchunk_shape.try_clone(alloc)?;
        let codecs = self.inner_codecs.codec_metadatas(alloc)?;
        let index_codecs = self.index_codecs.index_metadatas(alloc)?;
        Ok(ShardingCodecConfiguration {
            chunk_shape,
            codecs,
            index_codecs,
            index_location: self.index_location,
        })
    }
}

/// Whether a codec that a shard is configured by nests deeper than is read.
fn shard_too_deep(configuration: &ShardingCodecConfiguration) -> bool
    ensures { result ≡ shard_too_deep (shard_points configuration.now) }
{
    let subchunks = configuration.codecs.as_slice();
    let index_codecs = configuration.index_codecs.as_slice();
    any_too_deep(subchunks) || any_too_deep(index_codecs)
}

/// The shard that a configuration gives, for one of codecs whose depth was tested, as those of a
/// document are. It refuses as `ShardingCodec::new_with_configuration` does, except for the
/// `TooDeep` that comes there before all else.
pub fn read_allowed_shard<I: ChainOfMetadata, X: IndexChainOfMetadata>(
    alloc: Global,
    configuration: &ShardingCodecConfiguration,
) -> Result<ShardingCodec<I, X>, PluginCreateError>
    ensures ok { IfOk result (λ codec.
        shard_of I.reads X.reads (shard_points configuration.now)
        ≡ Some (shard_chain I.meaning X.meaning codec)) }
    ensures order { IfOk result (λ codec. order_of codec ≡ order.Unordered) }
    ensures inner_names { IfOk result
        (λ codec. I.names (inner_of codec) (shard_points configuration.now).inner) }
    ensures index_names { IfOk result
        (λ codec. X.names (index_of codec) (shard_points configuration.now).index) }
    ensures err { IfErr result (λ e. e ≢ PluginCreateError.Memory →
        shard_of I.reads X.reads (shard_points configuration.now) ≡ None) }
    ensures refused { IfErr result (λ e. e ≢ PluginCreateError.Memory →
        RefusesShard I.reads I.refuses X.refuses (shard_points configuration.now) e) }
{
    let inner = configuration.codecs.as_slice();
    let inner_codecs = match I::read_metadata(alloc, inner) {
        Ok(inner_codecs) => inner_codecs,
        Err(error) => return Err(error),
    };
    let index = configuration.index_codecs.as_slice();
    let index_codecs = match X::read_index_metadata(alloc, index) {
        Ok(index_codecs) => index_codecs,
        Err(error) => return Err(error),
    };
    let subchunk_shape = configuration.chunk_shape.try_clone(alloc)?;
    Ok(ShardingCodec::new(
        subchunk_shape,
        inner_codecs,
        index_codecs,
        configuration.index_location,
    ))
}
