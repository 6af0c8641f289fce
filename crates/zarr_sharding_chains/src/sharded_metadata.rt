//! Chains of codecs around a shard read from the metadata of their codecs, and written as it.
ghost use Rattle.std.specs.Prelude.{◌≡◌, ◌≢◌, List, [], ◌∷◌, ◌++◌, Some, None, map, true, false, IfOk, IfErr};
ghost use Rattle.zarr_grids_metadata.specs.ExtensionPoints as points;
ghost use Rattle.zarr_grids_metadata.specs.Views.{point_of, point_view};
ghost use Rattle.zarr_codecs_metadata.specs.Allowed.{is_allowed};
ghost use Rattle.zarr_codecs_metadata.specs.Chains.{bytes_chain_by};
ghost use Rattle.zarr_codecs_array_to_array.specs.Refusals.{names_array_codec};
ghost use Rattle.zarr_codecs_around.specs.ArrayMetadata.{begins_with_array_codec};
ghost use Rattle.zarr_codecs_around.specs.ThenBytes.{codec_of, then_meaning};
ghost use Rattle.zarr_codecs_chains.specs.Names.{NameAll};
ghost use Rattle.zarr_codecs_chains.specs.Views.{meaning_of};
ghost use Rattle.zarr_sharding_metadata.specs.Nesting.{shard_in, sharded_chain_of};
ghost use Rattle.zarr_sharding_codec.specs.Views.{shard_chain};
ghost use Rattle.zarr_sharding_chains.specs.Metadata.{NamesShard, NamesSharded, sharding_point};
ghost use Rattle.zarr_sharding_chains.specs.Refusals.{RefusesFirst, RefusesSharded};
ghost use Rattle.zarr_sharding_chains.specs.Views.{sharded_meaning};

use crate::nesting::names_shard;
use crate::sharded_chain::ShardedChain;
use std::alloc::{AllocError, Global};
use zarr_codecs_around::ThenBytes;
use zarr_codecs_around::array_metadata::{
    array_metadatas, first_array_codecs, points_of, rest_after,
};
use zarr_codecs_around::byte_metadata::{push_metadatas, read_codecs};
use zarr_codecs_chains::CodecChain;
use zarr_codecs_traits::BytesToBytesCodecTraits;
use zarr_grids_metadata::{ExtensionPoint, MetadataV3, PluginCreateError};
use zarr_sharding_codec::configuration::read_allowed_shard;
use zarr_sharding_codec::{ShardingCodec, ShardingCodecConfiguration};
use zarr_sharding_inner::{ChainOfMetadata, InnerCodec};

impl<B: BytesToBytesCodecTraits, I: InnerCodec + ChainOfMetadata> ChainOfMetadata
    for ShardedChain<B, I> {
    ghost use Rattle.zarr_sharding_metadata.specs.Nesting.{sharded_chain_of};
    ghost use Rattle.zarr_sharding_chains.specs.Metadata.{NamesSharded, sharded_points};
    ghost use Rattle.zarr_sharding_chains.specs.Refusals.{RefusesSharded};

    ghost reads = { sharded_chain_of B.reads I.reads };

    ghost refuses = { RefusesSharded B.reads I.reads I.refuses };

    ghost names = { λ chain points. NamesSharded I.names chain points };

    ghost described = { sharded_points I.described B.described };

    fn read_metadata(
        alloc: Global,
        codecs: &[MetadataV3],
    ) -> Result<ShardedChain<B, I>, PluginCreateError> {
        let points = points_of(alloc, codecs)?;
        read_points(alloc, points.as_slice())
    }

    fn codec_metadatas(&self, alloc: Global) -> Result<Vec<MetadataV3>, AllocError> {
        let arrays = array_metadatas(alloc, self.array_to_array.as_slice())?;
        let shard = shard_metadata(self.others.array_to_bytes_codec(), alloc)?;
        with_others(arrays, alloc, shard, self.others.bytes_to_bytes_codecs())
    }
}

/// The chain around a shard that metadata says.
fn read_points<B: BytesToBytesCodecTraits, I: InnerCodec + ChainOfMetadata>(
    alloc: Global,
    codecs: &[ExtensionPoint<'_>],
) -> Result<ShardedChain<B, I>, PluginCreateError>
    ensures ok { IfOk result (λ chain.
        sharded_chain_of B.reads I.reads (map point_view codecs.now)
        ≡ Some (sharded_meaning I.meaning B.meaning chain)) }
    ensures names { IfOk result
        (λ chain. NamesSharded I.names chain (map point_view codecs.now)) }
    ensures err { IfErr result (λ e. e ≢ PluginCreateError.Memory →
        sharded_chain_of B.reads I.reads (map point_view codecs.now) ≡ None) }
    ensures refused { IfErr result (λ e. e ≢ PluginCreateError.Memory →
        RefusesSharded B.reads I.reads I.refuses (map point_view codecs.now) e) }
{
    let array_to_array = match first_array_codecs(alloc, codecs) {
        Ok(array_to_array) => array_to_array,
        Err(error) => return Err(error),
    };
    match read_others(alloc, rest_after(codecs, array_to_array.as_slice())) {
        Ok(others) => Ok(ShardedChain {
            array_to_array,
            others,
        }),
        Err(error) => Err(error),
    }
}

/// A shard, and the caller's codecs after it, of metadata without array to array codecs.
fn read_others<B: BytesToBytesCodecTraits, I: InnerCodec + ChainOfMetadata>(
    alloc: Global,
    codecs: &[ExtensionPoint<'_>],
) -> Result<ThenBytes<ShardingCodec<I, CodecChain<B>>, B>, PluginCreateError>
    ensures ok { IfOk result (λ others.
        bytes_chain_by B.reads (shard_in B.reads I.reads) (map point_view codecs.now)
        ≡ Some (then_meaning (shard_chain I.meaning (meaning_of B.meaning)) B.meaning others)) }
    ensures names { IfOk result
        (λ others. NameAll [] (NamesShard I.names (codec_of others)) (map point_view codecs.now)) }
    ensures err { IfErr result (λ e. e ≢ PluginCreateError.Memory →
        bytes_chain_by B.reads (shard_in B.reads I.reads) (map point_view codecs.now) ≡ None) }
    ensures refused { begins_with_array_codec (map point_view codecs.now) ≡ false
        → IfErr result (λ e. e ≢ PluginCreateError.Memory →
        RefusesFirst B.reads I.reads I.refuses (map point_view codecs.now) e) }
{
    let Some((first, others)) = codecs.split_first() else {
        return Err(PluginCreateError::MetadataInvalid);
    };
    let shard = match read_shard(alloc, *first) {
        Ok(shard) => shard,
        Err(error) => return Err(error),
    };
    match read_codecs(alloc, others) {
        Ok(bytes_to_bytes) => Ok(ThenBytes::new(shard, bytes_to_bytes)),
        Err(error) => Err(error),
    }
}

/// The shard that metadata names and describes.
fn read_shard<B: BytesToBytesCodecTraits, I: ChainOfMetadata>(
    alloc: Global,
    point: ExtensionPoint<'_>,
) -> Result<ShardingCodec<I, CodecChain<B>>, PluginCreateError>
    ensures ok { IfOk result (λ codec. shard_in B.reads I.reads (point_view point.entry)
        ≡ Some (shard_chain I.meaning (meaning_of B.meaning) codec)) }
    ensures names { IfOk result (λ codec. NamesShard I.names codec (point_view point.entry)) }
    ensures err { IfErr result (λ e. e ≢ PluginCreateError.Memory →
        shard_in B.reads I.reads (point_view point.entry) ≡ None) }
    ensures refused { names_array_codec (point_view point.entry).name ≡ false
        → IfErr result (λ e. e ≢ PluginCreateError.Memory → (points : List points.ExtensionPoint)
        → RefusesFirst B.reads I.reads I.refuses (point_view point.entry ∷ points) e) }
{
    if !names_shard(point.name) {
        return Err(PluginCreateError::NameUnsupported);
    }
    let metadata = MetadataV3::from_point(alloc, point)?;
    let configuration = match ShardingCodecConfiguration::from_metadata(alloc, &metadata) {
        Ok(configuration) => configuration,
        Err(error) => return Err(error),
    };
    read_allowed_shard(alloc, &configuration)
}

/// The metadata of a shard, which is read back where array codecs stand only where they may.
fn shard_metadata<B: BytesToBytesCodecTraits, I: ChainOfMetadata>(
    codec: &ShardingCodec<I, CodecChain<B>>,
    alloc: Global,
) -> Result<MetadataV3, AllocError>
    ensures written { IfOk result
        (λ metadata. point_of metadata ≡ sharding_point I.described B.described codec.now) }
    ensures made_again { is_allowed (shard_chain I.meaning (meaning_of B.meaning) codec.now)
        ≡ true → IfOk result (λ metadata. shard_in B.reads I.reads (point_of metadata)
        ≡ Some (shard_chain I.meaning (meaning_of B.meaning) codec.now)) }
{
    let configuration = codec.configuration(alloc)?;
    configuration.metadata(alloc)
}

/// The metadata of array codecs, and after it that of a shard and of the caller's codecs.
fn with_others<B: BytesToBytesCodecTraits>(
    arrays: Vec<MetadataV3>,
    alloc: Global,
    shard: MetadataV3,
    bytes_to_bytes: &[B],
) -> Result<Vec<MetadataV3>, AllocError>
    ensures { IfOk result (λ codecs. map point_of codecs.items ≡ map point_of arrays.items
        ++ (point_of shard ∷ map B.described bytes_to_bytes.now)) }
{
    let mut codecs = arrays;
    codecs.push(shard)?;
    push_metadatas(&mut codecs, alloc, bytes_to_bytes)?;
    Ok(codecs)
}
