//! The chains that arrays have.
ghost use Rattle.std.specs.Prelude.{◌≡◌, ◌≢◌, Some, None, map, true, false, IfOk, IfErr};
ghost use Rattle.zarr_grids_metadata.specs.Views.{point_of};
ghost use Rattle.zarr_sharding_metadata.specs.Metadata.{array_chain_of};
ghost use Rattle.zarr_sharding_metadata.specs.Nesting.{shard_stands, shards_nest};
ghost use Rattle.zarr_sharding_chains.specs.ArrayChains.{array_meaning};
ghost use Rattle.zarr_sharding_chains.specs.Metadata.{NamesArray};
ghost use Rattle.zarr_sharding_chains.specs.Refusals.{RefusesArray};

use crate::nesting::shards_nest;
use crate::sharded_chain::ShardedChain;
use std::alloc::{AllocError, Global};
use zarr_codecs_chains::chain_metadata::shard_stands;
use zarr_codecs_chains::{CodecChain, any_too_deep, read_allowed};
use zarr_codecs_traits::BytesToBytesCodecTraits;
use zarr_grids_metadata::{MetadataV3, PluginCreateError};
use zarr_sharding_inner::ChainOfMetadata;

/// The codec chain of an array: one without shards, one with a shard, or one with a shard whose
/// subchunks are shards.
#[derive(Debug, Drop)]
pub enum ArrayChain<B: BytesToBytesCodecTraits> {
    /// A chain without shards.
    Plain(CodecChain<B>),
    /// A chain with a shard, in whose subchunks there is none.
    Sharded(ShardedChain<B, CodecChain<B>>),
    /// A chain with a shard, whose subchunks have a shard each, in whose subchunks there is none.
    Nested(ShardedChain<B, ShardedChain<B, CodecChain<B>>>),
}

impl<B: BytesToBytesCodecTraits> ArrayChain<B> {
    ghost use Rattle.std.specs.Prelude.{◌≡◌, ◌≢◌, ◌⊎◌, Some, None, map, true, false, IfOk, IfErr};
    ghost use Rattle.zarr_grids_metadata.specs.Views.{point_of};
    ghost use Rattle.zarr_codecs_metadata.specs.Allowed.{is_allowed};
    ghost use Rattle.zarr_codecs_metadata.specs.Chains.{any_too_deep};
    ghost use Rattle.zarr_sharding_metadata.specs.Metadata.{array_chain_of};
    ghost use Rattle.zarr_sharding_chains.specs.ArrayChains.{array_meaning};
    ghost use Rattle.zarr_sharding_chains.specs.Metadata.{NamesArray, array_chain_points};
    ghost use Rattle.zarr_sharding_chains.specs.Refusals.{RefusesReadArray};

    /// The chain that the metadata of its codecs names and describes, in their order, with all
    /// chains inside of them, each codec under the name that it has there. `TooDeep`, before all
    /// else, where one of them nests deeper than 127 levels, as `CodecChain::from_metadata` counts
    /// them. Else the first codec that is refused decides: `NameUnsupported` where its name is that
    /// of none; `MetadataInvalid` where its configuration is not one of its name's, or where no
    /// array to bytes codec stands after the array to array codecs; a caller's codec is refused as
    /// its `create` answers. A shard's configuration comes before the codecs in it, those of its
    /// subchunks before those of its index, and both before the caller's codecs after it. `TooDeep`
    /// also where a shard stands in the subchunks of a shard that stands in those of another; no
    /// shard has a name that is known in an index, in `vlen` or in `optional`. `MetadataInvalid`
    /// also where an array to array codec stands where none may, as `CodecChain::from_metadata`
    /// says; `Memory` where an allocation failed.
    pub fn from_metadata(
        alloc: Global,
        codecs: &[MetadataV3],
    ) -> Result<ArrayChain<B>, PluginCreateError>
        ensures ok { IfOk result (λ chain.
            array_chain_of B.reads (map point_of codecs.now)
            ≡ Some (array_meaning B.meaning chain)) }
        ensures names { IfOk result (λ chain. NamesArray chain (map point_of codecs.now)) }
        ensures shallow { IfOk result (λ _. any_too_deep (map point_of codecs.now) ≡ false) }
        ensures err { IfErr result (λ e. e ≢ PluginCreateError.Memory →
            (any_too_deep (map point_of codecs.now) ≡ true)
            ⊎ (array_chain_of B.reads (map point_of codecs.now) ≡ None)) }
        ensures refused { IfErr result (λ e. e ≢ PluginCreateError.Memory →
            RefusesReadArray B.reads (map point_of codecs.now) e) }
    {
        if any_too_deep(codecs) {
            return Err(PluginCreateError::TooDeep);
        }
        read_array_chain(alloc, codecs)
    }

    /// The metadata of the codecs under the names that they keep, of which `from_metadata` makes an
    /// equal chain where array to array codecs stand only where they may: in any chain that it
    /// made, and in any that is made of chains that `CodecChain::from_metadata` or
    /// `CodecChain::new` made, as these say. An equal chain is read again only if it nests no
    /// deeper than 127 levels as it is written. `Err` only where an allocation failed.
    pub fn create_metadatas(&self, alloc: Global) -> Result<Vec<MetadataV3>, AllocError>
        ensures written { IfOk result (λ codecs.
            map point_of codecs.items ≡ array_chain_points B.described self.now) }
        ensures made_again { is_allowed (array_meaning B.meaning self.now) ≡ true → IfOk result
            (λ codecs. array_chain_of B.reads (map point_of codecs.items)
            ≡ Some (array_meaning B.meaning self.now)) }
    {
        match self {
            ArrayChain::Plain(chain) => chain.create_metadatas(alloc),
            ArrayChain::Sharded(chain) => chain.codec_metadatas(alloc),
            ArrayChain::Nested(chain) => chain.codec_metadatas(alloc),
        }
    }
}

/// The chain that metadata says. It is read as `ArrayChain::from_metadata` does, but how deep the
/// metadata nests isn't tested: the caller has done so, of the whole document.
pub fn read_array_chain<B: BytesToBytesCodecTraits>(
    alloc: Global,
    codecs: &[MetadataV3],
) -> Result<ArrayChain<B>, PluginCreateError>
    ensures ok { IfOk result (λ chain.
        array_chain_of B.reads (map point_of codecs.now)
        ≡ Some (array_meaning B.meaning chain)) }
    ensures names { IfOk result (λ chain. NamesArray chain (map point_of codecs.now)) }
    ensures err { IfErr result (λ e. e ≢ PluginCreateError.Memory →
        array_chain_of B.reads (map point_of codecs.now) ≡ None) }
    ensures refused { IfErr result (λ e. e ≢ PluginCreateError.Memory →
        RefusesArray B.reads (map point_of codecs.now) e) }
{
    let stands = shard_stands(alloc, codecs)?;
    if !stands {
        return read_plain(alloc, codecs);
    }
    let nest = shards_nest(alloc, codecs)?;
    if nest {
        return read_nested(alloc, codecs);
    }
    read_sharded(alloc, codecs)
}

/// The chain of metadata that names no shard.
fn read_plain<B: BytesToBytesCodecTraits>(
    alloc: Global,
    codecs: &[MetadataV3],
) -> Result<ArrayChain<B>, PluginCreateError>
    ensures ok { IfOk result (λ chain. array_chain_of B.reads (map point_of codecs.now)
        ≡ Some (array_meaning B.meaning chain)) }
    ensures names { IfOk result (λ chain. NamesArray chain (map point_of codecs.now)) }
    ensures err { shard_stands (map point_of codecs.now) ≡ false
        → IfErr result (λ e. e ≢ PluginCreateError.Memory →
        array_chain_of B.reads (map point_of codecs.now) ≡ None) }
    ensures refused { shard_stands (map point_of codecs.now) ≡ false
        → IfErr result (λ e. e ≢ PluginCreateError.Memory →
        RefusesArray B.reads (map point_of codecs.now) e) }
{
    match read_allowed(alloc, codecs) {
        Ok(chain) => Ok(ArrayChain::Plain(chain)),
        Err(error) => Err(error),
    }
}

/// The chain of metadata that names a shard, in whose subchunks none is named.
fn read_sharded<B: BytesToBytesCodecTraits>(
    alloc: Global,
    codecs: &[MetadataV3],
) -> Result<ArrayChain<B>, PluginCreateError>
    ensures ok { IfOk result (λ chain. array_chain_of B.reads (map point_of codecs.now)
        ≡ Some (array_meaning B.meaning chain)) }
    ensures names { IfOk result (λ chain. NamesArray chain (map point_of codecs.now)) }
    ensures err { shard_stands (map point_of codecs.now) ≡ true
        → shards_nest (map point_of codecs.now) ≡ false
        → IfErr result (λ e. e ≢ PluginCreateError.Memory →
        array_chain_of B.reads (map point_of codecs.now) ≡ None) }
    ensures refused { shard_stands (map point_of codecs.now) ≡ true
        → shards_nest (map point_of codecs.now) ≡ false
        → IfErr result (λ e. e ≢ PluginCreateError.Memory →
        RefusesArray B.reads (map point_of codecs.now) e) }
{
    match ShardedChain::read_metadata(alloc, codecs) {
        Ok(chain) => Ok(ArrayChain::Sharded(chain)),
        Err(error) => Err(error),
    }
}

/// The chain of metadata that names a shard, in whose subchunks one is named.
fn read_nested<B: BytesToBytesCodecTraits>(
    alloc: Global,
    codecs: &[MetadataV3],
) -> Result<ArrayChain<B>, PluginCreateError>
    ensures ok { IfOk result (λ chain. array_chain_of B.reads (map point_of codecs.now)
        ≡ Some (array_meaning B.meaning chain)) }
    ensures names { IfOk result (λ chain. NamesArray chain (map point_of codecs.now)) }
    ensures err { shard_stands (map point_of codecs.now) ≡ true
        → shards_nest (map point_of codecs.now) ≡ true
        → IfErr result (λ e. e ≢ PluginCreateError.Memory →
        array_chain_of B.reads (map point_of codecs.now) ≡ None) }
    ensures refused { shard_stands (map point_of codecs.now) ≡ true
        → shards_nest (map point_of codecs.now) ≡ true
        → IfErr result (λ e. e ≢ PluginCreateError.Memory →
        RefusesArray B.reads (map point_of codecs.now) e) }
{
    match ShardedChain::read_metadata(alloc, codecs) {
        Ok(chain) => Ok(ArrayChain::Nested(chain)),
        Err(error) => Err(error),
    }
}
