//! Chains without shards, as those of a shard's subchunks and as that of its index, read from the
//! metadata of their codecs.
ghost use Rattle.std.specs.Prelude.{◌≡◌, map, IfOk};
ghost use Rattle.zarr_grids_metadata.specs.Views.{point_of};
ghost use Rattle.zarr_sharding_metadata.specs.Nesting.{shard_stands};
ghost use Rattle.zarr_sharding_metadata.specs.Metadata.{names_shard};

use crate::chain::CodecChain;
use crate::reading::read_allowed;
use std::alloc::{AllocError, Global};
use zarr_codecs_array_to_array::ArrayToArrayCodec;
use zarr_codecs_traits::BytesToBytesCodecTraits;
use zarr_grids_metadata::{MetadataV3, PluginCreateError};
use zarr_sharding_inner::{ChainOfMetadata, IndexChainOfMetadata};

impl<B: BytesToBytesCodecTraits> ChainOfMetadata for CodecChain<B> {
    ghost use Rattle.zarr_codecs_metadata.specs.Chains.{allowed_chain};
    ghost use Rattle.zarr_codecs_chains.specs.Names.{NamesChain};
    ghost use Rattle.zarr_codecs_chains.specs.Views.{points_of};
    ghost use Rattle.zarr_codecs_chains.specs.Plain.{RefusesPlain};

    ghost reads = { allowed_chain B.reads };

    ghost refuses = { RefusesPlain B.reads };

    ghost names = { λ chain points. NamesChain chain points };

    ghost described = { points_of B.described };

    fn read_metadata(
        alloc: Global,
        codecs: &[MetadataV3],
    ) -> Result<CodecChain<B>, PluginCreateError> {
        let stands = shard_stands(alloc, codecs)?;
        if stands {
            return Err(PluginCreateError::TooDeep);
        }
        read_allowed(alloc, codecs)
    }

    fn codec_metadatas(&self, alloc: Global) -> Result<Vec<MetadataV3>, AllocError> {
        self.create_metadatas(alloc)
    }
}

impl<B: BytesToBytesCodecTraits> IndexChainOfMetadata for CodecChain<B> {
    ghost use Rattle.zarr_codecs_metadata.specs.Chains.{allowed_chain};
    ghost use Rattle.zarr_codecs_chains.specs.Names.{NamesChain};
    ghost use Rattle.zarr_codecs_chains.specs.Refusals.{RefusesChain};
    ghost use Rattle.zarr_codecs_chains.specs.Views.{points_of};

    ghost reads = { allowed_chain B.reads };

    ghost refuses = { RefusesChain B.reads };

    ghost names = { λ chain points. NamesChain chain points };

    ghost described = { points_of B.described };

    fn read_index_metadata(
        alloc: Global,
        codecs: &[MetadataV3],
    ) -> Result<CodecChain<B>, PluginCreateError> {
        read_allowed(alloc, codecs)
    }

    fn index_metadatas(&self, alloc: Global) -> Result<Vec<MetadataV3>, AllocError> {
        self.create_metadatas(alloc)
    }
}

/// Whether metadata names a shard after the array to array codecs that it begins with. `Err` only
/// where an allocation failed.
pub fn shard_stands(alloc: Global, codecs: &[MetadataV3]) -> Result<bool, AllocError>
    ensures { IfOk result (λ stands. stands ≡ shard_stands (map point_of codecs.now)) }
{
    for metadata in codecs {
        match ArrayToArrayCodec::from_metadata(alloc, metadata) {
            Ok(_codec) => {}
            Err(PluginCreateError::Memory) => return Err(AllocError),
            Err(_other) => return Ok(names_shard(metadata.name())),
        }
    }
    Ok(false)
}

fn names_shard(name: &str) -> bool
    ensures { result ≡ names_shard name.now }
{
    name == "sharding_indexed"
}
