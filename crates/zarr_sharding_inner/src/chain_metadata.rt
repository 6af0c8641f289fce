//! Chains that are read from the metadata of their codecs.
ghost use Rattle.std.specs.Prelude.{◌≡◌, ◌≢◌, List, Option, Some, None, map, true, IfOk, IfErr};
ghost use Rattle.zarr_grids_metadata.specs.ExtensionPoints.{ExtensionPoint};
ghost use Rattle.zarr_grids_metadata.specs.Views.{point_of};
ghost use Rattle.zarr_grids_metadata.specs.declared.error.PluginCreateError.{PluginCreateError};
ghost use Rattle.zarr_codecs_meaning.specs.Chains.{Chain};
ghost use Rattle.zarr_codecs_metadata.specs.Allowed.{is_allowed};

use std::alloc::{AllocError, Global};
use zarr_codecs_traits::ArrayToBytesCodecTraits;
use zarr_grids_metadata::{MetadataV3, PluginCreateError};

/// A chain that is read from the metadata of its codecs, and written as it: the codecs of a shard's
/// subchunks.
pub trait ChainOfMetadata: ArrayToBytesCodecTraits {
    /// The chain of this kind that metadata says, if it says one.
    ghost reads: { List ExtensionPoint → Option Chain };

    /// Why metadata is refused.
    ghost refuses: { List ExtensionPoint → PluginCreateError → Type 0 };

    /// Whether the codecs have the names that stand in metadata.
    ghost names: { Self → List ExtensionPoint → Type 0 };

    /// The metadata of the codecs, in their order.
    ghost described: { Self → List ExtensionPoint };

    /// The chain that the metadata of its codecs says, in their order, each codec under the name
    /// that it has there, however deep it nests: who takes a caller's metadata tests the depth
    /// first. The first codec that is refused decides: `NameUnsupported` where its name is that of
    /// none, `MetadataInvalid` where its configuration is not one of its name's, where no array to
    /// bytes codec stands after the array to array codecs, or where an array to array codec stands
    /// where none may; a caller's codec is refused as its `create` answers. `TooDeep` where a shard
    /// stands where chains of this kind have none; `Memory` where an allocation failed.
    fn read_metadata(alloc: Global, codecs: &[MetadataV3]) -> Result<Self, PluginCreateError>
        ensures ok { IfOk result
            (λ chain. reads (map point_of codecs.now) ≡ Some (Self.meaning chain)) }
        ensures names { IfOk result (λ chain. names chain (map point_of codecs.now)) }
        ensures err { IfErr result (λ e. e ≢ PluginCreateError.Memory
            → reads (map point_of codecs.now) ≡ None) }
        ensures refused { IfErr result (λ e. e ≢ PluginCreateError.Memory
            → refuses (map point_of codecs.now) e) };

    /// The metadata of the codecs under the names that they keep, of which `read_metadata` makes an
    /// equal chain where array to array codecs stand only where they may. `Err` only where an
    /// allocation failed.
    fn codec_metadatas(&self, alloc: Global) -> Result<Vec<MetadataV3>, AllocError>
        ensures written { IfOk result
            (λ codecs. map point_of codecs.items ≡ described self.now) }
        ensures made_again { is_allowed (Self.meaning self.now) ≡ true → IfOk result
            (λ codecs. reads (map point_of codecs.items) ≡ Some (Self.meaning self.now)) };
}

/// A chain that is read from the metadata of its codecs, and written as it: the codecs of a shard's
/// index. A shard doesn't stand there, and is refused by its name.
pub trait IndexChainOfMetadata: ArrayToBytesCodecTraits {
    /// The chain of this kind that metadata says, if it says one.
    ghost reads: { List ExtensionPoint → Option Chain };

    /// Why metadata is refused.
    ghost refuses: { List ExtensionPoint → PluginCreateError → Type 0 };

    /// Whether the codecs have the names that stand in metadata.
    ghost names: { Self → List ExtensionPoint → Type 0 };

    /// The metadata of the codecs, in their order.
    ghost described: { Self → List ExtensionPoint };

    /// The chain that the metadata of its codecs says, in their order, each codec under the name
    /// that it has there, however deep it nests: who takes a caller's metadata tests the depth
    /// first. It refuses as `ChainOfMetadata::read_metadata` does, but a shard is `NameUnsupported`
    /// here. `Memory` where an allocation failed.
    fn read_index_metadata(alloc: Global, codecs: &[MetadataV3]) -> Result<Self, PluginCreateError>
        ensures ok { IfOk result
            (λ chain. reads (map point_of codecs.now) ≡ Some (Self.meaning chain)) }
        ensures names { IfOk result (λ chain. names chain (map point_of codecs.now)) }
        ensures err { IfErr result (λ e. e ≢ PluginCreateError.Memory
            → reads (map point_of codecs.now) ≡ None) }
        ensures refused { IfErr result (λ e. e ≢ PluginCreateError.Memory
            → refuses (map point_of codecs.now) e) };

    /// The metadata of the codecs under the names that they keep, of which `read_index_metadata`
    /// makes an equal chain where array to array codecs stand only where they may. `Err` only where
    /// an allocation failed.
    fn index_metadatas(&self, alloc: Global) -> Result<Vec<MetadataV3>, AllocError>
        ensures written { IfOk result
            (λ codecs. map point_of codecs.items ≡ described self.now) }
        ensures made_again { is_allowed (Self.meaning self.now) ≡ true → IfOk result
            (λ codecs. reads (map point_of codecs.items) ≡ Some (Self.meaning self.now)) };
}
