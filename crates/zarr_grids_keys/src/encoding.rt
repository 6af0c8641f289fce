//! The encodings of chunk keys.
ghost use Rattle.std.specs.Prelude.{◌≡◌, ◌≢◌, ◌++◌, OnOk, IfOk, IfErr, Ok, Err};
ghost use Rattle.std.specs.String.{string_bytes};
ghost use Rattle.serde_json.specs.View.{members_view};
ghost use Rattle.zarr_grids_keys.specs.declared.encoding.ChunkKeyEncoding.TheVariants.{Default, V2, DefaultSuffix};
ghost use Rattle.zarr_grids_keys.specs.EncodingMetadata.{keys_made, members_of, point_of_keys};
ghost use Rattle.zarr_grids_keys.specs.Encodings.{default_keys, v2_keys, suffixed_keys, keys_of};
ghost use Rattle.zarr_grids_keys.specs.Keys.{KeyEncoding, encoded_key, has_flat_suffix};
ghost use Rattle.zarr_grids_metadata.specs.Views.{point_of};

use crate::default_encoding::DefaultChunkKeyEncoding;
use crate::default_suffix_encoding::DefaultSuffixChunkKeyEncoding;
use crate::numbers::longest_key;
use crate::v2_encoding::V2ChunkKeyEncoding;
use serde_json::{Map, Value};
use std::alloc::{AllocError, Global};
use zarr_grids_metadata::{MetadataV3, PluginCreateError};

/// What each encoding of chunk keys does, for code that takes any of them.
pub trait ChunkKeyEncodingTraits {
    ghost keys: { Self → KeyEncoding };

    /// The encoded key of a chunk.
    fn encode(&self, alloc: Global, chunk: &[u64]) -> Result<String, AllocError>
        ensures { IfOk result (λ key. string_bytes key ≡ encoded_key (keys self.now) chunk.now) };
}

/// How the index of a chunk becomes a key (Zarr core specification, "Chunk key encoding").
#[derive(Debug, PartialEq, Eq, Drop)]
pub enum ChunkKeyEncoding {
    Default(DefaultChunkKeyEncoding),
    V2(V2ChunkKeyEncoding),
    DefaultSuffix(DefaultSuffixChunkKeyEncoding),
}

impl ChunkKeyEncoding {
    /// The encoding that metadata names and describes: `default`, `v2`, or `default_suffix`, also
    /// named `zarrs.default_suffix`. `NameUnsupported` where it has another name, `MetadataInvalid`
    /// where its configuration is not one of that name, `Memory` where an allocation failed.
    pub fn from_metadata(alloc: Global, metadata: &MetadataV3) -> Result<Self, PluginCreateError>
        ensures ok { IfOk result
            (λ encoding. keys_made (point_of metadata.now) ≡ Ok (keys_of encoding)) }
        ensures err { IfErr result (λ e. e ≢ PluginCreateError.Memory
            → keys_made (point_of metadata.now) ≡ Err e) }
    {
        match metadata.name() {
            "default" => match DefaultChunkKeyEncoding::create(alloc, metadata) {
                Ok(encoding) => Ok(ChunkKeyEncoding::Default(encoding)),
                Err(error) => Err(error),
            },
            "v2" => match V2ChunkKeyEncoding::create(alloc, metadata) {
                Ok(encoding) => Ok(ChunkKeyEncoding::V2(encoding)),
                Err(error) => Err(error),
            },
            _ => match DefaultSuffixChunkKeyEncoding::create(alloc, metadata) {
                Ok(encoding) => Ok(ChunkKeyEncoding::DefaultSuffix(encoding)),
                Err(error) => Err(error),
            },
        }
    }

    /// The configuration of the encoding, with each field. `Err` only where an allocation failed.
    pub fn configuration(&self, alloc: Global) -> Result<Map<String, Value>, AllocError>
        ensures { IfOk result (λ members.
            members_view members.entries ≡ members_of (point_of_keys (keys_of self.now))) }
    {
        match self {
            ChunkKeyEncoding::Default(encoding) => encoding.configuration(alloc),
            ChunkKeyEncoding::V2(encoding) => encoding.configuration(alloc),
            ChunkKeyEncoding::DefaultSuffix(encoding) => encoding.configuration(alloc),
        }
    }

    /// The name and the configuration of the encoding, of which `from_metadata` makes it again.
    /// `Err` only where an allocation failed.
    pub fn metadata(&self, alloc: Global) -> Result<MetadataV3, AllocError>
        ensures written { IfOk result
            (λ metadata. point_of metadata ≡ point_of_keys (keys_of self.now)) }
        ensures reads_back { IfOk result
            (λ metadata. keys_made (point_of metadata) ≡ Ok (keys_of self.now)) }
    {
        match self {
            ChunkKeyEncoding::Default(encoding) => encoding.metadata(alloc),
            ChunkKeyEncoding::V2(encoding) => encoding.metadata(alloc),
            ChunkKeyEncoding::DefaultSuffix(encoding) => encoding.metadata(alloc),
        }
    }

    /// The encoded key of a chunk.
    pub fn encode(&self, alloc: Global, chunk: &[u64]) -> Result<String, AllocError>
        ensures { IfOk result (λ key. string_bytes key ≡ encoded_key (keys_of self.now) chunk.now) }
    {
        match self {
            ChunkKeyEncoding::Default(encoding) => encoding.encode(alloc, chunk),
            ChunkKeyEncoding::V2(encoding) => encoding.encode(alloc, chunk),
            ChunkKeyEncoding::DefaultSuffix(encoding) => encoding.encode(alloc, chunk),
        }
    }

    /// Writes the encoded key of a chunk after what a text has. An `Err` leaves a part of the key
    /// there.
    pub fn push_encoded(&self, key: &mut String, chunk: &[u64]) -> Result<(), AllocError>
        ensures { OnOk result (string_bytes key.new
            ≡ string_bytes key.old ++ encoded_key (keys_of self.now) chunk.now) }
    {
        match self {
            ChunkKeyEncoding::Default(encoding) => encoding.push_encoded(key, chunk),
            ChunkKeyEncoding::V2(encoding) => encoding.push_encoded(key, chunk),
            ChunkKeyEncoding::DefaultSuffix(encoding) => encoding.push_encoded(key, chunk),
        }
    }

    /// An equal encoding, in memory of its own.
    pub fn try_clone(&self, alloc: Global) -> Result<Self, AllocError>
        ensures { IfOk result (λ copy. keys_of copy ≡ keys_of self.now) }
    {
        match self {
            ChunkKeyEncoding::Default(encoding) => Ok(ChunkKeyEncoding::Default(*encoding)),
            ChunkKeyEncoding::V2(encoding) => Ok(ChunkKeyEncoding::V2(*encoding)),
            ChunkKeyEncoding::DefaultSuffix(encoding) => {
                let copy = encoding.try_clone(alloc)?;
                Ok(ChunkKeyEncoding::DefaultSuffix(copy))
            }
        }
    }

    /// Whether the suffix, if there is one, holds no slash. Where it holds one, a chunk's key may
    /// be that of the document of a node under the array.
    pub fn has_flat_suffix(&self) -> bool
        ensures { result ≡ has_flat_suffix (keys_of self.now) }
    {
        match self {
            ChunkKeyEncoding::DefaultSuffix(encoding) => encoding.has_flat_suffix(),
            _ => true,
        }
    }

    /// A bound on the bytes of an encoded key of a chunk.
    pub(crate) fn longest_key(&self, chunk: &[u64]) -> usize {
        let suffix = match self {
            ChunkKeyEncoding::DefaultSuffix(encoding) => encoding.suffix().len(),
            _ => 0,
        };
        longest_key(chunk).saturating_add(suffix)
    }
}

impl From<DefaultChunkKeyEncoding> for ChunkKeyEncoding {
    ghost from_gives = { λ encoding keys. keys ≡ Default encoding };

    fn from(encoding: DefaultChunkKeyEncoding) -> Self {
        Self::Default(encoding)
    }
}

impl From<V2ChunkKeyEncoding> for ChunkKeyEncoding {
    ghost from_gives = { λ encoding keys. keys ≡ V2 encoding };

    fn from(encoding: V2ChunkKeyEncoding) -> Self {
        Self::V2(encoding)
    }
}

impl From<DefaultSuffixChunkKeyEncoding> for ChunkKeyEncoding {
    ghost from_gives = { λ encoding keys. keys ≡ DefaultSuffix encoding };

    fn from(encoding: DefaultSuffixChunkKeyEncoding) -> Self {
        Self::DefaultSuffix(encoding)
    }
}

impl ChunkKeyEncodingTraits for ChunkKeyEncoding {
    ghost keys = { keys_of };

    fn encode(&self, alloc: Global, chunk: &[u64]) -> Result<String, AllocError> {
        ChunkKeyEncoding::encode(self, alloc, chunk)
    }
}

impl ChunkKeyEncodingTraits for DefaultChunkKeyEncoding {
    ghost keys = { default_keys };

    fn encode(&self, alloc: Global, chunk: &[u64]) -> Result<String, AllocError> {
        DefaultChunkKeyEncoding::encode(self, alloc, chunk)
    }
}

impl ChunkKeyEncodingTraits for V2ChunkKeyEncoding {
    ghost keys = { v2_keys };

    fn encode(&self, alloc: Global, chunk: &[u64]) -> Result<String, AllocError> {
        V2ChunkKeyEncoding::encode(self, alloc, chunk)
    }
}

impl ChunkKeyEncodingTraits for DefaultSuffixChunkKeyEncoding {
    ghost keys = { suffixed_keys };

    fn encode(&self, alloc: Global, chunk: &[u64]) -> Result<String, AllocError> {
        DefaultSuffixChunkKeyEncoding::encode(self, alloc, chunk)
    }
}
