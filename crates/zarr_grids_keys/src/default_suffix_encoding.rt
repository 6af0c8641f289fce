//! The chunk key encoding `default_suffix`.
ghost use Rattle.std.specs.Prelude.{◌≡◌, false};
ghost use Rattle.std.specs.String.{string_bytes};
ghost use Rattle.zarr_grids_keys.specs.Paths.{ends_with_slash};

use crate::default_suffix_configuration::DefaultSuffixChunkKeyEncodingConfiguration;
use crate::node_path::ends_with_slash;
use crate::numbers::{longest_key, push_numbers};
use crate::separator::ChunkKeySeparator;
use crate::to_json::{suffix_members, with_name};
use serde_json::{Map, Value};
use std::alloc::{AllocError, Global};
use thiserror::Error;
use zarr_grids_metadata::{MetadataV3, PluginCreateError};

/// The chunk key encoding `default_suffix`: what `default` gives, and a suffix such as `.bin` (this
/// project's profile).
#[derive(Debug, PartialEq, Eq, Drop)]
pub struct DefaultSuffixChunkKeyEncoding {
    separator: ChunkKeySeparator,
    suffix: String,
    pub ghost no_slash_at_end: { ends_with_slash (string_bytes suffix) ≡ false },
}

/// The suffix of an encoding ends with `/`, so that its keys would be no store keys.
#[derive(Clone, Copy, Debug, PartialEq, Eq, Error)]
#[error("the suffix of a chunk key encoding ends with /")]
pub struct SuffixEndsWithSlashError;

impl DefaultSuffixChunkKeyEncoding {
    ghost use Rattle.std.specs.Prelude.{◌≡◌, ◌≢◌, ◌↔◌, ◌++◌, IsTrue, OnOk, IfOk, IfErr, IsErr, Ok, Err};
    ghost use Rattle.std.specs.String.{string_bytes};
    ghost use Rattle.serde_json.specs.View.{members_view};
    ghost use Rattle.zarr_grids_keys.specs.EncodingMetadata.{suffixed_made, members_of, point_of_keys};
    ghost use Rattle.zarr_grids_keys.specs.Encodings.{encoding_separator, encoding_suffix, suffixed_keys};
    ghost use Rattle.zarr_grids_keys.specs.Keys.{encoded_key, has_flat_suffix};
    ghost use Rattle.zarr_grids_keys.specs.Paths.{ends_with_slash};
    ghost use Rattle.zarr_grids_metadata.specs.Views.{point_of};

    /// The encoding with this separator and suffix. An empty suffix is one.
    pub fn new(
        separator: ChunkKeySeparator,
        suffix: String,
    ) -> Result<Self, SuffixEndsWithSlashError>
        ensures separator { IfOk result (λ encoding. encoding_separator encoding ≡ separator) }
        ensures suffix { IfOk result (λ encoding. encoding_suffix encoding ≡ string_bytes suffix) }
        ensures refused { IsErr result ↔ IsTrue (ends_with_slash (string_bytes suffix)) }
    {
        if ends_with_slash(suffix.as_bytes()) {
            return Err(SuffixEndsWithSlashError);
        }
        Ok(DefaultSuffixChunkKeyEncoding { separator, suffix })
    }

    /// The encoding that metadata names and describes; the separator is `/` where it is absent.
    /// `NameUnsupported` where the name is neither `default_suffix` nor `zarrs.default_suffix`,
    /// `MetadataInvalid` where there is another field, a separator that is neither `/` nor `.`, no
    /// suffix or one that ends with `/`, `Memory` where an allocation failed.
    pub fn create(alloc: Global, metadata: &MetadataV3) -> Result<Self, PluginCreateError>
        ensures ok { IfOk result (λ encoding. suffixed_made (point_of metadata.now)
            ≡ Ok (suffixed_keys encoding)) }
        ensures err { IfErr result (λ e. e ≢ PluginCreateError.Memory
            → suffixed_made (point_of metadata.now) ≡ Err e) }
    {
        match DefaultSuffixChunkKeyEncodingConfiguration::create(alloc, metadata) {
            Ok(configuration) => Ok(DefaultSuffixChunkKeyEncoding {
                separator: configuration.separator,
                suffix: configuration.suffix,
            }),
            Err(error) => Err(error),
        }
    }

    /// The configuration of the encoding, with its separator and its suffix. `Err` only where an
    /// allocation failed.
    pub fn configuration(&self, alloc: Global) -> Result<Map<String, Value>, AllocError>
        ensures { IfOk result (λ members. members_view members.entries
            ≡ members_of (point_of_keys (suffixed_keys self.now))) }
    {
        suffix_members(alloc, self.separator, self.suffix.as_str())
    }

    /// The name `default_suffix` and the configuration of the encoding, of which `create` makes it
    /// again. `Err` only where an allocation failed.
    pub fn metadata(&self, alloc: Global) -> Result<MetadataV3, AllocError>
        ensures written { IfOk result (λ metadata. point_of metadata
            ≡ point_of_keys (suffixed_keys self.now)) }
        ensures reads_back { IfOk result (λ metadata. suffixed_made (point_of metadata)
            ≡ Ok (suffixed_keys self.now)) }
    {
        let members = self.configuration(alloc)?;
        with_name(alloc, "default_suffix", members)
    }

    /// What stands before each index.
    pub fn separator(&self) -> ChunkKeySeparator
        ensures { result ≡ encoding_separator self.now }
    {
        self.separator
    }

    /// What stands after the key that `default` gives.
    pub fn suffix(&self) -> &str
        ensures { result.now ≡ encoding_suffix self.now }
    {
        self.suffix.as_str()
    }

    /// Whether the suffix holds no slash.
    pub fn has_flat_suffix(&self) -> bool
        ensures { result ≡ has_flat_suffix (suffixed_keys self.now) }
    {
        !self.suffix.as_bytes().contains(&b'/')
    }

    /// An equal encoding, in memory of its own.
    pub fn try_clone(&self, alloc: Global) -> Result<Self, AllocError>
        ensures separator { IfOk result
            (λ copy. encoding_separator copy ≡ encoding_separator self.now) }
        ensures suffix { IfOk result (λ copy. encoding_suffix copy ≡ encoding_suffix self.now) }
    {
        let suffix = String::from_str(alloc, self.suffix.as_str())?;
        Ok(DefaultSuffixChunkKeyEncoding {
            separator: self.separator,
            suffix,
        })
    }

    /// The encoded key of a chunk.
    pub fn encode(&self, alloc: Global, chunk: &[u64]) -> Result<String, AllocError>
        ensures { IfOk result
            (λ key. string_bytes key ≡ encoded_key (suffixed_keys self.now) chunk.now) }
    {
        let room = longest_key(chunk).saturating_add(self.suffix.len());
        let mut key = String::with_capacity(alloc, room)?;
        self.push_encoded(&mut key, chunk)?;
        Ok(key)
    }

    /// Writes the encoded key of a chunk after what a text has. An `Err` leaves a part of the key
    /// there.
    pub fn push_encoded(&self, key: &mut String, chunk: &[u64]) -> Result<(), AllocError>
        ensures { OnOk result (string_bytes key.new
            ≡ string_bytes key.old ++ encoded_key (suffixed_keys self.now) chunk.now) }
    {
        key.push_str("c")?;
        push_numbers(key, self.separator, chunk)?;
        key.push_str(self.suffix.as_str())
    }
}
