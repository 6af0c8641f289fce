//! The chunk key encoding `v2`.
ghost use Rattle.std.specs.Prelude.{◌≡◌, ◌++◌, OnOk, IfOk, MatchResult, Ok, Err};
ghost use Rattle.std.specs.String.{string_bytes};
ghost use Rattle.serde_json.specs.View.{members_view};
ghost use Rattle.zarr_grids_keys.specs.declared.separator.ChunkKeySeparator.TheVariants.{Dot};
ghost use Rattle.zarr_grids_keys.specs.Encodings.{v2_keys};
ghost use Rattle.zarr_grids_keys.specs.EncodingMetadata.{v2_made, members_of, point_of_keys};
ghost use Rattle.zarr_grids_keys.specs.Keys.{encoded_key};
ghost use Rattle.zarr_grids_metadata.specs.Views.{point_of};

use crate::numbers::{longest_key, push_numbers};
use crate::separator::ChunkKeySeparator;
use crate::to_json::{separator_members, with_name};
use crate::v2_configuration::V2ChunkKeyEncodingConfiguration;
use itoa::Buffer;
use serde_json::{Map, Value};
use std::alloc::{AllocError, Global};
use zarr_grids_metadata::{MetadataV3, PluginCreateError};

/// The chunk key encoding `v2`: the indices with the separator between them, and `0` for the chunk
/// of an array without dimensions (Zarr core specification, "Chunk key encoding"; the keys of Zarr
/// version 2).
#[derive(Clone, Copy, Debug, PartialEq, Eq)]
pub struct V2ChunkKeyEncoding {
    pub separator: ChunkKeySeparator,
}

impl V2ChunkKeyEncoding {
    /// The encoding with this separator.
    pub fn new(separator: ChunkKeySeparator) -> Self
        ensures { result ≡ record { separator = separator } }
    {
        V2ChunkKeyEncoding { separator }
    }

    /// The encoding with dots, as `1.2`.
    pub fn new_dot() -> Self
        ensures { result ≡ record { separator = ChunkKeySeparator.Dot } }
    {
        V2ChunkKeyEncoding::new(ChunkKeySeparator::Dot)
    }

    /// The encoding with slashes, as `1/2`.
    pub fn new_slash() -> Self
        ensures { result ≡ record { separator = ChunkKeySeparator.Slash } }
    {
        V2ChunkKeyEncoding::new(ChunkKeySeparator::Slash)
    }

    /// The encoding that metadata names and describes; the separator is `.` where it is absent.
    /// `NameUnsupported` where the name is not `v2`, `MetadataInvalid` where there is another
    /// field, or a separator that is neither `/` nor `.`. It needs no memory.
    pub fn create(alloc: Global, metadata: &MetadataV3) -> Result<Self, PluginCreateError>
        ensures { MatchResult result
            (λ encoding. v2_made (point_of metadata.now) ≡ Ok (v2_keys encoding))
            (λ e. v2_made (point_of metadata.now) ≡ Err e) }
    {
        match V2ChunkKeyEncodingConfiguration::create(alloc, metadata) {
            Ok(configuration) => Ok(V2ChunkKeyEncoding::new(configuration.separator)),
            Err(error) => Err(error),
        }
    }

    /// The configuration of the encoding, with its separator. `Err` only where an allocation
    /// failed.
    pub fn configuration(&self, alloc: Global) -> Result<Map<String, Value>, AllocError>
        ensures { IfOk result (λ members.
            members_view members.entries ≡ members_of (point_of_keys (v2_keys self.now))) }
    {
        separator_members(alloc, self.separator)
    }

    /// The name and the configuration of the encoding, of which `create` makes it again. `Err` only
    /// where an allocation failed.
    pub fn metadata(&self, alloc: Global) -> Result<MetadataV3, AllocError>
        ensures written { IfOk result
            (λ metadata. point_of metadata ≡ point_of_keys (v2_keys self.now)) }
        ensures reads_back { IfOk result
            (λ metadata. v2_made (point_of metadata) ≡ Ok (v2_keys self.now)) }
    {
        let members = self.configuration(alloc)?;
        with_name(alloc, "v2", members)
    }

    /// The encoded key of a chunk.
    pub fn encode(&self, alloc: Global, chunk: &[u64]) -> Result<String, AllocError>
        ensures { IfOk result (λ key. string_bytes key ≡ encoded_key (v2_keys self.now) chunk.now) }
    {
        let mut key = String::with_capacity(alloc, longest_key(chunk))?;
        self.push_encoded(&mut key, chunk)?;
        Ok(key)
    }

    /// Writes the encoded key of a chunk after what a text has. An `Err` leaves a part of the key
    /// there.
    pub fn push_encoded(&self, key: &mut String, chunk: &[u64]) -> Result<(), AllocError>
        ensures { OnOk result (string_bytes key.new
            ≡ string_bytes key.old ++ encoded_key (v2_keys self.now) chunk.now) }
    {
        match chunk.split_first() {
            None => key.push_str("0"),
            Some((index, rest)) => {
                let mut digits = Buffer::new();
                key.push_str(digits.format(*index))?;
                push_numbers(key, self.separator, rest)
            }
        }
    }
}

impl Default for V2ChunkKeyEncoding {
    ghost is_default = { λ encoding. encoding ≡ record { separator = Dot } };

    fn default() -> Self {
        V2ChunkKeyEncoding::new_dot()
    }
}
