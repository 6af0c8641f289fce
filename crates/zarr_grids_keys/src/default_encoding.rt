//! The chunk key encoding `default`.
ghost use Rattle.std.specs.Prelude.{◌≡◌, ◌++◌, OnOk, IfOk, MatchResult, Ok, Err};
ghost use Rattle.std.specs.String.{string_bytes};
ghost use Rattle.serde_json.specs.View.{members_view};
ghost use Rattle.zarr_grids_keys.specs.declared.separator.ChunkKeySeparator.TheVariants.{Slash};
ghost use Rattle.zarr_grids_keys.specs.Encodings.{default_keys};
ghost use Rattle.zarr_grids_keys.specs.EncodingMetadata.{default_made, members_of, point_of_keys};
ghost use Rattle.zarr_grids_keys.specs.Keys.{encoded_key};
ghost use Rattle.zarr_grids_metadata.specs.Views.{point_of};

use crate::default_configuration::DefaultChunkKeyEncodingConfiguration;
use crate::numbers::{longest_key, push_numbers};
use crate::separator::ChunkKeySeparator;
use crate::to_json::{separator_members, with_name};
use serde_json::{Map, Value};
use std::alloc::{AllocError, Global};
use zarr_grids_metadata::{MetadataV3, PluginCreateError};

/// The chunk key encoding `default`: `c`, then each index after the separator (Zarr core
/// specification, "Chunk key encoding").
#[derive(Clone, Copy, Debug, PartialEq, Eq)]
pub struct DefaultChunkKeyEncoding {
    pub separator: ChunkKeySeparator,
}

impl DefaultChunkKeyEncoding {
    /// The encoding with this separator.
    pub fn new(separator: ChunkKeySeparator) -> Self
        ensures { result ≡ record { separator = separator } }
    {
        DefaultChunkKeyEncoding { separator }
    }

    /// The encoding with dots, as `c.1.2`.
    pub fn new_dot() -> Self
        ensures { result ≡ record { separator = ChunkKeySeparator.Dot } }
    {
        DefaultChunkKeyEncoding::new(ChunkKeySeparator::Dot)
    }

    /// The encoding with slashes, as `c/1/2`.
    pub fn new_slash() -> Self
        ensures { result ≡ record { separator = ChunkKeySeparator.Slash } }
    {
        DefaultChunkKeyEncoding::new(ChunkKeySeparator::Slash)
    }

    /// The encoding that metadata names and describes; the separator is `/` where it is absent.
    /// `NameUnsupported` where the name is not `default`, `MetadataInvalid` where there is another
    /// field, or a separator that is neither `/` nor `.`. It needs no memory.
    pub fn create(alloc: Global, metadata: &MetadataV3) -> Result<Self, PluginCreateError>
        ensures { MatchResult result
            (λ encoding. default_made (point_of metadata.now) ≡ Ok (default_keys encoding))
            (λ e. default_made (point_of metadata.now) ≡ Err e) }
    {
        match DefaultChunkKeyEncodingConfiguration::create(alloc, metadata) {
            Ok(configuration) => Ok(DefaultChunkKeyEncoding::new(configuration.separator)),
            Err(error) => Err(error),
        }
    }

    /// The configuration of the encoding, with its separator. `Err` only where an allocation
    /// failed.
    pub fn configuration(&self, alloc: Global) -> Result<Map<String, Value>, AllocError>
        ensures { IfOk result (λ members.
            members_view members.entries ≡ members_of (point_of_keys (default_keys self.now))) }
    {
        separator_members(alloc, self.separator)
    }

    /// The name and the configuration of the encoding, of which `create` makes it again. `Err` only
    /// where an allocation failed.
    pub fn metadata(&self, alloc: Global) -> Result<MetadataV3, AllocError>
        ensures written { IfOk result
            (λ metadata. point_of metadata ≡ point_of_keys (default_keys self.now)) }
        ensures reads_back { IfOk result
            (λ metadata. default_made (point_of metadata) ≡ Ok (default_keys self.now)) }
    {
        let members = self.configuration(alloc)?;
        with_name(alloc, "default", members)
    }

    /// The encoded key of a chunk.
    pub fn encode(&self, alloc: Global, chunk: &[u64]) -> Result<String, AllocError>
        ensures { IfOk result
            (λ key. string_bytes key ≡ encoded_key (default_keys self.now) chunk.now) }
    {
        let mut key = String::with_capacity(alloc, longest_key(chunk))?;
        self.push_encoded(&mut key, chunk)?;
        Ok(key)
    }

    /// Writes the encoded key of a chunk after what a text has. An `Err` leaves a part of the key
    /// there.
    pub fn push_encoded(&self, key: &mut String, chunk: &[u64]) -> Result<(), AllocError>
        ensures { OnOk result (string_bytes key.new
            ≡ string_bytes key.old ++ encoded_key (default_keys self.now) chunk.now) }
    {
        key.push_str("c")?;
        push_numbers(key, self.separator, chunk)
    }
}

impl Default for DefaultChunkKeyEncoding {
    ghost is_default = { λ encoding. encoding ≡ record { separator = Slash } };

    fn default() -> Self {
        DefaultChunkKeyEncoding::new_slash()
    }
}
