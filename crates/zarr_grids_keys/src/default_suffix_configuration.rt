//! The configuration of the chunk key encoding `default_suffix`.
ghost use Rattle.std.specs.Prelude.{◌≡◌, ◌≢◌, false, IfOk, IfErr, Ok, Err};
ghost use Rattle.std.specs.String.{string_bytes};
ghost use Rattle.serde_json.specs.View.{members_view};
ghost use Rattle.zarr_grids_keys.specs.Paths.{ends_with_slash};
ghost use Rattle.zarr_grids_keys.specs.Separators.{separator_byte, suffix_keys};
ghost use Rattle.zarr_grids_metadata.specs.Views.{point_of};
ghost use Rattle.zarr_grids_keys.specs.EncodingMetadata.{is_suffix_name, suffixed_made, suffix_members};

use crate::from_json::{separator_among, suffix_in};
use crate::separator::ChunkKeySeparator;
use crate::to_json::suffix_members;
use serde_json::{Map, Value};
use std::alloc::{AllocError, Global};
use zarr_grids_metadata::{MetadataV3, PluginCreateError};

/// The configuration of the chunk key encoding `default_suffix`. The suffix ends with no `/`.
#[derive(Debug, PartialEq, Eq, Drop)]
pub struct DefaultSuffixChunkKeyEncodingConfiguration {
    pub separator: ChunkKeySeparator,
    pub suffix: String,
    pub ghost no_slash_at_end: { ends_with_slash (string_bytes suffix) ≡ false },
}

impl DefaultSuffixChunkKeyEncodingConfiguration {
    /// The configuration that metadata gives; the separator is `/` where it is absent.
    /// `NameUnsupported` where the name is neither `default_suffix` nor `zarrs.default_suffix`,
    /// `MetadataInvalid` where there is another field, a separator that is neither `/` nor `.`, no
    /// suffix or one that ends with `/`, `Memory` where an allocation failed.
    pub fn create(alloc: Global, metadata: &MetadataV3) -> Result<Self, PluginCreateError>
        ensures ok { IfOk result (λ configuration. suffixed_made (point_of metadata.now)
            ≡ Ok (suffix_keys configuration.separator (string_bytes configuration.suffix))) }
        ensures err { IfErr result (λ e. e ≢ PluginCreateError.Memory
            → suffixed_made (point_of metadata.now) ≡ Err e) }
    {
        if !is_suffix_name(metadata.name()) {
            return Err(PluginCreateError::NameUnsupported);
        }
        let usual = ChunkKeySeparator::Slash;
        let Some(separator) = separator_among(metadata, &["separator", "suffix"], usual) else {
            return Err(PluginCreateError::MetadataInvalid);
        };
        let Some(suffix) = suffix_in(metadata) else {
            return Err(PluginCreateError::MetadataInvalid);
        };
        let suffix = String::from_str(alloc, suffix)?;
        Ok(DefaultSuffixChunkKeyEncodingConfiguration { separator, suffix })
    }

    /// The fields, as they are written.
    pub fn configuration(&self, alloc: Global) -> Result<Map<String, Value>, AllocError>
        ensures { IfOk result (λ members. members_view members.entries
            ≡ suffix_members (separator_byte self.now.separator) (string_bytes self.now.suffix)) }
    {
        suffix_members(alloc, self.separator, self.suffix.as_str())
    }
}

fn is_suffix_name(name: &str) -> bool
    ensures { result ≡ is_suffix_name name.now }
{
    name == "default_suffix" || name == "zarrs.default_suffix"
}
