//! The configuration of the chunk key encoding `v2`.
ghost use Rattle.std.specs.Prelude.{◌≡◌, IfOk, MatchResult, Ok, Err};
ghost use Rattle.serde_json.specs.View.{members_view};
ghost use Rattle.zarr_grids_keys.specs.Keys.{v2};
ghost use Rattle.zarr_grids_keys.specs.Separators.{separator_byte};
ghost use Rattle.zarr_grids_metadata.specs.Views.{point_of};
ghost use Rattle.zarr_grids_keys.specs.EncodingMetadata.{v2_made, separator_members};

use crate::from_json::separator_among;
use crate::separator::ChunkKeySeparator;
use crate::to_json::separator_members;
use serde_json::{Map, Value};
use std::alloc::{AllocError, Global};
use zarr_grids_metadata::{MetadataV3, PluginCreateError};

/// The configuration of the chunk key encoding `v2`.
#[derive(Clone, Copy, Debug, PartialEq, Eq)]
pub struct V2ChunkKeyEncodingConfiguration {
    pub separator: ChunkKeySeparator,
}

impl V2ChunkKeyEncodingConfiguration {
    /// The configuration that metadata gives; the separator is `.` where it is absent.
    /// `NameUnsupported` where the name is not `v2`, `MetadataInvalid` where there is another
    /// field, or a separator that is neither `/` nor `.`. It needs no memory.
    pub fn create(_alloc: Global, metadata: &MetadataV3) -> Result<Self, PluginCreateError>
        ensures { MatchResult result
            (λ configuration. v2_made (point_of metadata.now)
            ≡ Ok (v2 (separator_byte configuration.separator)))
            (λ e. v2_made (point_of metadata.now) ≡ Err e) }
    {
        if metadata.name() != "v2" {
            return Err(PluginCreateError::NameUnsupported);
        }
        match separator_among(metadata, &["separator"], ChunkKeySeparator::Dot) {
            Some(separator) => Ok(V2ChunkKeyEncodingConfiguration { separator }),
            None => Err(PluginCreateError::MetadataInvalid),
        }
    }

    /// The fields, as they are written.
    pub fn configuration(&self, alloc: Global) -> Result<Map<String, Value>, AllocError>
        ensures { IfOk result (λ members.
            members_view members.entries ≡ separator_members (separator_byte self.now.separator)) }
    {
        separator_members(alloc, self.separator)
    }
}
