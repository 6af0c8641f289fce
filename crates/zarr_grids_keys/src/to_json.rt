//! How the configurations of chunk key encodings are written.
ghost use Rattle.std.specs.Prelude.{◌≡◌, IfOk};
ghost use Rattle.serde_json.specs.View.{members_view};
ghost use Rattle.zarr_grids_keys.specs.Separators.{separator_byte};
ghost use Rattle.zarr_grids_metadata.specs.ExtensionPoints.{configured};
ghost use Rattle.zarr_grids_metadata.specs.Views.{point_of};
ghost use Rattle.zarr_grids_keys.specs.EncodingMetadata.{separator_members, suffix_members};

use crate::separator::ChunkKeySeparator;
use serde_json::{Map, Value, put};
use std::alloc::{AllocError, Global};
use zarr_grids_metadata::MetadataV3;

/// The configuration of `default` and of `v2`.
pub(crate) fn separator_members(
    alloc: Global,
    separator: ChunkKeySeparator,
) -> Result<Map<String, Value>, AllocError>
    ensures { IfOk result (λ members.
        members_view members.entries ≡ separator_members (separator_byte separator)) }
{
    let mut members = Map::new(alloc);
    let text = Value::try_from_str(alloc, separator.as_str())?;
    put(&mut members, alloc, "separator", text)?;
    Ok(members)
}

/// The configuration of `default_suffix`.
pub(crate) fn suffix_members(
    alloc: Global,
    separator: ChunkKeySeparator,
    suffix: &str,
) -> Result<Map<String, Value>, AllocError>
    ensures { IfOk result (λ members.
        members_view members.entries ≡ suffix_members (separator_byte separator) suffix.now) }
{
    let mut members = separator_members(alloc, separator)?;
    let text = Value::try_from_str(alloc, suffix)?;
    put(&mut members, alloc, "suffix", text)?;
    Ok(members)
}

/// The metadata of this name and configuration.
pub(crate) fn with_name(
    alloc: Global,
    name: &str,
    members: Map<String, Value>,
) -> Result<MetadataV3, AllocError>
    ensures { IfOk result (λ metadata.
        point_of metadata ≡ configured name.now (members_view members.entries)) }
{
    let name = String::from_str(alloc, name)?;
    Ok(MetadataV3::new_with_configuration(name, members))
}
