//! How deep metadata may nest.
ghost use Rattle.std.specs.Prelude.{◌≡◌, map, nat_lt};
ghost use Rattle.serde_json.specs.Data.{members_depth};
ghost use Rattle.serde_json.specs.View.{members_view};
ghost use Rattle.zarr_codecs_metadata.specs.Chains.{any_too_deep, is_too_deep};
ghost use Rattle.zarr_grids_metadata.specs.Views.{point_of};

use serde_json::{Map, Value};
use zarr_grids_metadata::MetadataV3;
use zarr_grids_metadata::trees::is_deeper;

/// How deep arrays and objects may nest below the members of a configuration: 127 levels in all, of
/// which the extension point is one, and its configuration one.
const LEVELS_LEFT: u64 = 125;

/// Whether one of several extension points nests deeper than 127 levels, as none of a document
/// does: the object that it is counts as one, and its configuration as one. What lies past the
/// limit is not looked into, so the stack is bounded by it.
pub fn any_too_deep(codecs: &[MetadataV3]) -> bool
    ensures { result ≡ any_too_deep (map point_of codecs.now) }
{
    for metadata in codecs {
        if is_too_deep(metadata) {
            return true;
        }
    }
    false
}

/// Whether an extension point nests deeper than is read.
pub fn is_too_deep(metadata: &MetadataV3) -> bool
    ensures { result ≡ is_too_deep (point_of metadata.now) }
{
    match metadata.configuration() {
        Some(members) => members_are_deeper(members, LEVELS_LEFT),
        None => false,
    }
}

/// Whether arrays and objects nest deeper than this in one of the members.
fn members_are_deeper(members: &Map<String, Value>, levels: u64) -> bool
    ensures { result ≡ nat_lt levels (members_depth (members_view members.now.entries)) }
{
    for (_, member) in members.iter() {
        if is_deeper(member, levels) {
            return true;
        }
    }
    false
}
