//! Which documents are of version 2.
ghost use Rattle.std.specs.Prelude.{◌≡◌};
ghost use Rattle.serde_json.specs.View.{view, members_view};
ghost use Rattle.zarr_array_v2.specs.Versions.{has_version_2, is_version_2};

use serde_json::{Map, Value};
use zarr_grids_metadata::member;

/// Whether members are those of a version 2 document: `zarr_format` is 2.
pub fn has_version_2(members: &Map<String, Value>) -> bool
    ensures { result ≡ has_version_2 (members_view members.now.entries) }
{
    match member(members, "zarr_format") {
        Some(format) => format.as_u64() == Some(2),
        None => false,
    }
}

/// Whether a tree is a version 2 document.
pub fn is_version_2(tree: &Value) -> bool
    ensures { result ≡ is_version_2 (view tree.now) }
{
    match tree {
        Value::Object(members) => has_version_2(members),
        _ => false,
    }
}
