//! The members of a JSON object.
ghost use Rattle.std.specs.Prelude.{◌≡◌, map, option_map, bytes_eq};
ghost use Rattle.std.specs.List.{list_any};
ghost use Rattle.serde_json.specs.Find.{get_member};
ghost use Rattle.serde_json.specs.View.{view, members_view};
ghost use Rattle.zarr_grids_metadata.specs.Members.{has_only};

use serde_json::{Map, Value};

/// The member with this name.
pub fn member<'v>(members: &'v Map<String, Value>, name: &str) -> Option<&'v Value>
    ensures { option_map (λ v. view v.now) result
        ≡ get_member name.now (members_view members.now.entries) }
{
    members.get(name)
}

/// Whether each member's name is one of these. A name may be absent.
pub fn has_only(members: &Map<String, Value>, names: &[&str]) -> bool
    ensures { result
        ≡ has_only (map (λ name. name.now) names.now) (members_view members.now.entries) }
{
    for (name, _) in members.iter() {
        if !is_one_of(name.as_str(), names) {
            return false;
        }
    }
    true
}

fn is_one_of(name: &str, names: &[&str]) -> bool
    ensures { result ≡ list_any (bytes_eq name.now) (map (λ name. name.now) names.now) }
{
    for known in names {
        if name == *known {
            return true;
        }
    }
    false
}
