//! Members taken out of a JSON object.
ghost use Rattle.std.specs.Prelude.{◌≡◌, ℕ, List, bytes_eq, string_bytes, false, option_map};
ghost use Rattle.serde_json.specs.Find.{get_member, as_str};
ghost use Rattle.serde_json.specs.View.{view, members_view};
ghost use Rattle.zarr_run_commands.specs.Lines.{needed};

use serde_json::{Map, Value};

/// Takes the value of the member with this name; null stays in its place.
pub(crate) fn take(members: &mut Map<String, Value>, name: &str) -> Option<Value>
    ensures value { option_map view result
        ≡ get_member name.now (members_view members.old.entries) }
    ensures others { (other : List ℕ) → bytes_eq other name.now ≡ false
        → get_member other (members_view members.new.entries)
        ≡ get_member other (members_view members.old.entries) }
{
    match members.get_mut(name) {
        Some(value) => Some(value.take()),
        None => None,
    }
}

/// Takes the member with this name out, where it is a text.
pub(crate) fn take_text(members: &mut Map<String, Value>, name: &str) -> Option<String>
    ensures value { option_map string_bytes result
        ≡ needed as_str name.now (members_view members.old.entries) }
    ensures others { (other : List ℕ) → bytes_eq other name.now ≡ false
        → get_member other (members_view members.new.entries)
        ≡ get_member other (members_view members.old.entries) }
{
    match take(members, name) {
        Some(Value::String(text)) => Some(text),
        _ => None,
    }
}
