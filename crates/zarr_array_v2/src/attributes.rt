//! The attributes of a version 2 document, which stand in a document of their own.
ghost use Rattle.std.specs.Prelude.{◌≡◌, Some, IfOk, option_map};
ghost use Rattle.serde_json.specs.View.{view, members_view};
ghost use Rattle.zarr_array_v2.specs.Attributes.{without, attributes_of, without_attributes, with_attributes};

use serde_json::{Map, Value, put};
use std::alloc::{AllocError, Global};
use zarr_grids_metadata::member;

/// The members with other names than this. `Err` only where an allocation failed.
pub(crate) fn without(
    members: &Map<String, Value>,
    name: &str,
) -> Result<Map<String, Value>, AllocError>
    ensures { IfOk result (λ others. members_view others.entries
        ≡ without name.now (members_view members.now.entries)) }
{
    let mut others = members.clone()?;
    drop(others.remove(name));
    Ok(others)
}

/// The attributes of a version 2 document, or an empty object where it has none: what `.zattrs`
/// holds. `Err` only where an allocation failed.
pub fn attributes_of(alloc: Global, members: &Map<String, Value>) -> Result<Value, AllocError>
    ensures { IfOk result
        (λ attributes. view attributes ≡ attributes_of (members_view members.now.entries)) }
{
    match member(members, "attributes") {
        Some(attributes) => attributes.clone(),
        None => Ok(Value::Object(Map::new(alloc))),
    }
}

/// A version 2 document without its attributes: what `.zarray` holds. `Err` only where an
/// allocation failed.
pub fn without_attributes(members: &Map<String, Value>) -> Result<Map<String, Value>, AllocError>
    ensures { IfOk result (λ others. members_view others.entries
        ≡ without_attributes (members_view members.now.entries)) }
{
    without(members, "attributes")
}

/// What `.zarray` holds, with the attributes that `.zattrs` holds in place of its own. Without
/// `.zattrs` it stays. `Err` only where an allocation failed.
pub fn with_attributes(
    alloc: Global,
    members: Map<String, Value>,
    attributes: Option<Value>,
) -> Result<Map<String, Value>, AllocError>
    ensures { IfOk result (λ joined. members_view joined.entries
        ≡ with_attributes (option_map view attributes) (members_view members.entries)) }
{
    let mut joined = members;
    if let Some(attributes) = attributes {
        put(&mut joined, alloc, "attributes", attributes)?;
    }
    Ok(joined)
}
