//! Lists of whole numbers in JSON.
ghost use Rattle.std.specs.Prelude.{◌≡◌, IfOk, option_map};
ghost use Rattle.serde_json.specs.View.{view, items_view};
ghost use Rattle.zarr_grids_configurations.specs.Numbers.{sizes_of, sizes_in};

use serde_json::Value;
use std::alloc::{AllocError, Global};

/// The sizes that a JSON list says, where each of its values is a whole number.
pub fn sizes_in(alloc: Global, value: &Value) -> Result<Option<Vec<u64>>, AllocError>
    ensures { IfOk result
        (λ sizes. option_map (λ v. v.items) sizes ≡ sizes_in (view value.now)) }
{
    match value.as_array() {
        Some(items) => sizes_of(alloc, items.as_slice()),
        None => Ok(None),
    }
}

pub(crate) fn sizes_of(alloc: Global, items: &[Value]) -> Result<Option<Vec<u64>>, AllocError>
    ensures { IfOk result
        (λ sizes. option_map (λ v. v.items) sizes ≡ sizes_of (items_view items.now)) }
{
    let mut sizes = Vec::with_capacity(alloc, items.len())?;
    for item in items {
        let Some(size) = item.as_u64() else {
            return Ok(None);
        };
        sizes.push(size)?;
    }
    Ok(Some(sizes))
}
