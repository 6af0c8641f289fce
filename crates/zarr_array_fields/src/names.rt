//! Dimension names.
ghost use Rattle.std.specs.Prelude.{◌≡◌, is_some, option_map};
ghost use Rattle.std.specs.List.{list_all};
ghost use Rattle.serde_json.specs.View.{view, items_view};
ghost use Rattle.zarr_array_meaning.specs.Parts.{name_in, names_for, dimension_names_in};

use serde_json::Value;

/// Whether dimension names are absent, null, or a list with one for each dimension.
pub fn are_dimension_names(names: Option<&Value>, dimensions: usize) -> bool
    ensures { result
        ≡ is_some (dimension_names_in dimensions (option_map (λ v. view v.now) names.entry)) }
{
    match names {
        None | Some(Value::Null) => true,
        Some(Value::Array(names)) => are_names_for(dimensions, names.as_slice()),
        Some(_) => false,
    }
}

#[tactic(auto, using(crate::proofs::Lists::names_for_given))]
fn are_names_for(dimensions: usize, names: &[Value]) -> bool
    ensures { result ≡ is_some (names_for dimensions (items_view names.now)) }
{
    names.len() == dimensions && are_names(names)
}

fn are_names(names: &[Value]) -> bool
    ensures { result ≡ list_all (λ name. is_some (name_in (view name))) names.now }
{
    names.iter().all(is_name)
}

/// Whether a value is a text or null.
fn is_name(name: &Value) -> bool
    ensures { result ≡ is_some (name_in (view name.now)) }
{
    matches!(name, Value::Null | Value::String(_))
}
