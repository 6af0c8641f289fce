//! Equality of JSON trees and of extension points.
ghost use Rattle.std.specs.Prelude.{◌≡◌, option_map};
ghost use Rattle.serde_json.specs.View.{view, number_view, items_view, members_view};
ghost use Rattle.zarr_grids_metadata.specs.Equal.{equal_numbers, equal, equal_items, equal_members, equal_configurations, equal_points};
ghost use Rattle.zarr_grids_metadata.specs.Views.{point_view};

use crate::extension_point::ExtensionPoint;
use crate::metadata::MetadataV3;
use serde_json::{Map, Number, Value};

/// Two are equal where their names, their configurations and their flags are. Floats in a
/// configuration are compared as `f64` does.
impl PartialEq for MetadataV3 {
    ghost use Rattle.std.specs.Cmp.{on_per};
    ghost use Rattle.zarr_grids_metadata.specs.Equal.{equal_points};
    ghost use Rattle.zarr_grids_metadata.specs.EqualEquivalence.{equal_points_per};
    ghost use Rattle.zarr_grids_metadata.specs.Views.{point_of};

    ghost eq = { λ a b. equal_points (point_of a) (point_of b) };

    ghost laws = { on_per point_of equal_points_per };

    fn eq(&self, other: &MetadataV3) -> bool {
        equal_points(self.as_point(), other.as_point())
    }
}

fn equal_points(a: ExtensionPoint<'_>, b: ExtensionPoint<'_>) -> bool
    ensures { result ≡ equal_points (point_view a.entry) (point_view b.entry) }
{
    a.name == b.name
        && equal_configurations(a.configuration, b.configuration)
        && a.must_understand == b.must_understand
}

fn equal_configurations(a: Option<&Map<String, Value>>, b: Option<&Map<String, Value>>) -> bool
    ensures { result ≡ equal_configurations
        (option_map (λ members. members_view members.now.entries) a.entry)
        (option_map (λ members. members_view members.now.entries) b.entry) }
{
    match a {
        None => match b {
            None => true,
            Some(_) => false,
        },
        Some(members) => match b {
            None => false,
            Some(others) => equal_members(members, others),
        },
    }
}

#[cycle(equal)]
fn equal(a: &Value, b: &Value) -> bool
    ensures { result ≡ equal (view a.now) (view b.now) }
{
    match a {
        Value::Null => matches!(b, Value::Null),
        Value::Bool(flag) => match b {
            Value::Bool(other) => *flag == *other,
            _ => false,
        },
        Value::Number(x) => match b {
            Value::Number(y) => equal_numbers(x, y),
            _ => false,
        },
        Value::String(text) => match b {
            Value::String(other) => text.as_str() == other.as_str(),
            _ => false,
        },
        Value::Array(items) => match b {
            Value::Array(others) => equal_items(items, others),
            _ => false,
        },
        Value::Object(members) => match b {
            Value::Object(others) => equal_members(members, others),
            _ => false,
        },
    }
}

#[cycle(equal)]
fn equal_items(items: &Vec<Value>, others: &Vec<Value>) -> bool
    ensures { result ≡ equal_items (items_view items.now.items) (items_view others.now.items) }
{
    let mut rest = others.iter();
    for item in items {
        let Some(other) = rest.next() else {
            return false;
        };
        if !equal(item, other) {
            return false;
        }
    }
    rest.next().is_none()
}

#[cycle(equal)]
fn equal_members(members: &Map<String, Value>, others: &Map<String, Value>) -> bool
    ensures { result
        ≡ equal_members (members_view members.now.entries) (members_view others.now.entries) }
{
    let mut rest = others.iter();
    for (name, member) in members.iter() {
        let Some((other_name, other)) = rest.next() else {
            return false;
        };
        if name != other_name || !equal(member, other) {
            return false;
        }
    }
    rest.next().is_none()
}

fn equal_numbers(x: &Number, y: &Number) -> bool
    ensures { result ≡ equal_numbers (number_view x.now) (number_view y.now) }
{
    *x == *y
}
