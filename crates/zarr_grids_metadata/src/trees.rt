//! JSON trees: whether two are the same, whether one has a float, and how deep one is.
ghost use Rattle.std.specs.Prelude.{◌≡◌, false, IsTrue, Decides, nat_lt};
ghost use Rattle.serde_json.specs.Data.{null, boolean, number, string, array, object, depth, items_depth, members_depth};
ghost use Rattle.serde_json.specs.Written.{has_float, items_have_float, members_have_float};
ghost use Rattle.serde_json.specs.View.{view, number_view, items_view, members_view};
ghost use Rattle.zarr_grids_metadata.specs.Trees.{SameTree, one_float};

use serde_json::{Map, Number, Value};

/// Whether two trees are equal with all floats taken as one: `1.5` is the same as `2.5`, and `1`
/// is not the same as `1.0`. It goes through each tree once, and as deep as both nest.
#[cycle(same_tree)]
pub fn same_tree(a: &Value, b: &Value) -> bool
    ensures same { IsTrue result → SameTree (view a.now) (view b.now) }
    ensures differ { result ≡ false → ¬ SameTree (view a.now) (view b.now) }
{
    match a {
        Value::Null => b.is_null(),
        Value::Bool(flag) => is_flag(b, *flag),
        Value::Number(x) => is_number(b, x),
        Value::String(text) => is_text(b, text.as_str()),
        Value::Array(items) => match b.as_array() {
            Some(others) => same_items(items, others),
            None => false,
        },
        Value::Object(members) => match b.as_object() {
            Some(others) => same_members(members, others),
            None => false,
        },
    }
}

#[cycle(same_tree)]
fn same_items(items: &Vec<Value>, others: &Vec<Value>) -> bool
    ensures { Decides result
        (SameTree (array (items_view items.now.items)) (array (items_view others.now.items))) }
{
    let mut rest = others.iter();
    for item in items {
        let Some(other) = rest.next() else {
            return false;
        };
        if !same_tree(item, other) {
            return false;
        }
    }
    rest.next().is_none()
}

#[cycle(same_tree)]
fn same_members(members: &Map<String, Value>, others: &Map<String, Value>) -> bool
    ensures { Decides result
        (SameTree (object (members_view members.now.entries))
        (object (members_view others.now.entries))) }
{
    let mut rest = others.iter();
    for (name, member) in members.iter() {
        let Some((other_name, other)) = rest.next() else {
            return false;
        };
        if name != other_name || !same_tree(member, other) {
            return false;
        }
    }
    rest.next().is_none()
}

fn is_flag(value: &Value, flag: bool) -> bool
    ensures { Decides result (SameTree (boolean flag) (view value.now)) }
{
    match value.as_bool() {
        Some(other) => other == flag,
        None => false,
    }
}

fn is_text(value: &Value, text: &str) -> bool
    ensures { Decides result (SameTree (string text.now) (view value.now)) }
{
    match value.as_str() {
        Some(other) => other == text,
        None => false,
    }
}

fn is_number(value: &Value, x: &Number) -> bool
    ensures { Decides result (SameTree (number (number_view x.now)) (view value.now)) }
{
    match value.as_number() {
        Some(y) => same_number(x, y),
        None => false,
    }
}

/// Floats have no value as an integer, so any two of them are the same here.
fn same_number(x: &Number, y: &Number) -> bool
    ensures { Decides result (one_float (number_view x.now) ≡ one_float (number_view y.now)) }
{
    x.as_u64() == y.as_u64() && x.as_i64() == y.as_i64()
}

/// Whether a number of the tree is a float, as `1.5` or `1e3`. It goes through the tree once, and
/// as deep as it nests.
#[cycle(has_float)]
pub fn has_float(value: &Value) -> bool
    ensures { result ≡ has_float (view value.now) }
{
    match value {
        Value::Number(x) => x.is_f64(),
        Value::Array(items) => items_have_float(items),
        Value::Object(members) => members_have_float(members),
        Value::Null | Value::Bool(_) | Value::String(_) => false,
    }
}

#[cycle(has_float)]
fn items_have_float(items: &Vec<Value>) -> bool
    ensures { result ≡ items_have_float (items_view items.now.items) }
{
    for item in items {
        if has_float(item) {
            return true;
        }
    }
    false
}

#[cycle(has_float)]
fn members_have_float(members: &Map<String, Value>) -> bool
    ensures { result ≡ members_have_float (members_view members.now.entries) }
{
    for (_, member) in members.iter() {
        if has_float(member) {
            return true;
        }
    }
    false
}

/// Whether arrays and objects nest deeper than this. An array or object past the limit is not
/// looked into, so the stack is bounded by the limit.
#[cycle(is_deeper)]
pub fn is_deeper(value: &Value, levels: u64) -> bool
    ensures { result ≡ nat_lt levels (depth (view value.now)) }
{
    match value {
        Value::Array(items) => levels == 0 || items_are_deeper(items, levels - 1),
        Value::Object(members) => levels == 0 || members_are_deeper(members, levels - 1),
        Value::Null | Value::Bool(_) | Value::Number(_) | Value::String(_) => false,
    }
}

#[cycle(is_deeper)]
fn items_are_deeper(items: &Vec<Value>, levels: u64) -> bool
    ensures { result ≡ nat_lt levels (items_depth (items_view items.now.items)) }
{
    for item in items {
        if is_deeper(item, levels) {
            return true;
        }
    }
    false
}

#[cycle(is_deeper)]
fn members_are_deeper(members: &Map<String, Value>, levels: u64) -> bool
    ensures { result ≡ nat_lt levels (members_depth (members_view members.now.entries)) }
{
    for (_, member) in members.iter() {
        if is_deeper(member, levels) {
            return true;
        }
    }
    false
}
