//! What JSON values say inside of optional types.
ghost use Rattle.std.specs.Prelude.{◌≡◌, ◌+◌, ◌/◌, ◌≤◌, IfSome, option_map, option_and_then};
ghost use Rattle.serde_json.specs.View.{view, items_view};
ghost use Rattle.zarr_codecs_meaning.specs.Types as types;
ghost use Rattle.zarr_codecs_types.specs.FillMetadata.{bool_bytes, byte_in, byte_list, only_item, option_in};
ghost use Rattle.zarr_codecs_types.specs.Integers.{integer_bytes, Reaches};
ghost use Rattle.zarr_codecs_types.specs.Views.{sign_of};
ghost use Rattle.zarr_codecs_json.specs.Inside.{cell_inside, inside, is_absent, mark_inside};

use serde_json::Value;
use zarr_codecs_types::{Sign, integer_in};

/// What stands in a value inside of so many optional types: nothing where it is absent by one of
/// them. The outer `None` is for a value that is no element of such a type.
#[inline(always)]
pub(crate) fn inside(value: &Value, levels: usize) -> Option<Option<&Value>>
    ensures { option_map (option_map (λ v. view v.now)) result ≡ inside levels (view value.now) }
{
    if levels == 0 {
        return Some(Some(value));
    }
    inside_lists(value, levels)
}

/// As `inside`, list by list.
fn inside_lists(value: &Value, levels: usize) -> Option<Option<&Value>>
    ensures { option_map (option_map (λ v. view v.now)) result ≡ inside levels (view value.now) }
{
    if levels == 0 {
        return Some(Some(value));
    }
    match inside_lists(value, levels - 1)? {
        None => Some(None),
        Some(found) => option_in(found),
    }
}

/// What an element of an optional type has inside: nothing where it is absent. The outer `None` is
/// for a value that is neither null nor a list of one value.
fn option_in(value: &Value) -> Option<Option<&Value>>
    ensures { option_map (option_map (λ v. view v.now)) result ≡ option_in (view value.now) }
{
    match value {
        Value::Null => Some(None),
        Value::Array(items) => {
            let item = only_item(items.as_slice())?;
            Some(Some(item))
        }
        _ => None,
    }
}

#[tactic(auto, using(zarr_codecs_types::proofs::FillLemmas::long_list))]
fn only_item(items: &[Value]) -> Option<&Value>
    ensures { option_map (λ v. view v.now) result ≡ only_item (items_view items.now) }
{
    match items {
        [] => None,
        [item] => Some(item),
        [_, _, ..] => None,
    }
}

/// Whether a value is an element of so many optional types that is absent by one of them.
pub(crate) fn is_absent(value: &Value, levels: usize) -> bool
    ensures { result ≡ is_absent (inside levels (view value.now)) }
{
    match inside(value, levels) {
        None => false,
        Some(None) => true,
        Some(Some(_)) => false,
    }
}

/// The number in a mask.
pub(crate) fn mark_inside(value: &Value, levels: usize) -> Option<u8>
    ensures { result ≡ mark_inside levels (view value.now) }
{
    match inside(value, levels)? {
        None => Some(0),
        Some(_) => Some(1),
    }
}

#[inline(always)]
pub(crate) fn bool_inside(value: &Value, levels: usize) -> Option<bool>
    ensures { option_map (λ flag. types.of_bytes (bool_bytes flag)) result
        ≡ cell_inside types.bool levels (view value.now) }
{
    match inside(value, levels)? {
        None => Some(false),
        Some(found) => found.as_bool(),
    }
}

#[inline(always)]
pub(crate) fn integer_inside(sign: Sign, width: usize, value: &Value, levels: usize) -> Option<i128>
    requires { width ≤ 64 }
    ensures cell { option_map (λ z. types.of_bytes (integer_bytes ((width + 7) / 8) z)) result
        ≡ cell_inside (types.integer (sign_of sign) width) levels (view value.now) }
    ensures reaches { IfSome result (Reaches ((width + 7) / 8)) }
{
    match inside(value, levels)? {
        None => Some(0),
        Some(found) => integer_in(sign, width, found),
    }
}

pub(crate) fn text_inside(value: &Value, levels: usize) -> Option<&[u8]>
    ensures { option_map (λ text. types.of_bytes text.now) result
        ≡ cell_inside types.string levels (view value.now) }
{
    match inside(value, levels)? {
        None => Some(&[]),
        Some(found) => {
            let text = found.as_str()?;
            Some(text.as_bytes())
        }
    }
}

/// The list of numbers that a value is there, which is empty where nothing stands.
pub(crate) fn list_inside(value: &Value, levels: usize) -> Option<&[Value]>
    ensures { option_map types.of_bytes
        (option_and_then (λ list. byte_list (items_view list.now)) result)
        ≡ cell_inside types.variable_bytes levels (view value.now) }
{
    match inside(value, levels)? {
        None => Some(&[]),
        Some(found) => {
            let list = found.as_array()?;
            Some(list.as_slice())
        }
    }
}

/// The byte that a value is: a number below 256.
pub(crate) fn byte_in(value: &Value) -> Option<u8>
    ensures { result ≡ byte_in (view value.now) }
{
    let number = value.as_u64()?;
    u8::try_from(number).ok()
}
