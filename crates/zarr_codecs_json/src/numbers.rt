//! Elements of one number, as JSON.
ghost use Rattle.std.specs.Prelude.{◌≡◌, ℕ, ◌≤◌, ◌<◌, ◌+◌, ◌/◌, ◌++◌, Some, false, length, IfSome, OnOk, OnErr};
ghost use Rattle.serde_json.specs.Data.{array};
ghost use Rattle.serde_json.specs.Written.{compact_text, items_text, comma_if};
ghost use Rattle.zarr_codecs_meaning.specs.Numbers.{number};
ghost use Rattle.zarr_codecs_types.specs.Views.{type_of};
ghost use Rattle.zarr_codecs_json.specs.Texts.{Begins, single_width, kind_type, fixed_data, element_text};
ghost use Rattle.zarr_codecs_json.specs.declared.numbers.Kind.TheVariants as kind;

use crate::naturals::push_natural;
use crate::short_numbers::push_short_numbers;
use std::alloc::AllocError;
use zarr_codecs_types::DataType;

/// What the one number of an element is.
#[derive(Clone, Copy, Debug, PartialEq, Eq)]
pub(crate) enum Kind {
    Bool,
    Unsigned,
    Signed,
}

/// How many bytes the one number of an element takes, of a type of such elements.
pub(crate) fn number_width(data_type: &DataType) -> Option<usize>
    ensures value { result ≡ single_width (type_of data_type.now) }
    ensures positive { IfSome result (λ width. 0 < width) }
    ensures few { IfSome result (λ width. width ≤ 8) }
{
    match data_type {
        DataType::Bool | DataType::Int2 | DataType::Int4 | DataType::Int8 => Some(1),
        DataType::UInt2 | DataType::UInt4 | DataType::UInt8 => Some(1),
        DataType::Int16 | DataType::UInt16 => Some(2),
        DataType::Int32 | DataType::UInt32 => Some(4),
        DataType::Int64 | DataType::UInt64 => Some(8),
        _ => None,
    }
}

/// Appends the list of the elements that bytes are.
pub(crate) fn push_list(
    text: &mut Vec<u8>,
    data_type: &DataType,
    bytes: &[u8],
) -> Result<(), AllocError>
    ensures ok { (width : ℕ) → single_width (type_of data_type.now) ≡ Some width
        → OnOk result (text.new.items ≡ text.old.items
        ++ compact_text (array (fixed_data (type_of data_type.now) width bytes.now))) }
    ensures err { OnErr result (Begins text.old.items text.new.items) }
{
    text.push(b'[')?;
    match data_type {
        DataType::Bool => push_numbers(text, Kind::Bool, 1, bytes),
        DataType::Int2 => push_numbers(text, Kind::Signed, 2, bytes),
        DataType::Int4 => push_numbers(text, Kind::Signed, 4, bytes),
        DataType::Int8 => push_numbers(text, Kind::Signed, 8, bytes),
        DataType::Int16 => push_numbers(text, Kind::Signed, 16, bytes),
        DataType::Int32 => push_numbers(text, Kind::Signed, 32, bytes),
        DataType::Int64 => push_numbers(text, Kind::Signed, 64, bytes),
        DataType::UInt2 => push_short_numbers(text, 2, bytes),
        DataType::UInt4 => push_short_numbers(text, 4, bytes),
        DataType::UInt8 => push_short_numbers(text, 8, bytes),
        DataType::UInt16 => push_short_numbers(text, 16, bytes),
        DataType::UInt32 => push_numbers(text, Kind::Unsigned, 32, bytes),
        DataType::UInt64 => push_numbers(text, Kind::Unsigned, 64, bytes),
        _ => Ok(()),
    }
}

/// Appends the numbers that bytes are, with commas between them, and the list's end. Compiled for
/// each type of its own.
#[inline(always)]
pub(crate) fn push_numbers(
    text: &mut Vec<u8>,
    kind: Kind,
    width: usize,
    bytes: &[u8],
) -> Result<(), AllocError>
    requires some { 0 < width }
    requires narrow { width ≤ 64 }
    ensures ok { OnOk result (text.new.items ≡ text.old.items
        ++ items_text false (fixed_data (kind_type kind width) ((width + 7) / 8) bytes.now)) }
    ensures err { OnErr result (Begins text.old.items text.new.items) }
{
    let count = (width + 7) / 8;
    let mut rest = bytes;
    let mut later = false;
    while rest.len() >= count {
        let (element, others) = rest.split_at(count);
        push_element(text, later, kind, width, element)?;
        later = true;
        rest = others;
    }
    text.push(b']')?;
    Ok(())
}

/// Appends an element, after a comma where another stands before it.
#[inline(always)]
pub(crate) fn push_element(
    text: &mut Vec<u8>,
    later: bool,
    kind: Kind,
    width: usize,
    element: &[u8],
) -> Result<(), AllocError>
    requires narrow { width ≤ 64 }
    requires few { length element.now ≤ 8 }
    ensures ok { OnOk result (text.new.items ≡ text.old.items
        ++ (comma_if later ++ element_text kind width element.now)) }
    ensures err { OnErr result (Begins text.old.items text.new.items) }
{
    push_comma(text, later)?;
    match kind {
        Kind::Bool => push_bool(text, element),
        Kind::Unsigned => push_natural(text, number(element)),
        Kind::Signed => push_signed(text, width, element),
    }
}

#[inline(always)]
pub(crate) fn push_comma(text: &mut Vec<u8>, later: bool) -> Result<(), AllocError>
    ensures ok { OnOk result (text.new.items ≡ text.old.items ++ comma_if later) }
    ensures err { OnErr result (text.new.items ≡ text.old.items) }
{
    if !later {
        return Ok(());
    }
    text.push(b',')?;
    Ok(())
}

/// Appends `false` for a zero byte alone, else `true`.
#[inline(always)]
fn push_bool(text: &mut Vec<u8>, element: &[u8]) -> Result<(), AllocError>
    ensures ok { OnOk result (text.new.items
        ≡ text.old.items ++ element_text kind.Bool 1 element.now) }
    ensures err { OnErr result (text.new.items ≡ text.old.items) }
{
    if element == [0].as_slice() {
        text.extend_from_slice(b"false")
    } else {
        text.extend_from_slice(b"true")
    }
}

/// Appends a number of so many bits that stands in bytes in two's complement.
#[inline(always)]
fn push_signed(text: &mut Vec<u8>, width: usize, element: &[u8]) -> Result<(), AllocError>
    requires narrow { width ≤ 64 }
    requires few { length element.now ≤ 8 }
    ensures ok { OnOk result (text.new.items
        ≡ text.old.items ++ element_text kind.Signed width element.now) }
    ensures err { OnErr result (Begins text.old.items text.new.items) }
{
    let word = number(element);
    if word < 2u64.pow(width.saturating_sub(1) as u32) {
        return push_natural(text, word);
    }
    let all = 256u128.pow(element.len() as u32);
    text.push(b'-')?;
    push_natural(text, (all - word as u128) as u64)
}

/// The number that bytes write, the lowest first.
#[inline(always)]
fn number(bytes: &[u8]) -> u64
    requires { length bytes.now ≤ 8 }
    ensures { result ≡ number 256 bytes.now }
{
    match bytes {
        [a] => *a as u64,
        [a, b] => *a as u64 + 256 * *b as u64,
        [a, b, c, d] => { *a as u64 + 256 * (*b as u64 + 256 * (*c as u64 + 256 * *d as u64)) }
        [a, b, c, d, e, f, g, h] => {
            let high = *e as u64 + 256 * (*f as u64 + 256 * (*g as u64 + 256 * *h as u64));
            *a as u64 + 256 * (*b as u64 + 256 * (*c as u64 + 256 * (*d as u64 + 256 * high)))
        }
        _ => any_number(bytes),
    }
}

/// The number that any few bytes write, the lowest first.
fn any_number(bytes: &[u8]) -> u64
    requires { length bytes.now ≤ 8 }
    ensures { result ≡ number 256 bytes.now }
{
    match bytes {
        [] => 0,
        [first, rest @ ..] => *first as u64 + 256 * any_number(rest),
    }
}
