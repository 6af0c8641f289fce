//! Which cells are values of a data type.
ghost use Rattle.std.specs.Prelude.{◌≡◌, ◌≤◌, ◌∷◌, ◌==◌, ◌&&◌, length};
ghost use Rattle.std.specs.List.{list_all};
ghost use Rattle.zarr_codecs_meaning.specs.Types as types;
ghost use Rattle.zarr_codecs_types.specs.Views.{type_of, cell_of, sign_of, component_of, components_of};
ghost use Rattle.zarr_codecs_types.specs.Parts.{is_extended, is_negative, are_components_of};

use crate::cell::Cell;
use crate::data_type::{Component, DataType, Sign};

/// Whether a cell is a value of a data type: of a fixed type it has the right number of bytes,
/// and the bits above each number's own are as its sign says; of a type of variable length any
/// bytes are.
pub fn is_value(data_type: &DataType, cell: &Cell) -> bool
    ensures { result ≡ types.is_value (type_of data_type.now) (cell_of cell.now) }
{
    match cell {
        Cell::Bytes(bytes) => is_value_in_bytes(data_type, bytes.as_slice()),
        Cell::Absent => data_type.is_optional(),
        Cell::Present(cell) => match data_type {
            DataType::Optional(inner) => is_value(inner, cell),
            _ => false,
        },
    }
}

/// Whether bytes are a value of a data type.
pub fn is_value_in_bytes(data_type: &DataType, bytes: &[u8]) -> bool
    ensures { result ≡ types.is_value_in_bytes (type_of data_type.now) bytes.now }
{
    match data_type {
        DataType::String | DataType::Bytes => true,
        DataType::Optional(_) => false,
        DataType::Custom(parts) => are_components(parts.as_slice(), bytes),
        _ => match data_type.single_component() {
            Some(component) => are_components(&[component], bytes),
            None => false,
        },
    }
}

/// Whether the bytes write these components one after another, and nothing more.
fn are_components(parts: &[Component], bytes: &[u8]) -> bool
    ensures { result ≡ are_components_of (components_of parts.now) bytes.now }
{
    let mut rest = bytes;
    for part in parts {
        if rest.len() < part.byte_count {
            return false;
        }
        let (first, others) = rest.split_at(part.byte_count);
        if !is_component(*part, first) {
            return false;
        }
        rest = others;
    }
    rest.is_empty()
}

/// Whether the bits above a component's own are as its sign rule says.
fn is_component(component: Component, bytes: &[u8]) -> bool
    requires { length bytes.now ≡ component.byte_count }
    ensures { result ≡ types.is_component (component_of component) bytes.now }
{
    let last = component.width.saturating_sub(1) / 8;
    if last >= bytes.len() {
        return true;
    }
    let width = component.width - 8 * last;
    is_extended(component.sign, width, bytes[last], &bytes[last + 1..])
}

/// Whether the byte with the highest of a number's own bits, of which it has so many, and the
/// bytes above it are as the sign rule says.
fn is_extended(sign: Sign, width: usize, last: u8, above: &[u8]) -> bool
    requires { width ≤ 8 }
    ensures { result ≡ is_extended (sign_of sign) width (last ∷ above.now) }
{
    let last = last as u16;
    let end = 2u16.pow(width as u32);
    let own = last % end;
    if is_negative(sign, width, own) {
        last + end == own + 256 && are_all(255, above)
    } else {
        last == own && are_all(0, above)
    }
}

/// Whether a number of so many bits has a sign and is below zero.
fn is_negative(sign: Sign, width: usize, own: u16) -> bool
    requires { width ≤ 8 }
    ensures { result ≡ is_negative (sign_of sign) width own }
{
    match sign {
        Sign::Unsigned => false,
        Sign::Signed => own >= 2u16.pow(width.saturating_sub(1) as u32),
    }
}

fn are_all(value: u8, bytes: &[u8]) -> bool
    ensures { result ≡ list_all (λ b. b == value) bytes.now }
{
    bytes.iter().all(|byte| *byte == value)
}
