//! Whether the kept bits are a component's own, and how many bytes they are packed to.
ghost use Rattle.std.specs.Prelude.{◌≡◌, ◌*◌, ◌^◌, ◌<◌, true, SomeIff};
ghost use Rattle.std.specs.List.{list_all};
ghost use Rattle.zarr_codecs_meaning.specs.Fits.{bits_fit, bits_in, packed_size};
ghost use Rattle.zarr_codecs_meaning.specs.Types.{bytes_in, components, is_fixed};
ghost use Rattle.zarr_codecs_types.specs.Views.{component_of, components_of, type_of};
ghost use Rattle.zarr_codecs_packbits.specs.Packing.{IsUncounted};
ghost use Rattle.zarr_codecs_packbits.specs.Views.{padding_of};

use crate::codec::PackBitsPaddingEncoding;
use crate::turning::Turn;
use zarr_codecs_arrays::CodecError;
use zarr_codecs_types::{Component, DataType};

/// So many bits, or more, are 2^63 bytes or more.
const LIMIT: u128 = 0x4_0000_0000_0000_0000;

/// Whether the bits that are kept are those of each component.
pub(crate) fn fit_all(turn: Turn, parts: &[Component]) -> bool
    ensures { result ≡ list_all (bits_fit turn.first turn.last) (components_of parts.now) }
{
    for part in parts {
        if !fits_component(turn, *part) {
            return false;
        }
    }
    true
}

fn fits_component(turn: Turn, part: Component) -> bool
    ensures { result ≡ bits_fit turn.first turn.last (component_of part) }
{
    let last = match turn.last {
        Some(last) => last,
        None => (part.width as u64).saturating_sub(1),
    };
    turn.first <= last && last < part.width as u64
}

/// Whether elements of a type of one size have bytes.
pub(crate) fn has_bytes(data_type: &DataType) -> bool
    ensures { is_fixed (type_of data_type.now) ≡ true → result ≡ true
        → 0 < bytes_in (components (type_of data_type.now)) }
{
    match data_type.byte_width() {
        Some(width) => width != 0,
        None => true,
    }
}

/// Why a value is not decoded to 2^63 elements or more, which would be packed to 2^60 bytes or
/// more: it has fewer, or these are too many.
pub(crate) fn error_of_uncounted(value: &[u8]) -> CodecError
    ensures { IsUncounted value.now result }
{
    if (value.len() as u64) < 1 << 60 {
        CodecError::Damage
    } else {
        CodecError::Size
    }
}

/// How many bytes so many elements are packed to, if these are fewer than 2^63.
pub(crate) fn packed_size(
    turn: Turn,
    padding: PackBitsPaddingEncoding,
    parts: &[Component],
    count: u64,
) -> Option<u64>
    requires { list_all (bits_fit turn.first turn.last) (components_of parts.now) ≡ true }
    ensures { SomeIff result
        (packed_size (padding_of padding) turn.first turn.last (components_of parts.now) count
        < 2 ^ 63)
        (packed_size (padding_of padding) turn.first turn.last (components_of parts.now) count) }
{
    let told: u128 = match padding {
        PackBitsPaddingEncoding::None => 0,
        PackBitsPaddingEncoding::FirstByte | PackBitsPaddingEncoding::LastByte => 1,
    };
    let size = told + (kept_bits(turn, parts, count)? + 7) / 8;
    if size < LIMIT / 8 {
        Some(size as u64)
    } else {
        None
    }
}

/// How many bits are kept of so many elements, if these are fewer than 2^66.
pub(crate) fn kept_bits(turn: Turn, parts: &[Component], count: u64) -> Option<u128>
    requires { list_all (bits_fit turn.first turn.last) (components_of parts.now) ≡ true }
    ensures { SomeIff result
        (bits_in turn.first turn.last (components_of parts.now) * count < 2 ^ 66)
        (bits_in turn.first turn.last (components_of parts.now) * count) }
{
    if count == 0 {
        return Some(0);
    }
    let all = element_bits(turn, parts)?.checked_mul(count as u128)?;
    if all < LIMIT { Some(all) } else { None }
}

/// How many bits are kept of an element, if these are fewer than 2^66.
pub(crate) fn element_bits(turn: Turn, parts: &[Component]) -> Option<u128>
    requires { list_all (bits_fit turn.first turn.last) (components_of parts.now) ≡ true }
    ensures { SomeIff result
        (bits_in turn.first turn.last (components_of parts.now) < 2 ^ 66)
        (bits_in turn.first turn.last (components_of parts.now)) }
{
    let Some((part, others)) = parts.split_first() else {
        return Some(0);
    };
    let all = (turn.end(*part) - turn.first as usize) as u128 + element_bits(turn, others)?;
    if all < LIMIT { Some(all) } else { None }
}
