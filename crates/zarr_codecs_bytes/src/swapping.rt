//! Elements whose components are put the other way round.
ghost use Rattle.std.specs.Prelude.{◌≡◌, ◌/◌, ◌%◌, ◌<◌, ◌≤◌, take, drop, ◌++◌, length, map, reverse, flat_map, Some, IfOk, OnOk};
ghost use Rattle.std.specs.Simd.{first_chunks};
ghost use Rattle.zarr_codecs_meaning.specs.Chains.Endianness.{big};
ghost use Rattle.zarr_codecs_meaning.specs.Types.{components, bytes_in};
ghost use Rattle.zarr_codecs_meaning.specs.Encoding.{ordered};
ghost use Rattle.zarr_codecs_types.specs.Views.{type_of, components_of};
ghost use Rattle.zarr_codecs_bytes.specs.Orders.{all_ordered};

use std::alloc::{AllocError, Global};
use zarr_codecs_types::{Component, DataType};

/// How many numbers are put the other way round at a time: the processor's nearest cache holds
/// them.
const BLOCK: usize = 512;

/// Elements of one size with the bytes of each component the other way round.
pub(crate) fn swapped(
    alloc: Global,
    data_type: &DataType,
    bytes: Vec<u8>,
) -> Result<Vec<u8>, AllocError>
    requires positive { 0 < bytes_in (components (type_of data_type.now)) }
    requires whole { length bytes.items % bytes_in (components (type_of data_type.now)) ≡ 0 }
    ensures { IfOk result (λ v.
        v.items ≡ all_ordered (Some big) (components (type_of data_type.now)) bytes.items) }
{
    match data_type {
        DataType::Int16 | DataType::UInt16 => swapped_numbers::<2>(alloc, bytes.as_slice()),
        DataType::Int32 | DataType::UInt32 => swapped_numbers::<4>(alloc, bytes.as_slice()),
        DataType::Int64 | DataType::UInt64 => swapped_numbers::<8>(alloc, bytes.as_slice()),
        DataType::Custom(parts) => swapped_elements(alloc, parts.as_slice(), bytes.as_slice()),
        _ => Ok(bytes),
    }
}

/// Numbers of W bytes each, with the bytes of each the other way round.
fn swapped_numbers<const W: usize>(alloc: Global, bytes: &[u8]) -> Result<Vec<u8>, AllocError>
    requires some { 0 < W }
    requires small { W ≤ 8 }
    ensures { IfOk result (λ v. v.items ≡ flat_map (λ ns. ns)
        (map reverse (first_chunks W (length bytes.now / W) bytes.now))) }
{
    let (numbers, _) = bytes.as_chunks::<W>();
    let mut out = Vec::with_capacity(alloc, bytes.len())?;
    let mut rest = numbers;
    while !rest.is_empty() {
        let (block, others) = rest.split_at(rest.len().min(BLOCK));
        let reversed = reversed_numbers(alloc, block)?;
        out.extend_from_slice(reversed.as_slice().as_flattened())?;
        rest = others;
    }
    Ok(out)
}

fn reversed_numbers<const W: usize>(
    alloc: Global,
    numbers: &[[u8; W]],
) -> Result<Vec<[u8; W]>, AllocError>
    requires { W ≤ 8 }
    ensures { IfOk result (λ v. v.items ≡ map reverse numbers.now) }
{
    numbers
        .iter()
        .map(
            |number: &[u8; W]| -> [u8; W]
                ensures { result ≡ reverse number.now }
            {
                let mut other = *number;
                other.reverse();
                other
            },
        )
        .collect(alloc)
}

/// Elements of a caller's type with the bytes of each component the other way round.
fn swapped_elements(alloc: Global, parts: &[Component], bytes: &[u8]) -> Result<Vec<u8>, AllocError>
    requires positive { 0 < bytes_in (components_of parts.now) }
    requires whole { length bytes.now % bytes_in (components_of parts.now) ≡ 0 }
    ensures { IfOk result
        (λ v. v.items ≡ all_ordered (Some big) (components_of parts.now) bytes.now) }
{
    let mut out = Vec::with_capacity(alloc, bytes.len())?;
    let mut rest = bytes;
    while !rest.is_empty() {
        rest = push_swapped(&mut out, parts, rest)?;
    }
    Ok(out)
}

/// Appends the first element with the bytes of each component the other way round, and gives the
/// bytes after it.
fn push_swapped<'a>(
    out: &mut Vec<u8>,
    parts: &[Component],
    bytes: &'a [u8],
) -> Result<&'a [u8], AllocError>
    requires { bytes_in (components_of parts.now) ≤ length bytes.now }
    ensures written { OnOk result (out.new.items ≡ out.old.items
        ++ ordered (Some big) (components_of parts.now)
        (take (bytes_in (components_of parts.now)) bytes.now)) }
    ensures rest { IfOk result
        (λ rest. rest.now ≡ drop (bytes_in (components_of parts.now)) bytes.now) }
{
    let Some((part, others)) = parts.split_first() else {
        return Ok(bytes);
    };
    let (component, rest) = bytes.split_at(part.byte_count);
    push_reversed(out, component)?;
    push_swapped(out, others, rest)
}

fn push_reversed(out: &mut Vec<u8>, component: &[u8]) -> Result<(), AllocError>
    ensures { OnOk result (out.new.items ≡ out.old.items ++ reverse component.now) }
{
    let start = out.len();
    out.extend_from_slice(component)?;
    out[start..].reverse();
    Ok(())
}
