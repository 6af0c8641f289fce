//! The offsets of elements of variable length, as elements of an index.
ghost use Rattle.std.specs.Prelude.{◌≡◌, ◌-◌, ◌≤◌, List, Some, true, flat_map, IfOk};
ghost use Rattle.zarr_codecs_meaning.specs.Encoding.{last_number};
ghost use Rattle.zarr_codecs_meaning.specs.Numbers.{digits};
ghost use Rattle.zarr_codecs_meaning.specs.Payloads.{cells_in, fixed_cells};
ghost use Rattle.zarr_codecs_meaning.specs.Types.{Cell, is_variable, integer, unsigned};
ghost use Rattle.zarr_codecs_meaning.specs.Types as types;
ghost use Rattle.zarr_codecs_arrays.specs.Views.{payload_of};
ghost use Rattle.zarr_codecs_sections.specs.Outcomes.{Indexes, offsets_read};
ghost use Rattle.zarr_codecs_sections.specs.Views.{width_of};

use crate::index::VlenIndexDataType;
use std::alloc::{AllocError, Global};
use zarr_codecs_arrays::{ArrayBytes, CodecError};

/// Where each element of variable length begins in their joined bytes, from 0 on, and where the
/// last one ends: elements of the index's data type, one more than there are elements of variable
/// length. `Size` where the last offset is too large for that type,
/// `ExpectedVariableLengthBytes` where the elements have another form.
pub fn offset_elements(
    alloc: Global,
    elements: &ArrayBytes,
    index_data_type: VlenIndexDataType,
) -> Result<ArrayBytes, CodecError>
    ensures { (type : types.DataType) (cells : List Cell) → is_variable type ≡ true
        → cells_in type (payload_of elements.now) ≡ Some cells
        → Indexes (width_of index_data_type) cells result }
{
    let ArrayBytes::Variable(_, offsets) = elements else {
        return Err(CodecError::ExpectedVariableLengthBytes);
    };
    let offsets = offsets.as_slice();
    let Some(first) = offsets.first() else {
        return Err(CodecError::ExpectedVariableLengthBytes);
    };
    if last_offset(offsets).saturating_sub(*first) > index_data_type.greatest() {
        return Err(CodecError::Size);
    }
    let bytes = offset_bytes(alloc, offsets, *first, index_data_type.byte_count())?;
    Ok(ArrayBytes::Fixed(bytes))
}

/// How far each offset is from the first one, as so many bytes each, little endian.
fn offset_bytes(
    alloc: Global,
    offsets: &[u64],
    first: u64,
    byte_count: usize,
) -> Result<Vec<u8>, AllocError>
    requires { byte_count ≤ 8 }
    ensures { IfOk result (λ v.
        v.items ≡ flat_map (λ n. digits 256 byte_count (n - first)) offsets.now) }
{
    let Some(total) = offsets.len().checked_mul(byte_count) else {
        return Err(AllocError);
    };
    let mut bytes = Vec::with_capacity(alloc, total)?;
    for offset in offsets {
        let word = offset.saturating_sub(first).to_le_bytes();
        bytes.extend_from_slice(&word[..byte_count])?;
    }
    Ok(bytes)
}

/// The offsets that the elements of an index are. `Err` only where an allocation failed or these
/// are no elements of the index's data type.
pub fn read_offsets(
    alloc: Global,
    elements: &ArrayBytes,
    index_data_type: VlenIndexDataType,
) -> Result<Vec<u64>, AllocError>
    ensures { (cells : List Cell)
        → cells_in (integer unsigned (width_of index_data_type)) (payload_of elements.now)
        ≡ Some cells → IfOk result (λ offsets. offsets.items ≡ offsets_read cells) }
{
    let ArrayBytes::Fixed(bytes) = elements else {
        return Err(AllocError);
    };
    match index_data_type {
        VlenIndexDataType::UInt32 => read_narrow(alloc, bytes.as_slice()),
        VlenIndexDataType::UInt64 => read_wide(alloc, bytes.as_slice()),
    }
}

/// The numbers that four bytes each write.
fn read_narrow(alloc: Global, bytes: &[u8]) -> Result<Vec<u64>, AllocError>
    ensures { IfOk result (λ numbers. numbers.items ≡ offsets_read (fixed_cells 4 bytes.now)) }
{
    let mut numbers = Vec::with_capacity(alloc, bytes.len() / 4)?;
    let mut rest = bytes;
    while let Some((element, others)) = rest.split_first_chunk::<4>() {
        numbers.push(u32::from_le_bytes(*element) as u64)?;
        rest = others;
    }
    Ok(numbers)
}

/// The numbers that eight bytes each write.
fn read_wide(alloc: Global, bytes: &[u8]) -> Result<Vec<u64>, AllocError>
    ensures { IfOk result (λ numbers. numbers.items ≡ offsets_read (fixed_cells 8 bytes.now)) }
{
    let mut numbers = Vec::with_capacity(alloc, bytes.len() / 8)?;
    let mut rest = bytes;
    while let Some((element, others)) = rest.split_first_chunk::<8>() {
        numbers.push(u64::from_le_bytes(*element))?;
        rest = others;
    }
    Ok(numbers)
}

/// The last offset, which is the length of the elements' joined bytes; 0 where there is none.
pub fn last_offset(offsets: &[u64]) -> u64
    ensures { result ≡ last_number 0 offsets.now }
{
    match offsets.last() {
        Some(last) => *last,
        None => 0,
    }
}
