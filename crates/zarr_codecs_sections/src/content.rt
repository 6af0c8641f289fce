//! The joined bytes of elements of variable length.
ghost use Rattle.std.specs.Prelude.{◌≡◌, ◌==◌, ◌&&◌, List, Some, true, drop, flat_map, IfOk};
ghost use Rattle.zarr_codecs_meaning.specs.Encoding.{last_number};
ghost use Rattle.zarr_codecs_meaning.specs.Payloads.{cells_in};
ghost use Rattle.zarr_codecs_meaning.specs.Types.{Cell, are_bytes, cell_bytes, is_variable, uint8};
ghost use Rattle.zarr_codecs_meaning.specs.Types as types;
ghost use Rattle.zarr_codecs_arrays.specs.Views.{payload_of};
ghost use Rattle.zarr_codecs_sections.specs.Marks.{begins_at_zero};
ghost use Rattle.zarr_codecs_sections.specs.Outcomes.{Cuts, IsContent};

use crate::offsets::last_offset;
use std::alloc::{AllocError, Global};
use zarr_codecs_arrays::{ArrayBytes, ArrayBytesOffsets};

/// The bytes of elements of variable length, one element after another: elements of `uint8`, as
/// many as there are bytes. `Err` only where an allocation failed, or the elements have another
/// form.
pub fn joined_bytes(alloc: Global, elements: ArrayBytes) -> Result<Vec<u8>, AllocError>
    ensures { (type : types.DataType) (cells : List Cell) → is_variable type ≡ true
        → cells_in type (payload_of elements) ≡ Some cells
        → IfOk result (λ content. IsContent cells content.items) }
{
    let ArrayBytes::Variable(bytes, offsets) = elements else {
        return Err(AllocError);
    };
    match offsets.as_slice().first() {
        Some(first) => from_first(alloc, bytes, *first),
        None => Err(AllocError),
    }
}

/// The bytes without those before the first offset.
fn from_first(alloc: Global, bytes: Vec<u8>, first: u64) -> Result<Vec<u8>, AllocError>
    ensures value { IfOk result (λ content. content.items ≡ drop first bytes.items) }
    ensures bytes { IfOk result (λ content. are_bytes content.items ≡ true) }
{
    if first == 0 {
        return Ok(bytes);
    }
    match bytes.as_slice().get(first as usize..) {
        Some(content) => copied(alloc, content),
        None => Err(AllocError),
    }
}

/// The same bytes.
fn copied(alloc: Global, bytes: &[u8]) -> Result<Vec<u8>, AllocError>
    ensures value { IfOk result (λ copy. copy.items ≡ bytes.now) }
    ensures bytes { are_bytes bytes.now ≡ true }
{
    bytes.to_vec(alloc)
}

/// The elements of variable length that offsets cut out of bytes, which are elements of `uint8`.
/// `None` where the offsets don't begin at 0, one is less than the one before it, or the last one
/// isn't where the bytes end; and where these are no elements of `uint8`.
pub fn cut_elements(offsets: Vec<u64>, content: ArrayBytes) -> Option<ArrayBytes>
    ensures { (bytes : List Cell) → cells_in uint8 (payload_of content) ≡ Some bytes
        → Cuts offsets.items (flat_map cell_bytes bytes) result }
{
    let ArrayBytes::Fixed(content) = content else {
        return None;
    };
    if !are_ends(offsets.as_slice(), content.len() as u64) {
        return None;
    }
    match ArrayBytesOffsets::new(offsets) {
        Some(offsets) => Some(ArrayBytes::Variable(content, offsets)),
        None => None,
    }
}

/// Whether offsets begin at 0, and the last one is a length.
fn are_ends(offsets: &[u64], length: u64) -> bool
    ensures { result ≡ (begins_at_zero offsets.now && (last_number 0 offsets.now == length)) }
{
    match offsets.first() {
        Some(first) => *first == 0 && last_offset(offsets) == length,
        None => false,
    }
}
