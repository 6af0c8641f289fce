//! Elements of variable length by their numbers.
ghost use Rattle.std.specs.Prelude.{◌≡◌, ◌∷◌, ◌-◌, ◌≤◌, List, length, take, drop, map, flat_map, IfOk, IfSome};
ghost use Rattle.zarr_codecs_meaning.specs.Payloads.{variable};
ghost use Rattle.zarr_codecs_arrays.specs.Views.{payload_of};
ghost use Rattle.zarr_codecs_regions.specs.Pieces.{ends_of, piece_of};

use std::alloc::{AllocError, Global};
use zarr_codecs_arrays::{ArrayBytes, ArrayBytesOffsets};

/// The elements of variable length with these numbers. `Err` also where there is none with one of
/// them, or offsets do not suit the bytes.
pub(crate) fn gather_variable(
    alloc: Global,
    bytes: &[u8],
    offsets: &[u64],
    numbers: &[u64],
) -> Result<ArrayBytes, AllocError>
    ensures { IfOk result (λ a. payload_of a
        ≡ variable (flat_map (piece_of offsets.now bytes.now) numbers.now)
        (0 ∷ ends_of 0 (map (piece_of offsets.now bytes.now) numbers.now))) }
{
    let ends = gather_offsets(alloc, bytes, offsets, numbers)?;
    let gathered = gather_pieces(alloc, bytes, offsets, numbers)?;
    match ArrayBytesOffsets::new(ends) {
        Some(ends) => Ok(ArrayBytes::Variable(gathered, ends)),
        None => Err(AllocError),
    }
}

/// Where the elements with these numbers begin and where the last one ends, one after another.
fn gather_offsets(
    alloc: Global,
    bytes: &[u8],
    offsets: &[u64],
    numbers: &[u64],
) -> Result<Vec<u64>, AllocError>
    ensures { IfOk result (λ v. v.items
        ≡ 0 ∷ ends_of 0 (map (piece_of offsets.now bytes.now) numbers.now)) }
{
    let mut ends = Vec::with_capacity(alloc, numbers.len())?;
    let mut end: u64 = 0;
    ends.push(end)?;
    for number in numbers {
        let Some(piece) = piece_of(bytes, offsets, *number) else {
            return Err(AllocError);
        };
        let Some(next) = end.checked_add(piece.len() as u64) else {
            return Err(AllocError);
        };
        end = next;
        ends.push(end)?;
    }
    Ok(ends)
}

/// The bytes of the elements with these numbers, one after another. Elements that stand so already
/// are copied together.
fn gather_pieces(
    alloc: Global,
    bytes: &[u8],
    offsets: &[u64],
    numbers: &[u64],
) -> Result<Vec<u8>, AllocError>
    ensures { IfOk result
        (λ v. v.items ≡ flat_map (piece_of offsets.now bytes.now) numbers.now) }
{
    let mut gathered = Vec::new(alloc);
    let mut start: usize = 0;
    let mut end: usize = 0;
    for number in numbers {
        let Some(piece) = bounds_of(bytes, offsets, *number) else {
            return Err(AllocError);
        };
        if piece.0 != end {
            gathered.extend_from_slice(&bytes[start..end])?;
            start = piece.0;
        }
        end = piece.1;
    }
    gathered.extend_from_slice(&bytes[start..end])?;
    Ok(gathered)
}

/// The bytes of the element with this number, where there is one.
pub(crate) fn piece_of<'a>(bytes: &'a [u8], offsets: &[u64], number: u64) -> Option<&'a [u8]>
    ensures { IfSome result (λ piece. piece.now ≡ piece_of offsets.now bytes.now number) }
{
    let (start, end) = bounds_of(bytes, offsets, number)?;
    Some(&bytes[start..end])
}

/// Where the bytes of the element with this number begin and end, where there is one.
fn bounds_of(bytes: &[u8], offsets: &[u64], number: u64) -> Option<(usize, usize)>
    ensures order { IfSome result (λ bounds. bounds.0 ≤ bounds.1) }
    ensures within { IfSome result (λ bounds. bounds.1 ≤ length bytes.now) }
    ensures piece { IfSome result (λ bounds. take (bounds.1 - bounds.0) (drop bounds.0 bytes.now)
        ≡ piece_of offsets.now bytes.now number) }
{
    let first = number as usize;
    let start = *offsets.get(first)? as usize;
    let end = *offsets.get(first.checked_add(1)?)? as usize;
    if start > end || end > bytes.len() {
        return None;
    }
    Some((start, end))
}
