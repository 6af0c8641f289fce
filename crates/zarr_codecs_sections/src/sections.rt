//! Two sections of bytes joined to one value, and cut again.
ghost use Rattle.std.specs.Prelude.{◌≡◌, ◌++◌, [], Some, length, option_map, IfOk};
ghost use Rattle.zarr_codecs_meaning.specs.Chains.Location.{at_start, at_end};
ghost use Rattle.zarr_codecs_meaning.specs.Decoding.{sections_of, masked_of};
ghost use Rattle.zarr_codecs_meaning.specs.Encoding.{with_index, with_mask};
ghost use Rattle.zarr_codecs_meaning.specs.Numbers.{word};
ghost use Rattle.zarr_codecs_sections.specs.Views.{location_of, sections_in};

use crate::index::VlenIndexLocation;
use crate::words::{push_word, split_word, word_in};
use std::alloc::{AllocError, Global};

/// The sections of a value: the index of `vlen` or the mask of `optional` is the first, the data
/// the second, wherever they stand in the value.
#[derive(Clone, Copy)]
pub struct Sections<'a> {
    pub first: &'a [u8],
    pub second: &'a [u8],
}

/// The value of `vlen` (this project's profile): the index's length as eight bytes, little endian,
/// the index and the data; or the data, the index and the length. `Err` only where an allocation
/// failed.
pub fn join_index(
    alloc: Global,
    location: VlenIndexLocation,
    index: &[u8],
    content: &[u8],
) -> Result<Vec<u8>, AllocError>
    ensures { IfOk result (λ value.
        with_index (location_of location) index.now content.now ≡ Some value.items) }
{
    match location {
        VlenIndexLocation::Start => join_at_start(alloc, index, content),
        VlenIndexLocation::End => join_at_end(alloc, index, content),
    }
}

/// The index's length, the index and the data.
fn join_at_start(alloc: Global, index: &[u8], content: &[u8]) -> Result<Vec<u8>, AllocError>
    ensures { IfOk result (λ value.
        value.items ≡ (word (length index.now) ++ index.now) ++ content.now) }
{
    let mut value = room_for(alloc, index, content)?;
    push_word(&mut value, index.len() as u64)?;
    value.extend_from_slice(index)?;
    value.extend_from_slice(content)?;
    Ok(value)
}

/// The data, the index and the index's length.
fn join_at_end(alloc: Global, index: &[u8], content: &[u8]) -> Result<Vec<u8>, AllocError>
    ensures { IfOk result (λ value.
        value.items ≡ (content.now ++ index.now) ++ word (length index.now)) }
{
    let mut value = room_for(alloc, index, content)?;
    value.extend_from_slice(content)?;
    value.extend_from_slice(index)?;
    push_word(&mut value, index.len() as u64)?;
    Ok(value)
}

/// No bytes, in memory for two sections and their lengths.
fn room_for(alloc: Global, first: &[u8], second: &[u8]) -> Result<Vec<u8>, AllocError>
    ensures { IfOk result (λ value. value.items ≡ []) }
{
    match first.len().checked_add(second.len()) {
        Some(total) => Vec::with_capacity(alloc, total.saturating_add(16)),
        None => Err(AllocError),
    }
}

/// The index and the data of a value of `vlen`. `None` where the value is shorter than its eight
/// bytes and the index's length tell.
pub fn split_index(value: &[u8], location: VlenIndexLocation) -> Option<Sections<'_>>
    ensures { option_map sections_in result ≡ sections_of (location_of location) value.now }
{
    match location {
        VlenIndexLocation::Start => split_at_start(value),
        VlenIndexLocation::End => split_at_end(value),
    }
}

/// The index and the data of a value that begins with the index's length.
fn split_at_start(value: &[u8]) -> Option<Sections<'_>>
    ensures { option_map sections_in result ≡ sections_of at_start value.now }
{
    let (long, rest) = split_word(value)?;
    let (first, second) = rest.split_at_checked(long as usize)?;
    Some(Sections { first, second })
}

/// The index and the data of a value that ends with the index's length.
fn split_at_end(value: &[u8]) -> Option<Sections<'_>>
    ensures { option_map sections_in result ≡ sections_of at_end value.now }
{
    let front = value.len().checked_sub(8)?;
    let (rest, told) = value.split_at(front);
    let start = front.checked_sub(word_in(told) as usize)?;
    let (second, first) = rest.split_at(start);
    Some(Sections { first, second })
}

/// The value of `optional` (this project's profile): the lengths of the mask and of the data as
/// eight bytes each, little endian, the mask and the data. `Err` only where an allocation failed.
pub fn join_mask(alloc: Global, mask: &[u8], content: &[u8]) -> Result<Vec<u8>, AllocError>
    ensures { IfOk result (λ value. with_mask mask.now content.now ≡ Some value.items) }
{
    let mut value = room_for(alloc, mask, content)?;
    push_word(&mut value, mask.len() as u64)?;
    push_word(&mut value, content.len() as u64)?;
    value.extend_from_slice(mask)?;
    value.extend_from_slice(content)?;
    Ok(value)
}

/// The mask and the data of a value of `optional`. `None` where the value isn't as long as its two
/// lengths tell.
pub fn split_mask(value: &[u8]) -> Option<Sections<'_>>
    ensures { option_map sections_in result ≡ masked_of value.now }
{
    let (long, rest) = split_word(value)?;
    let (other, sections) = split_word(rest)?;
    if long.checked_add(other)? != sections.len() as u64 {
        return None;
    }
    let (first, second) = sections.split_at(long as usize);
    Some(Sections { first, second })
}
