//! Ranges of a value that are read.
ghost use Rattle.std.specs.Prelude.{◌≡◌, ◌+◌, ◌-◌, ◌^◌, min, map, flat_map, false, length, sum_by, IfOk};
ghost use Rattle.std.specs.List.{list_any};
ghost use Rattle.zarr_codecs_traits.specs.Sources.{bytes_at, bytes_in_ranges, ends_past, part_bytes};

use std::alloc::{AllocError, Global};

/// The bytes of a value from `offset` on, as many as `length`.
#[derive(Clone, Copy, Debug, PartialEq, Eq)]
pub struct ByteRange {
    pub offset: u64,
    pub length: u64,
}

/// Whether one of the ranges ends past the end of a value.
pub fn any_ends_past(value: &[u8], ranges: &[ByteRange]) -> bool
    ensures { result ≡ list_any (ends_past value.now) ranges.now }
{
    for range in ranges {
        let Some(end) = range.offset.checked_add(range.length) else {
            return true;
        };
        if end > value.len() as u64 {
            return true;
        }
    }
    false
}

/// The bytes of a value in a range.
fn bytes_at(value: &[u8], range: ByteRange) -> &[u8]
    requires { ends_past value.now range ≡ false }
    ensures { result.now ≡ bytes_at value.now range }
{
    let start = range.offset as usize;
    &value[start..start + range.length as usize]
}

/// A copy of the bytes in each range. None of the ranges may end past the end of the value.
#[tactic(auto, using(crate::proofs::PartLemmas::part_bytes_push))]
pub fn read_ranges(
    alloc: Global,
    value: &[u8],
    ranges: &[ByteRange],
) -> Result<Vec<Vec<u8>>, AllocError>
    requires { list_any (ends_past value.now) ranges.now ≡ false }
    ensures { IfOk result (λ parts. part_bytes parts.items ≡ map (bytes_at value.now) ranges.now) }
{
    let mut parts = Vec::with_capacity(alloc, ranges.len())?;
    for range in ranges {
        parts.push(Vec::from_slice(alloc, bytes_at(value, *range))?)?;
    }
    Ok(parts)
}

/// A copy of the bytes in each range, one after another. None of the ranges may end past the end of
/// the value.
pub fn read_concat(alloc: Global, value: &[u8], ranges: &[ByteRange]) -> Result<Vec<u8>, AllocError>
    requires { list_any (ends_past value.now) ranges.now ≡ false }
    ensures { IfOk result (λ bytes. bytes.items ≡ bytes_in_ranges value.now ranges.now) }
{
    let mut bytes = Vec::with_capacity(alloc, count_in_ranges(ranges))?;
    for range in ranges {
        bytes.extend_from_slice(bytes_at(value, *range))?;
    }
    Ok(bytes)
}

/// How many bytes ranges have together. 2^64 - 1 stands for all that are more.
fn count_in_ranges(ranges: &[ByteRange]) -> usize
    ensures { result ≡ min (sum_by (λ range. range.length) ranges.now) (2 ^ 64 - 1) }
{
    let mut count: usize = 0;
    for range in ranges {
        count = count.saturating_add(range.length as usize);
    }
    count
}

/// The bytes of parts, one after another. The only part is given as it is.
pub fn concat(alloc: Global, parts: Vec<Vec<u8>>) -> Result<Vec<u8>, AllocError>
    ensures { IfOk result (λ bytes.
        bytes.items ≡ flat_map (λ part. part) (part_bytes parts.items)) }
{
    let mut parts = parts;
    if parts.len() == 1 {
        return Ok(parts.pop().unwrap());
    }
    joined(alloc, parts.as_slice())
}

/// The bytes of parts, one after another.
fn joined(alloc: Global, parts: &[Vec<u8>]) -> Result<Vec<u8>, AllocError>
    ensures { IfOk result (λ bytes. bytes.items ≡ flat_map (λ part. part) (part_bytes parts.now)) }
{
    let mut bytes = Vec::with_capacity(alloc, count_bytes(parts))?;
    for part in parts {
        bytes.extend_from_slice(part)?;
    }
    Ok(bytes)
}

/// How many bytes parts have together. 2^64 - 1 stands for all that are more.
fn count_bytes(parts: &[Vec<u8>]) -> usize
    ensures { result ≡ min (sum_by length (part_bytes parts.now)) (2 ^ 64 - 1) }
{
    let mut count: usize = 0;
    for part in parts {
        count = count.saturating_add(part.len());
    }
    count
}

/// A count after as many more as the parts have bytes. At 2^128 - 1 it stands still.
pub fn count_parts(count: u128, parts: &[Vec<u8>]) -> u128
    ensures { result ≡ min (count + sum_by length (part_bytes parts.now)) (2 ^ 128 - 1) }
{
    let mut sum = count;
    for part in parts {
        sum = sum.saturating_add(part.len() as u128);
    }
    sum
}
