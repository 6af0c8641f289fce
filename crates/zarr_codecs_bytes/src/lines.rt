//! The ranges of bytes in which the elements of a box of an array stand.
ghost use Rattle.std.specs.Prelude.{◌≡◌, ◌≢◌, ◌*◌, ◌^◌, ◌++◌, ◌+◌, ◌<◌, ◌≤◌, ℕ, List, [], ◌∷◌, length, map, false, true, take, drop, IsTrue, IfOk, IfErr, IfNone, IfSome, OnOk};
ghost use Rattle.std.specs.List.{list_any};
ghost use Rattle.zarr_grids_boxes.specs.Boxes.{each2, product};
ghost use Rattle.zarr_grids_boxes.specs.Cuts.{IsAtMost};
ghost use Rattle.zarr_codecs_meaning.specs.Types.{is_fixed, IsTooLarge};
ghost use Rattle.zarr_codecs_arrays.specs.Views.{elements_of};
ghost use Rattle.zarr_codecs_traits.specs.Sources.{bytes_at, bytes_in_ranges};

use crate::part::BoxPart;
use crate::sizes::array_size;
use std::alloc::{AllocError, Global};
use zarr_codecs_arrays::CodecError;
use zarr_codecs_traits::ByteRange;

/// The ranges of a value in which the elements of a part of an array stand, and how many bytes the
/// value has.
#[derive(Drop)]
pub(crate) struct PartRanges {
    pub size: u64,
    pub ranges: Vec<ByteRange>,
}

/// How many bytes an element has, a line of elements that lie one after another, and the value.
#[derive(Clone, Copy)]
pub(crate) struct LineSizes {
    pub width: u64,
    pub line: u64,
    pub value: u64,
}

ghost use Rattle.zarr_codecs_bytes.specs.Lines.{AreBoxRanges, ArePartRanges, AreRowsRanges, ends_after, line_ends_within, moved_by};
ghost use Rattle.zarr_codecs_bytes.specs.Parts.{part_width};

/// How many bytes the value has. `Size` where the array has 2^63 elements or bytes or more;
/// `Memory` where an element has no bytes, which no array holds.
pub(crate) fn value_size(part: BoxPart) -> Result<u64, CodecError>
    requires { is_fixed (elements_of part.elements.now).type ≡ true }
    ensures ok { IfOk result (λ n. n ≡ product part.entry.shape.now * part_width part.entry) }
    ensures some { IfOk result (λ n. 0 < part_width part.entry) }
    ensures small { IfOk result (λ n. n < 2 ^ 63) }
    ensures err { IfErr result (λ e. e ≢ CodecError.Memory → (e ≡ CodecError.Size)
        × IsTooLarge (elements_of part.entry.elements.now).type (product part.entry.shape.now)) }
{
    array_size(part.elements.data_type(), part.shape)
}

/// The ranges in which the elements of a part of an array stand, in their order, of the value of
/// this size; those that lie one after another are one.
pub(crate) fn box_ranges(alloc: Global, part: BoxPart, size: u64) -> Result<PartRanges, AllocError>
    requires fixed { is_fixed (elements_of part.elements.now).type ≡ true }
    requires some { 0 < part_width part }
    requires size { size ≡ product part.shape.now * part_width part }
    requires small { size < 2 ^ 63 }
    ensures { IfOk result (ArePartRanges part.entry) }
{
    let Some(width) = element_width(part, size) else {
        let ranges = Vec::new(alloc);
        return Ok(PartRanges { size, ranges });
    };
    let region = part.region;
    ranges_in(alloc, region.start(), region.shape(), part.shape, width)
}

/// How many bytes an element of a part has. `None` where the part has no element.
fn element_width(part: BoxPart, size: u64) -> Option<u64>
    requires fixed { is_fixed (elements_of part.elements.now).type ≡ true }
    requires size { size ≡ product part.shape.now * part_width part }
    requires small { size < 2 ^ 63 }
    ensures none { IfNone result (product part.entry.region.now.shape.items ≡ 0) }
    ensures width { IfSome result (λ width. width ≡ part_width part.entry) }
    ensures some { IfSome result (λ width. 0 < product part.entry.region.now.shape.items) }
{
    if part.region.is_empty() {
        return None;
    }
    let Some(width) = part.elements.data_type().byte_width() else {
        return None;
    };
    Some(width as u64)
}

/// The ranges in which the elements of a box stand, of an array of this shape whose elements have
/// `width` bytes each.
fn ranges_in(
    alloc: Global,
    start: &[u64],
    region: &[u64],
    shape: &[u64],
    width: u64,
) -> Result<PartRanges, AllocError>
    requires same { length region.now ≡ length start.now }
    requires rank { length shape.now ≡ length start.now }
    requires some { 0 < product region.now }
    requires inside { IsAtMost (each2 (λ s e. s + e) start.now region.now) shape.now }
    requires small { product shape.now * width < 2 ^ 63 }
    ensures { IfOk result (AreBoxRanges width start.now region.now shape.now) }
{
    let Some((count, counts)) = region.split_first() else {
        return one_range(alloc, 0, width, width);
    };
    let row = ranges_in(alloc, &start[1..], counts, &shape[1..], width)?;
    ranges_of_rows(alloc, &row, start[0], *count, shape[0])
}

/// The ranges of a box in an array of so many rows, of the rows from `start` on, as many as
/// `count`; in each of them the box has the same ranges.
fn ranges_of_rows(
    alloc: Global,
    row: &PartRanges,
    start: u64,
    count: u64,
    rows: u64,
) -> Result<PartRanges, AllocError>
    requires fit { start + count ≤ rows }
    requires small { rows * row.now.size < 2 ^ 63 }
    requires within { list_any (ends_after row.now.size) row.now.ranges.items ≡ false }
    ensures { IfOk result (AreRowsRanges row.now start count rows) }
{
    if is_whole(row) {
        return one_range(alloc, start * row.size, count * row.size, rows * row.size);
    }
    let room = row.ranges.len().saturating_mul(count as usize);
    let mut ranges = Vec::with_capacity(alloc, room)?;
    for n in 0..count {
        push_row(&mut ranges, row, start + n)?;
    }
    Ok(PartRanges {
        size: rows * row.size,
        ranges,
    })
}

/// Whether there is one range, of all bytes of the value.
fn is_whole(found: &PartRanges) -> bool
    ensures { IsTrue result → found.now.ranges.items
        ≡ record { offset = 0; length = found.now.size } ∷ [] }
{
    let ranges = found.ranges.as_slice();
    ranges.len() == 1 && ranges[0].offset == 0 && ranges[0].length == found.size
}

/// One range, of a value of this size.
fn one_range(alloc: Global, offset: u64, length: u64, size: u64) -> Result<PartRanges, AllocError>
    ensures size { IfOk result (λ found. found.size ≡ size) }
    ensures range { IfOk result (λ found.
        found.ranges.items ≡ record { offset = offset; length = length } ∷ []) }
{
    let mut ranges = Vec::with_capacity(alloc, 1)?;
    ranges.push(ByteRange { offset, length })?;
    Ok(PartRanges { size, ranges })
}

/// Puts the ranges of a row at the end of others, for the row with this number.
fn push_row(ranges: &mut Vec<ByteRange>, row: &PartRanges, number: u64) -> Result<(), AllocError>
    requires small { number * row.now.size + row.now.size < 2 ^ 63 }
    requires within { list_any (ends_after row.now.size) row.now.ranges.items ≡ false }
    ensures { OnOk result (ranges.new.items
        ≡ ranges.old.items ++ map (moved_by (number * row.now.size)) row.now.ranges.items) }
{
    let offset = number * row.size;
    for range in row.ranges.as_slice() {
        ranges.push(ByteRange {
            offset: offset + range.offset,
            length: range.length,
        })?;
    }
    Ok(())
}

/// The range of the line that starts at the element with this number.
pub(crate) fn line_range(number: u64, sizes: LineSizes) -> ByteRange
    requires { line_ends_within sizes number ≡ true }
    ensures are { (value : List ℕ)
        → bytes_at value result ≡ take sizes.line (drop (number * sizes.width) value) }
    ensures within { ends_after sizes.value result ≡ false }
{
    ByteRange {
        offset: number * sizes.width,
        length: sizes.line,
    }
}

/// Two ranges as one, where the second begins where the first ends.
pub(crate) fn joined(first: ByteRange, second: ByteRange) -> Option<ByteRange>
    ensures are { IfSome result (λ both. (value : List ℕ)
        → bytes_at value both ≡ bytes_at value first ++ bytes_at value second) }
    ensures within { IfSome result
        (λ both. (size : ℕ) → ends_after size both ≡ ends_after size second) }
{
    match first.offset.checked_add(first.length) {
        Some(end) if end == second.offset => {}
        _ => return None,
    }
    match first.length.checked_add(second.length) {
        Some(length) => Some(ByteRange {
            offset: first.offset,
            length,
        }),
        None => None,
    }
}

/// Puts a range at the end of others, if it has a byte.
pub(crate) fn push_range(ranges: &mut Vec<ByteRange>, range: ByteRange) -> Result<(), AllocError>
    ensures are { OnOk result ((value : List ℕ) → bytes_in_ranges value ranges.new.items
        ≡ bytes_in_ranges value ranges.old.items ++ bytes_at value range) }
    ensures within { OnOk result ((size : ℕ) → list_any (ends_after size) ranges.old.items ≡ false
        → ends_after size range ≡ false → list_any (ends_after size) ranges.new.items ≡ false) }
{
    if range.length > 0 {
        ranges.push(range)?;
    }
    Ok(())
}
