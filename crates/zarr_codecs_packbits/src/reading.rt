//! The elements that are asked for of a packed array, of a source that is read in part.
ghost use Rattle.std.specs.Prelude.{◌≡◌, ◌≤◌, ◌<◌, ◌+◌, ◌^◌, ℕ, List, Err, Some, length, option_map, IfErr, IfNone, IfOk, IfSome, IsTrue, OnOk};
ghost use Rattle.zarr_grids_boxes.specs.Boxes.{product};
ghost use Rattle.zarr_codecs_meaning.specs.Chains.Padding.{no_padding_byte};
ghost use Rattle.zarr_codecs_meaning.specs.Types.{bytes_in};
ghost use Rattle.zarr_codecs_types.specs.Views.{components_of};
ghost use Rattle.zarr_codecs_traits.specs.ReadBytes.{bytes_touched};
ghost use Rattle.zarr_codecs_traits.specs.Sources.{refused_after};
ghost use Rattle.zarr_codecs_packbits.specs.Parts.{AreAsked, GivesPacked, IsUnreadable, bits_of_packed, most_of_packed, numbers_of_packed, size_of_packed};
ghost use Rattle.zarr_codecs_packbits.specs.Spans.{AreSpans, total_length};
ghost use Rattle.zarr_codecs_packbits.specs.Views.{padding_of};

use crate::part::{PackedBits, PackedPart};
use crate::partial::{fill_packed, read_whole};
use crate::sizes::{element_bits, has_bytes, packed_size};
use crate::spans::{Span, SpanRanges, box_spans, span_ranges, spans_of, total_length};
use crate::turning::Way;
use crate::unpacking::unpack_spans;
use std::alloc::{AllocError, Global};
use zarr_codecs_arrays::{ArrayBytes, CodecError};
use zarr_codecs_traits::{BytesPartialDecoderTraits, Indexer};
use zarr_grids_boxes::walk::count_places;

/// The elements that are asked for of an array without a padding byte, of the value that a source
/// holds. It is asked for the bytes that their bits touch; where these are more than the value has,
/// for the whole value, once. `Damage` where the value has another length; `Source` where the
/// source refuses.
pub(crate) fn read_ranges<D: BytesPartialDecoderTraits>(
    alloc: Global,
    source: &mut D,
    packed: PackedPart,
) -> Result<ArrayBytes, CodecError>
    requires { padding_of packed.codec.padding ≡ no_padding_byte }
    ensures part { IsTrue (D.is_honest source.old) →
        GivesPacked (D.contents source.old) packed.entry result }
    ensures refused { D.refused_calls source.new ≡
        refused_after (D.refused_calls source.old) result }
    ensures given { IsTrue (D.is_honest source.old) → D.given_bytes source.new
        ≤ D.given_bytes source.old + most_of_packed (D.contents source.old) packed.entry }
    ensures follows { D.follows source.old source.new }
{
    match source.size() {
        Ok(Some(total)) => read_sized(alloc, source, packed, total),
        Ok(None) => fill_packed(alloc, packed),
        Err(error) => Err(error),
    }
}

/// `read_ranges` of a value of so many bytes.
fn read_sized<D: BytesPartialDecoderTraits>(
    alloc: Global,
    source: &mut D,
    packed: PackedPart,
    total: u64,
) -> Result<ArrayBytes, CodecError>
    requires untold { padding_of packed.codec.padding ≡ no_padding_byte }
    requires sized { IsTrue (D.is_honest source.old) →
        Some total ≡ option_map length (D.contents source.old) }
    ensures part { IsTrue (D.is_honest source.old) →
        GivesPacked (D.contents source.old) packed.entry result }
    ensures refused { D.refused_calls source.new ≡
        refused_after (D.refused_calls source.old) result }
    ensures given { IsTrue (D.is_honest source.old) → D.given_bytes source.new
        ≤ D.given_bytes source.old + most_of_packed (D.contents source.old) packed.entry }
    ensures follows { D.follows source.old source.new }
{
    if let Err(error) = test_size(packed, total) {
        return Err(error);
    }
    let Some(bits) = packed_bits(packed) else {
        return read_whole(alloc, source, packed);
    };
    match ranges_asked(alloc, packed, bits.bits, total)? {
        Some(found) => read_spans(alloc, source, packed, bits, &found),
        None => read_whole(alloc, source, packed),
    }
}

/// Tests that a value has as many bytes as the array is packed to.
fn test_size(packed: PackedPart, total: u64) -> Result<(), CodecError>
    ensures sized { OnOk result (total ≡ size_of_packed packed.entry) }
    ensures small { OnOk result (total < 2 ^ 63) }
    ensures positive { OnOk result (0 < bytes_in (components_of packed.entry.components.now)) }
    ensures cause { IfErr result (λ e. (value : List ℕ) → length value ≡ total
        → GivesPacked (Some value) packed.entry (Err e)) }
    ensures no_source { (count : ℕ) → refused_after count result ≡ count }
{
    let part = packed.part;
    if !has_bytes(part.elements.data_type()) {
        return Err(CodecError::Memory);
    }
    let Some(count) = count_places(part.shape) else {
        return Err(CodecError::Size);
    };
    let codec = packed.codec;
    match packed_size(
        codec.turn(Way::Restore),
        codec.padding,
        packed.components,
        count,
    ) {
        Some(size) => {
            if size != total {
                return Err(CodecError::Damage);
            }
            Ok(())
        }
        None => Err(error_of_long(packed, count, total)),
    }
}

/// Why a value of an array that is packed to 2^63 bytes or more is not read: it has fewer, or the
/// array's elements are too many. `Memory` of a caller's type alone whose elements have more bits
/// than their bytes in memory.
fn error_of_long(packed: PackedPart, count: u64, total: u64) -> CodecError
    requires { count ≡ product packed.part.shape.now }
    ensures { IsUnreadable packed.entry total result }
{
    if total < 1 << 63 {
        CodecError::Damage
    } else if packed.part.elements.is_too_large(count) {
        CodecError::Size
    } else {
        CodecError::Memory
    }
}

/// How the elements are packed. `None` where 2^66 bits or more are kept of one.
fn packed_bits(packed: PackedPart) -> Option<PackedBits<'_>>
    requires { padding_of packed.codec.padding ≡ no_padding_byte }
    ensures codec { IfSome result (λ bits. bits.codec ≡ packed.entry.codec) }
    ensures components { IfSome result
        (λ bits. bits.components.now ≡ packed.entry.components.now) }
    ensures none { IfNone result (2 ^ 66 ≤ bits_of_packed packed.entry) }
{
    let (codec, components) = (packed.codec, packed.components);
    let bits = element_bits(codec.turn(Way::Restore), components)?;
    Some(PackedBits {
        codec,
        components,
        bits,
    })
}

/// The spans of the elements that are asked for, and the ranges that their bits touch. `None` where
/// these have more bytes than the value.
fn ranges_asked(
    alloc: Global,
    packed: PackedPart,
    bits: u128,
    total: u64,
) -> Result<Option<SpanRanges>, AllocError>
    requires untold { padding_of packed.codec.padding ≡ no_padding_byte }
    requires bits { bits ≡ bits_of_packed packed }
    requires sized { total ≡ size_of_packed packed }
    requires small { total < 2 ^ 63 }
    ensures some { IfOk result (λ found. IfSome found (AreAsked packed.entry)) }
    ensures none { IfOk result (λ found. IfNone found
        (total ≤ bytes_touched bits 0 (numbers_of_packed packed.entry))) }
{
    let spans = spans_asked(alloc, packed)?;
    let ranges = span_ranges(alloc, &spans, bits)?;
    if total_length(&ranges) > total as u128 {
        return Ok(None);
    }
    Ok(Some(SpanRanges { spans, ranges }))
}

/// The spans of the elements that are asked for.
fn spans_asked(alloc: Global, packed: PackedPart) -> Result<Vec<Span>, AllocError>
    ensures { IfOk result (λ spans. AreSpans (numbers_of_packed packed.entry) spans.items) }
{
    match packed.part.indexer {
        Indexer::Subset(region) => box_spans(alloc, packed.part.shape, region),
        Indexer::List(numbers) => spans_of(alloc, numbers),
    }
}

/// The elements of spans, of the ranges that their bits touch.
fn read_spans<D: BytesPartialDecoderTraits>(
    alloc: Global,
    source: &mut D,
    packed: PackedPart,
    bits: PackedBits,
    asked: &SpanRanges,
) -> Result<ArrayBytes, CodecError>
    requires asked { AreAsked packed asked.now }
    requires codec { bits.codec ≡ packed.codec }
    requires components { bits.components.now ≡ packed.components.now }
    requires positive { 0 < bytes_in (components_of packed.components.now) }
    ensures part { IsTrue (D.is_honest source.old) → (value : List ℕ)
        → D.contents source.old ≡ Some value → length value ≡ size_of_packed packed.entry
        → GivesPacked (Some value) packed.entry result }
    ensures refused { D.refused_calls source.new ≡
        refused_after (D.refused_calls source.old) result }
    ensures given { IsTrue (D.is_honest source.old) → (value : List ℕ)
        → D.contents source.old ≡ Some value → D.given_bytes source.new
        ≤ D.given_bytes source.old + total_length asked.now.ranges.items }
    ensures follows { D.follows source.old source.new }
{
    match source.partial_decode_concat(alloc, &asked.ranges) {
        Ok(Some(found)) => match unpack_spans(alloc, bits, asked, &found)? {
            Some(bytes) => Ok(ArrayBytes::Fixed(bytes)),
            None => Err(CodecError::Damage),
        },
        Ok(None) => fill_packed(alloc, packed),
        Err(error) => Err(error),
    }
}
