//! Elements that are written over others, in the value that a source holds.
ghost use Rattle.std.specs.Prelude.{◌≡◌, ◌+◌, ◌*◌, ◌<◌, ◌≤◌, ◌^◌, ℕ, List, Some, false, true, length, option_map, IfOk, IsTrue, OnErr, OnOk};
ghost use Rattle.zarr_grids_boxes.specs.Boxes.{product};
ghost use Rattle.zarr_codecs_meaning.specs.Types.{Cell, bytes_in, components, is_fixed};
ghost use Rattle.zarr_codecs_arrays.specs.Views.{elements_of, payload_of};
ghost use Rattle.zarr_codecs_traits.specs.Indexers.{are_inside, asked_of, numbers_asked};
ghost use Rattle.zarr_codecs_traits.specs.Patches.{any_too_far, patched, patches_in};
ghost use Rattle.zarr_codecs_traits.specs.Arrays.{coded_part, update_part};
ghost use Rattle.zarr_codecs_traits.specs.PartWriting.{IsEncodedInto, NotEncodedInto, WritesOnce};
ghost use Rattle.zarr_codecs_traits.specs.Sources.{refused_after};
ghost use Rattle.zarr_codecs_traits.specs.Writes.{most_to_patch};
ghost use Rattle.zarr_codecs_regions.specs.Whole.{CanBePut};
ghost use Rattle.zarr_codecs_bytes.specs.Views.{bytes_chain};
ghost use Rattle.zarr_codecs_bytes.specs.Writing.{AreRangesOf, PutsElements};

use crate::bytes::BytesCodec;
use crate::lines::{LineSizes, box_ranges};
use crate::numbers::number_ranges;
use crate::part::BoxPart;
use crate::sizes::array_size;
use std::alloc::{AllocError, Global};
use zarr_codecs_arrays::{ArrayBytes, CodecError};
use zarr_codecs_regions::{encode_whole, test_given};
use zarr_codecs_traits::{ArrayPart, ByteRange, BytesPartialEncoderTraits, Indexer, ValuePatches};

/// Puts elements in the place of those at the places that are asked for, as
/// `ArrayToBytesCodecTraits::partial_encode` says. Of a value that stands nothing is read but its
/// length, and the bytes of these elements alone are written, by one call of several ranges. Where
/// the source holds no value, that of the whole array is set.
pub(crate) fn write_asked<E: BytesPartialEncoderTraits>(
    alloc: Global,
    source: &mut E,
    codec: BytesCodec,
    bytes: ArrayBytes,
    part: ArrayPart<'_>,
) -> Result<(), CodecError>
    ensures ok { IsTrue (E.is_honest source.old) → OnOk result
        ((cells : List Cell) × IsEncodedInto (coded_part (bytes_chain codec) part.entry) true
        (update_part part.entry bytes (E.contents source.old)) cells (E.contents source.new)) }
    ensures err { IsTrue (E.is_honest source.old) →
        OnErr result (E.contents source.new ≡ E.contents source.old) }
    ensures cause { IsTrue (E.is_honest source.old) → NotEncodedInto
        (coded_part (bytes_chain codec) part.entry) (update_part part.entry bytes
        (E.contents source.old)) result }
    ensures refused { E.refused_calls source.new ≡
        refused_after (E.refused_calls source.old) result }
    ensures once { WritesOnce (E.accepted_writes source.old) (E.accepted_writes source.new) result }
    ensures given { IsTrue (E.is_honest source.old) → E.given_bytes source.new
        ≤ E.given_bytes source.old
        + most_to_patch (E.writes_ranges source.old) (E.contents source.old) }
    ensures rewrites { E.rewrites source.old source.new }
{
    if let Err(error) = test_given(&codec, alloc, &bytes, part) {
        return Err(error);
    }
    match source.size() {
        Ok(Some(total)) => write_over(alloc, source, codec, bytes, part, total),
        Ok(None) => encode_whole(&codec, alloc, source, bytes, part),
        Err(error) => Err(error),
    }
}

/// Puts elements in the place of those at the places that are asked for, in a value of so many
/// bytes.
fn write_over<E: BytesPartialEncoderTraits>(
    alloc: Global,
    source: &mut E,
    codec: BytesCodec,
    bytes: ArrayBytes,
    part: ArrayPart<'_>,
    total: u64,
) -> Result<(), CodecError>
    requires given { CanBePut (bytes_chain codec) (elements_of part.elements.now) part.shape.now
        (asked_of part.indexer) (payload_of bytes) }
    requires sized { IsTrue (E.is_honest source.old) →
        Some total ≡ option_map length (E.contents source.old) }
    ensures ok { IsTrue (E.is_honest source.old) → OnOk result
        ((cells : List Cell) × IsEncodedInto (coded_part (bytes_chain codec) part.entry) true
        (update_part part.entry bytes (E.contents source.old)) cells (E.contents source.new)) }
    ensures err { IsTrue (E.is_honest source.old) →
        OnErr result (E.contents source.new ≡ E.contents source.old) }
    ensures cause { IsTrue (E.is_honest source.old) → NotEncodedInto
        (coded_part (bytes_chain codec) part.entry) (update_part part.entry bytes
        (E.contents source.old)) result }
    ensures refused { E.refused_calls source.new ≡
        refused_after (E.refused_calls source.old) result }
    ensures once { WritesOnce (E.accepted_writes source.old) (E.accepted_writes source.new) result }
    ensures given { IsTrue (E.is_honest source.old) → E.given_bytes source.new
        ≤ E.given_bytes source.old
        + most_to_patch (E.writes_ranges source.old) (E.contents source.old) }
    ensures rewrites { E.rewrites source.old source.new }
{
    match asked_patches(alloc, codec, bytes, part, total) {
        Ok(patches) => {
            let lent = patches.lend(alloc)?;
            source.partial_encode(alloc, &lent)
        }
        Err(error) => Err(error),
    }
}

/// The ranges to be written into a value of so many bytes, so that the elements at the places that
/// are asked for are replaced. `Damage` where the value has more bytes or fewer than the array's
/// elements; `Size` where the array is too large.
fn asked_patches(
    alloc: Global,
    codec: BytesCodec,
    bytes: ArrayBytes,
    part: ArrayPart<'_>,
    total: u64,
) -> Result<ValuePatches, CodecError>
    requires given { CanBePut (bytes_chain codec) (elements_of part.elements.now) part.shape.now
        (asked_of part.indexer) (payload_of bytes) }
    ensures ok { (value : List ℕ) → length value ≡ total → IfOk result
        (λ patches. (cells : List Cell) × IsEncodedInto (coded_part (bytes_chain codec) part.entry)
        true (update_part part.entry bytes (Some value)) cells
        (Some (patched value (patches_in patches)))) }
    ensures near { IfOk result (λ patches. any_too_far (patches_in patches) ≡ false) }
    ensures cause { (value : List ℕ) → length value ≡ total → NotEncodedInto
        (coded_part (bytes_chain codec) part.entry) (update_part part.entry bytes (Some value))
        result }
    ensures no_source { (count : ℕ) → refused_after count result ≡ count }
{
    let data_type = part.elements.data_type();
    let size = match array_size(data_type, part.shape) {
        Ok(size) => size,
        Err(error) => return Err(error),
    };
    if total != size {
        return Err(CodecError::Damage);
    }
    match bytes {
        ArrayBytes::Fixed(bytes) => {
            let ordered = codec.ordered(alloc, data_type, bytes)?;
            Ok(element_patches(alloc, part, size, ordered)?)
        }
        ArrayBytes::Variable(_bytes, _offsets) => Err(CodecError::ExpectedFixedLengthBytes),
        ArrayBytes::Optional(_inner, _mask) => Err(CodecError::ExpectedFixedLengthBytes),
    }
}

/// The ranges to be written into a value of this size, so that the elements at the places that are
/// asked for are replaced by others, which have these bytes there.
fn element_patches(
    alloc: Global,
    part: ArrayPart<'_>,
    size: u64,
    content: Vec<u8>,
) -> Result<ValuePatches, AllocError>
    requires fixed { is_fixed (elements_of part.elements.now).type ≡ true }
    requires positive { 0 < bytes_in (components (elements_of part.elements.now).type) }
    requires inside { are_inside part.shape.now (asked_of part.indexer) ≡ true }
    requires size { size ≡
        product part.shape.now * bytes_in (components (elements_of part.elements.now).type) }
    requires small { size < 2 ^ 63 }
    requires long { length content.items ≡
        length (numbers_asked part.shape.now (asked_of part.indexer))
        * bytes_in (components (elements_of part.elements.now).type) }
    ensures { IfOk result (λ patches. PutsElements
        (bytes_in (components (elements_of part.entry.elements.now).type)) size
        (numbers_asked part.entry.shape.now (asked_of part.entry.indexer)) content.items
        (patches_in patches)) }
{
    let ranges = asked_ranges(alloc, part, size)?;
    Ok(ValuePatches {
        ranges,
        bytes: content,
    })
}

/// The ranges in which the elements at the places that are asked for stand, in their order, of a
/// value of this size; those that lie one after another are one.
fn asked_ranges(alloc: Global, part: ArrayPart<'_>, size: u64) -> Result<Vec<ByteRange>, AllocError>
    requires fixed { is_fixed (elements_of part.elements.now).type ≡ true }
    requires positive { 0 < bytes_in (components (elements_of part.elements.now).type) }
    requires inside { are_inside part.shape.now (asked_of part.indexer) ≡ true }
    requires size { size ≡
        product part.shape.now * bytes_in (components (elements_of part.elements.now).type) }
    requires small { size < 2 ^ 63 }
    ensures { IfOk result (λ ranges. AreRangesOf
        (bytes_in (components (elements_of part.entry.elements.now).type)) size
        (numbers_asked part.entry.shape.now (asked_of part.entry.indexer)) ranges.items) }
{
    let (elements, shape) = (part.elements, part.shape);
    match part.indexer {
        Indexer::Subset(region) => {
            let part = BoxPart {
                elements,
                shape,
                region,
            };
            Ok(box_ranges(alloc, part, size)?.ranges)
        }
        Indexer::List(numbers) => match elements.data_type().byte_width() {
            Some(width) => {
                let width = width as u64;
                let sizes = LineSizes {
                    width,
                    line: width,
                    value: size,
                };
                number_ranges(alloc, numbers, sizes)
            }
            None => Ok(Vec::new(alloc)),
        },
    }
}
