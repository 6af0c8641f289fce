//! A value of which some elements are replaced, written whole.
ghost use Rattle.std.specs.Prelude.{◌≡◌, ◌≤◌, ◌+◌, ◌^◌, ℕ, List, Option, Some, IsTrue, IfNone, IfOk, IfSome, OnErr, OnOk, length, true};
ghost use Rattle.zarr_grids_boxes.specs.Boxes.{product};
ghost use Rattle.zarr_codecs_meaning.specs.Fits.{fits};
ghost use Rattle.zarr_codecs_meaning.specs.Types.{Cell};
ghost use Rattle.zarr_codecs_arrays.specs.Views.{elements_of, payload_of};
ghost use Rattle.zarr_codecs_traits.specs.Indexers.{are_inside, asked_of, numbers_asked};
ghost use Rattle.zarr_codecs_traits.specs.Arrays.{coded_part, update_part};
ghost use Rattle.zarr_codecs_traits.specs.PartWriting.{IsEncodedInto, NotEncodedWhole, NotTaken, WritesOnce};
ghost use Rattle.zarr_codecs_traits.specs.ShardWrites.{IsStoredGapless};
ghost use Rattle.zarr_codecs_traits.specs.Sources.{refused_after, value_bytes, value_length};
ghost use Rattle.zarr_codecs_regions.specs.Whole.{CanBePut, EncodesOrDrops, GivesStored};

use crate::asked::test_asked;
use crate::update::update_array_bytes;
use crate::whole_values::WholeValues;
use std::alloc::Global;
use zarr_codecs_arrays::{ArrayBytes, CodecError};
use zarr_codecs_traits::{ArrayPart, BytesPartialEncoderTraits, Indexer, read_value};
use zarr_grids_boxes::walk::count_places;

/// Puts elements at the places that are asked for, as `ArrayToBytesCodecTraits::partial_encode`
/// does, for any codec: the value that the source holds is read whole, and one call replaces it, or
/// takes it away. `Damage` where that value isn't decoded, also one of `bytes`. A shard with a pair
/// outside its data is written anew if it is decoded.
pub fn encode_whole<C: WholeValues, E: BytesPartialEncoderTraits>(
    codec: &C,
    alloc: Global,
    source: &mut E,
    bytes: ArrayBytes,
    part: ArrayPart<'_>,
) -> Result<(), CodecError>
    ensures ok { IsTrue (E.is_honest source.old) → OnOk result
        ((cells : List Cell) × IsEncodedInto (coded_part (C.meaning codec.now) part.entry)
        (C.is_function codec.now) (update_part part.entry bytes (E.contents source.old)) cells
        (E.contents source.new)) }
    ensures gapless { IsTrue (E.is_honest source.old) → OnOk result (IsStoredGapless
        (C.meaning codec.now) part.entry.shape.now (E.contents source.new)) }
    ensures err { IsTrue (E.is_honest source.old) →
        OnErr result (E.contents source.new ≡ E.contents source.old) }
    ensures cause { IsTrue (E.is_honest source.old) → NotEncodedWhole
        (coded_part (C.meaning codec.now) part.entry) (update_part part.entry bytes
        (E.contents source.old)) result }
    ensures refused { E.refused_calls source.new ≡
        refused_after (E.refused_calls source.old) result }
    ensures once { WritesOnce (E.accepted_writes source.old) (E.accepted_writes source.new) result }
    ensures given { IsTrue (E.is_honest source.old) → E.given_bytes source.new
        ≤ E.given_bytes source.old + value_length (E.contents source.old) }
    ensures rewrites { E.rewrites source.old source.new }
{
    if let Err(error) = test_given(codec, alloc, &bytes, part) {
        return Err(error);
    }
    match read_value(alloc, source) {
        Ok(old) => match updated_value(codec, alloc, old, bytes, part) {
            Ok(Some(value)) => source.set(value),
            Ok(None) => source.erase(),
            Err(error) => Err(error),
        },
        Err(error) => Err(error),
    }
}

/// Nothing, where elements can be put at the places that are asked for. `Fit` where the codec
/// doesn't suit the array; `IncompatibleIndexer` where a place isn't one of the array's;
/// `InvalidNumberOfElements`, `Expected..` or `CellOutOfRange` where these are not elements, one
/// for each place; `Size` where the array has 2^63 elements or more.
pub fn test_given<C: WholeValues>(
    codec: &C,
    alloc: Global,
    bytes: &ArrayBytes,
    part: ArrayPart<'_>,
) -> Result<(), CodecError>
    ensures ok { OnOk result (CanBePut (C.meaning codec.now) (elements_of part.entry.elements.now)
        part.entry.shape.now (asked_of part.entry.indexer) (payload_of bytes.now)) }
    ensures cause { (stored : Option (List ℕ)) → NotTaken
        (coded_part (C.meaning codec.now) part.entry) (update_part part.entry bytes.now stored)
        result }
    ensures no_source { (count : ℕ) → refused_after count result ≡ count }
{
    let data_type = part.elements.data_type();
    if !codec.fits_array(alloc, data_type, part.shape)? {
        return Err(CodecError::Fit);
    }
    if let Err(error) = test_asked(part.shape, part.indexer) {
        return Err(error);
    }
    let Some(count) = count_asked(part.shape, part.indexer) else {
        return Err(CodecError::Size);
    };
    bytes.validate(data_type, count)
}

/// How many places are asked for; `None` only where the array has 2^63 places or more.
pub fn count_asked(shape: &[u64], indexer: Indexer<'_>) -> Option<u64>
    requires inside { are_inside shape.now (asked_of indexer) ≡ true }
    ensures some { IfSome result (λ count.
        count ≡ length (numbers_asked shape.now (asked_of indexer.entry))) }
    ensures none { IfNone result (2 ^ 63 ≤ product shape.now) }
{
    match indexer {
        Indexer::Subset(region) => count_places(region.shape()),
        Indexer::List(numbers) => Some(numbers.len() as u64),
    }
}

/// The elements of a value of an array, or the fill values of an array without a value.
fn stored_elements<C: WholeValues>(
    codec: &C,
    alloc: Global,
    value: Option<Vec<u8>>,
    part: ArrayPart<'_>,
) -> Result<ArrayBytes, CodecError>
    requires fit { fits (C.meaning codec.now) (elements_of part.elements.now).type part.shape.now
        ≡ true }
    ensures { GivesStored (C.meaning codec.now) (elements_of part.entry.elements.now)
        part.entry.shape.now (value_bytes value) result }
{
    match value {
        Some(value) => codec.decode_value(alloc, value, part.elements, part.shape),
        None => match count_places(part.shape) {
            Some(count) => ArrayBytes::new_fill_value(alloc, part.elements, count),
            None => Err(CodecError::Size),
        },
    }
}

/// The value of an array after new elements were put at the places that are asked for, or `None`
/// where a codec that keeps no fill would have to encode fill alone.
fn updated_value<C: WholeValues>(
    codec: &C,
    alloc: Global,
    old: Option<Vec<u8>>,
    bytes: ArrayBytes,
    part: ArrayPart<'_>,
) -> Result<Option<Vec<u8>>, CodecError>
    requires given { CanBePut (C.meaning codec.now) (elements_of part.elements.now) part.shape.now
        (asked_of part.indexer) (payload_of bytes) }
    ensures ok { IfOk result (λ value. (cells : List Cell) × IsEncodedInto
        (coded_part (C.meaning codec.now) part.entry) (C.is_function codec.now)
        (update_part part.entry bytes (value_bytes old)) cells (value_bytes value)) }
    ensures gapless { IfOk result (λ value. IsStoredGapless (C.meaning codec.now)
        part.entry.shape.now (value_bytes value)) }
    ensures cause { NotEncodedWhole (coded_part (C.meaning codec.now) part.entry)
        (update_part part.entry bytes (value_bytes old)) result }
    ensures no_source { (count : ℕ) → refused_after count result ≡ count }
{
    let before = match stored_elements(codec, alloc, old, part) {
        Ok(before) => before,
        Err(error) => return Err(error),
    };
    let (elements, shape) = (part.elements, part.shape);
    match update_array_bytes(
        alloc,
        before,
        shape,
        part.indexer,
        &bytes,
        elements.data_type(),
    ) {
        Ok(updated) => encode_updated(codec, alloc, updated, part),
        Err(error) => Err(error),
    }
}

/// The value of updated elements of an array, or `None` where a codec that keeps no fill would have
/// to encode fill alone.
fn encode_updated<C: WholeValues>(
    codec: &C,
    alloc: Global,
    updated: ArrayBytes,
    part: ArrayPart<'_>,
) -> Result<Option<Vec<u8>>, CodecError>
    ensures { EncodesOrDrops (coded_part (C.meaning codec.now) part.entry)
        (C.is_function codec.now) (payload_of updated) result }
{
    let (elements, shape) = (part.elements, part.shape);
    if !codec.keeps_fill() && updated.is_fill_value(elements) {
        return Ok(None);
    }
    match codec.encode_array(alloc, updated, elements, shape) {
        Ok(value) => Ok(Some(value)),
        Err(error) => Err(error),
    }
}
