//! The elements at the places that are asked for.
ghost use Rattle.std.specs.Prelude.{◌≡◌, ◌≤◌, ◌+◌, ℕ, None, Some, IsTrue};
ghost use Rattle.zarr_codecs_traits.specs.Sources.{refused_after, value_length};
ghost use Rattle.zarr_codecs_packbits.specs.Parts.{GivesPacked, most_of_packed};

use crate::codec::PackBitsPaddingEncoding;
use crate::part::PackedPart;
use crate::reading::read_ranges;
use std::alloc::Global;
use zarr_codecs_arrays::{ArrayBytes, CodecError};
use zarr_codecs_regions::{fill_asked, take_asked};
use zarr_codecs_traits::{ArrayToBytesCodecTraits, BytesPartialDecoderTraits, read_value};

/// The elements at the places that are asked for, of the value that a source holds: of the bytes
/// that they touch where there is no padding byte, else of the whole value. Errors as those of
/// `decode`, and `Source` where the source refuses.
#[tactic(auto, using(crate::proofs::AskedParts::padded_most))]
pub(crate) fn read_asked<D: BytesPartialDecoderTraits>(
    alloc: Global,
    source: &mut D,
    packed: PackedPart,
) -> Result<ArrayBytes, CodecError>
    ensures part { IsTrue (D.is_honest source.old) →
        GivesPacked (D.contents source.old) packed.entry result }
    ensures refused { D.refused_calls source.new ≡
        refused_after (D.refused_calls source.old) result }
    ensures given { IsTrue (D.is_honest source.old) → D.given_bytes source.new
        ≤ D.given_bytes source.old + most_of_packed (D.contents source.old) packed.entry }
    ensures follows { D.follows source.old source.new }
{
    match packed.codec.padding {
        PackBitsPaddingEncoding::None => read_ranges(alloc, source, packed),
        PackBitsPaddingEncoding::FirstByte => read_whole(alloc, source, packed),
        PackBitsPaddingEncoding::LastByte => read_whole(alloc, source, packed),
    }
}

/// The elements at the places that are asked for, of the value that a source holds, which is read
/// whole.
pub(crate) fn read_whole<D: BytesPartialDecoderTraits>(
    alloc: Global,
    source: &mut D,
    packed: PackedPart,
) -> Result<ArrayBytes, CodecError>
    ensures part { IsTrue (D.is_honest source.old) →
        GivesPacked (D.contents source.old) packed.entry result }
    ensures refused { D.refused_calls source.new ≡
        refused_after (D.refused_calls source.old) result }
    ensures given { IsTrue (D.is_honest source.old) → D.given_bytes source.new
        ≤ D.given_bytes source.old + value_length (D.contents source.old) }
    ensures follows { D.follows source.old source.new }
{
    match read_value(alloc, source) {
        Ok(Some(value)) => decode_packed(alloc, packed, value),
        Ok(None) => fill_packed(alloc, packed),
        Err(error) => Err(error),
    }
}

/// The elements at the places that are asked for where nothing is stored: fill values. `Size` where
/// a box would have 2^63 bytes or more.
pub(crate) fn fill_packed(alloc: Global, packed: PackedPart) -> Result<ArrayBytes, CodecError>
    ensures part { GivesPacked None packed.entry result }
    ensures no_source { (count : ℕ) → refused_after count result ≡ count }
{
    fill_asked(alloc, packed.part)
}

/// The elements at the places that are asked for, of a value, which is decoded whole. Errors as
/// those of `decode`.
fn decode_packed(
    alloc: Global,
    packed: PackedPart,
    value: Vec<u8>,
) -> Result<ArrayBytes, CodecError>
    ensures part { GivesPacked (Some value.items) packed.entry result }
    ensures no_source { (count : ℕ) → refused_after count result ≡ count }
{
    let (part, codec) = (packed.part, packed.codec);
    let data_type = part.elements.data_type();
    match codec.decode_in_order(alloc, value, part.elements, part.shape) {
        Ok(bytes) => Ok(take_asked(alloc, &bytes, part.shape, part.indexer, data_type)?),
        Err(error) => Err(error),
    }
}
