//! Parts of arrays, decoded of values that bytes codecs made and that were read whole.
ghost use Rattle.std.specs.Prelude.{◌≡◌, ℕ, map};
ghost use Rattle.zarr_codecs_traits.specs.Indexers.{asked_of};
ghost use Rattle.zarr_codecs_traits.specs.Arrays.{coded_part};
ghost use Rattle.zarr_codecs_traits.specs.Outcomes.{DecodesPart};
ghost use Rattle.zarr_codecs_traits.specs.Pieces.{SplitsPart, refused_splitting};
ghost use Rattle.zarr_codecs_traits.specs.Sources.{refused_after, value_bytes};
ghost use Rattle.zarr_codecs_around.specs.Pieces.{IsPartCutInside};
ghost use Rattle.zarr_codecs_around.specs.Views.{with_codecs};

use crate::byte_codecs::decode_all;
use std::alloc::Global;
use zarr_codecs_arrays::{ArrayBytes, CodecError};
use zarr_codecs_regions::test_asked;
use zarr_codecs_traits::{
    ArrayPart, ArrayToBytesCodecTraits, BytesToBytesCodecTraits, MemorySource, SplitValue,
};

/// The elements at the places that are asked for, of a value that was read, or of none, which a
/// codec and bytes codecs after it made. Errors as those of
/// `ArrayToBytesCodecTraits::partial_decode`.
pub fn decode_stored_part<A: ArrayToBytesCodecTraits, B: BytesToBytesCodecTraits>(
    codec: &A,
    alloc: Global,
    codecs: &[B],
    value: Option<Vec<u8>>,
    part: ArrayPart<'_>,
) -> Result<ArrayBytes, CodecError>
    ensures part { DecodesPart (coded_part (with_codecs (A.meaning codec.now)
        (map B.meaning codecs.now)) part.entry) (value_bytes value) (asked_of part.entry.indexer)
        result }
    ensures no_source { (count : ℕ) → refused_after count result ≡ count }
{
    if !codec.fits(alloc, part.elements.data_type(), part.shape)? {
        return Err(CodecError::Fit);
    }
    if let Err(error) = test_asked(part.shape, part.indexer) {
        return Err(error);
    }
    let Some(value) = value else {
        return decode_inside(codec, alloc, None, part);
    };
    match decode_all(alloc, codecs, value) {
        Ok(inside) => decode_inside(codec, alloc, Some(inside), part),
        Err(error) => Err(error),
    }
}

/// The elements at the places that are asked for, of a value of the codec, or of none.
fn decode_inside<A: ArrayToBytesCodecTraits>(
    codec: &A,
    alloc: Global,
    inside: Option<Vec<u8>>,
    part: ArrayPart<'_>,
) -> Result<ArrayBytes, CodecError>
    ensures part { DecodesPart (coded_part (A.meaning codec.now) part.entry) (value_bytes inside)
        (asked_of part.entry.indexer) result }
    ensures no_source { (count : ℕ) → refused_after count result ≡ count }
{
    let mut source = MemorySource::new(inside);
    codec.partial_decode_in_order(alloc, &mut source, part)
}

/// The pieces that hold the elements at the places that are asked for, of a value that was read, or
/// of none, which a codec and bytes codecs after it made, or these elements. Errors as those of
/// `decode_stored_part`.
pub(crate) fn split_stored_part<A: ArrayToBytesCodecTraits, B: BytesToBytesCodecTraits>(
    codec: &A,
    alloc: Global,
    codecs: &[B],
    value: Option<Vec<u8>>,
    part: ArrayPart<'_>,
) -> Result<SplitValue, CodecError>
    ensures part { SplitsPart (IsPartCutInside (λ inside. A.cuts_part codec.now
        (coded_part (A.meaning codec.now) part.entry) inside (asked_of part.entry.indexer))
        (map B.meaning codecs.now) (value_bytes value)) (coded_part (with_codecs
        (A.meaning codec.now) (map B.meaning codecs.now)) part.entry) (value_bytes value)
        (asked_of part.entry.indexer) result }
    ensures no_source { (count : ℕ) → refused_splitting count result ≡ count }
{
    if !codec.fits(alloc, part.elements.data_type(), part.shape)? {
        return Err(CodecError::Fit);
    }
    if let Err(error) = test_asked(part.shape, part.indexer) {
        return Err(error);
    }
    let Some(value) = value else {
        return split_inside(codec, alloc, None, part);
    };
    match decode_all(alloc, codecs, value) {
        Ok(inside) => split_inside(codec, alloc, Some(inside), part),
        Err(error) => Err(error),
    }
}

/// The pieces that hold the elements at the places that are asked for, of a value of the codec, or
/// of none.
fn split_inside<A: ArrayToBytesCodecTraits>(
    codec: &A,
    alloc: Global,
    inside: Option<Vec<u8>>,
    part: ArrayPart<'_>,
) -> Result<SplitValue, CodecError>
    ensures part { SplitsPart (A.cuts_part codec.now (coded_part (A.meaning codec.now) part.entry)
        (value_bytes inside) (asked_of part.entry.indexer))
        (coded_part (A.meaning codec.now) part.entry) (value_bytes inside)
        (asked_of part.entry.indexer) result }
    ensures no_source { (count : ℕ) → refused_splitting count result ≡ count }
{
    let mut source = MemorySource::new(inside);
    codec.split_part(alloc, &mut source, part)
}
