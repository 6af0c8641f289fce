//! The elements at the places that are asked for, of a value that is decoded whole.
ghost use Rattle.std.specs.Prelude.{◌≡◌, ◌≤◌, ◌+◌, ◌^◌, ◌<◌, ℕ, None, Some, true, IsTrue};
ghost use Rattle.zarr_grids_boxes.specs.Boxes.{product};
ghost use Rattle.zarr_codecs_meaning.specs.Fits.{fits};
ghost use Rattle.zarr_codecs_arrays.specs.Views.{elements_of};
ghost use Rattle.zarr_codecs_traits.specs.Indexers.{are_inside, asked_of};
ghost use Rattle.zarr_codecs_traits.specs.Arrays.{coded_part};
ghost use Rattle.zarr_codecs_traits.specs.Outcomes.{DecodesPart};
ghost use Rattle.zarr_codecs_traits.specs.ReadBytes.{most_read};
ghost use Rattle.zarr_codecs_traits.specs.Sources.{refused_after};
ghost use Rattle.zarr_codecs_chains.specs.Selecting.{reads_whole};
ghost use Rattle.zarr_codecs_chains.specs.Views.{codec_chain};

use crate::array_to_bytes::ArrayToBytesCodec;
use crate::decoding::decode_codec;
use crate::fitting::fits_codec;
use std::alloc::Global;
use zarr_codecs_arrays::{ArrayBytes, CodecError};
use zarr_codecs_regions::{fill_asked, take_asked, test_asked};
use zarr_codecs_traits::{
    ArrayPart, BytesPartialDecoderTraits, BytesToBytesCodecTraits, WholeArray, read_value,
};
use zarr_grids_boxes::walk::count_places;

/// The elements at the places that are asked for, of the value that a source holds, which is read
/// and decoded whole.
pub(crate) fn decode_asked<B: BytesToBytesCodecTraits, D: BytesPartialDecoderTraits>(
    codec: &ArrayToBytesCodec<B>,
    alloc: Global,
    source: &mut D,
    part: ArrayPart<'_>,
) -> Result<ArrayBytes, CodecError>
    requires { reads_whole (codec_chain B.meaning codec.now) ≡ true }
    ensures part { IsTrue (D.is_honest source.old) → DecodesPart
        (coded_part (codec_chain B.meaning codec.now) part.entry) (D.contents source.old)
        (asked_of part.entry.indexer) result }
    ensures refused { D.refused_calls source.new ≡
        refused_after (D.refused_calls source.old) result }
    ensures given { IsTrue (D.is_honest source.old) → D.given_bytes source.new
        ≤ D.given_bytes source.old + most_read (codec_chain B.meaning codec.now)
        (elements_of part.entry.elements.now).type part.entry.shape.now (D.contents source.old)
        (asked_of part.entry.indexer) }
    ensures follows { D.follows source.old source.new }
{
    if !fits_codec(codec, alloc, part.elements.data_type(), part.shape)? {
        return Err(CodecError::Fit);
    }
    if count_places(part.shape).is_none() {
        return Err(CodecError::Size);
    }
    if let Err(error) = test_asked(part.shape, part.indexer) {
        return Err(error);
    }
    read_asked(codec, alloc, source, part)
}

/// The elements at places of the array. Errors as those of `decode_codec`, and `Source` where the
/// source refuses.
#[tactic(auto, using(crate::proofs::Taken::whole_most))]
fn read_asked<B: BytesToBytesCodecTraits, D: BytesPartialDecoderTraits>(
    codec: &ArrayToBytesCodec<B>,
    alloc: Global,
    source: &mut D,
    part: ArrayPart<'_>,
) -> Result<ArrayBytes, CodecError>
    requires whole { reads_whole (codec_chain B.meaning codec.now) ≡ true }
    requires inside { are_inside part.shape.now (asked_of part.indexer) ≡ true }
    requires small { product part.shape.now < 2 ^ 63 }
    requires fit { fits (codec_chain B.meaning codec.now)
        (elements_of part.elements.now).type part.shape.now ≡ true }
    ensures part { IsTrue (D.is_honest source.old) → DecodesPart
        (coded_part (codec_chain B.meaning codec.now) part.entry) (D.contents source.old)
        (asked_of part.entry.indexer) result }
    ensures refused { D.refused_calls source.new ≡
        refused_after (D.refused_calls source.old) result }
    ensures given { IsTrue (D.is_honest source.old) → D.given_bytes source.new
        ≤ D.given_bytes source.old + most_read (codec_chain B.meaning codec.now)
        (elements_of part.entry.elements.now).type part.entry.shape.now (D.contents source.old)
        (asked_of part.entry.indexer) }
    ensures follows { D.follows source.old source.new }
{
    match read_value(alloc, source) {
        Ok(Some(value)) => decode_part(codec, alloc, value, part),
        Ok(None) => fill_asked(alloc, part),
        Err(error) => Err(error),
    }
}

/// The elements at the places that are asked for, of a value, which is decoded whole. Errors as
/// those of `decode_codec`.
fn decode_part<B: BytesToBytesCodecTraits>(
    codec: &ArrayToBytesCodec<B>,
    alloc: Global,
    value: Vec<u8>,
    part: ArrayPart<'_>,
) -> Result<ArrayBytes, CodecError>
    requires whole { reads_whole (codec_chain B.meaning codec.now) ≡ true }
    requires inside { are_inside part.shape.now (asked_of part.indexer) ≡ true }
    requires small { product part.shape.now < 2 ^ 63 }
    ensures part { DecodesPart (coded_part (codec_chain B.meaning codec.now) part.entry)
        (Some value.items) (asked_of part.entry.indexer) result }
    ensures no_source { (count : ℕ) → refused_after count result ≡ count }
{
    let array = WholeArray {
        elements: part.elements,
        shape: part.shape,
    };
    let data_type = part.elements.data_type();
    match decode_codec(codec, alloc, value, array) {
        Ok(bytes) => Ok(take_asked(alloc, &bytes, part.shape, part.indexer, data_type)?),
        Err(error) => Err(error),
    }
}
