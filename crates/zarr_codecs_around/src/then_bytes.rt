//! A codec between arrays and bytes, and bytes to bytes codecs after it.
ghost use Rattle.std.specs.Prelude.{◌≡◌, true, false};
ghost use Rattle.zarr_codecs_meaning.specs.Fits.{fits, is_plain};
ghost use Rattle.zarr_codecs_arrays.specs.Views.{elements_of};
ghost use Rattle.zarr_codecs_traits.specs.Compactions.{Compacts};
ghost use Rattle.zarr_codecs_around.specs.ThenBytes.{codec_of, then_meaning};

use crate::byte_codecs::{copies, decode_all, encode_all, encode_made, represent_all};
use crate::inner_codec::encode_row_major;
use crate::stored_parts::{decode_stored_part, split_stored_part};
use std::alloc::{AllocError, Global};
use zarr_codecs_arrays::{ArrayBytes, CodecError, Elements};
use zarr_codecs_regions::encode_whole;
use zarr_codecs_traits::{
    ArrayPart, ArrayPieces, ArrayToBytesCodecTraits, BytesPartialDecoderTraits,
    BytesPartialEncoderTraits, BytesRepresentation, BytesToBytesCodecTraits, SplitArray,
    SplitValue, ValuePatches, ValuePieces, WholeArray, read_value,
};
use zarr_codecs_types::DataType;
use zarr_sharding_inner::InnerCodec;

/// A codec between arrays and bytes, and the caller's bytes to bytes codecs after it, in the order
/// in which they encode. Where there are any, values are read and written whole, and what the codec
/// makes of elements depends on these alone.
#[derive(Debug, Drop)]
pub struct ThenBytes<A: InnerCodec, B: BytesToBytesCodecTraits> {
    pub(crate) codec: A,
    pub(crate) bytes_to_bytes: Vec<B>,
}

impl<A: InnerCodec, B: BytesToBytesCodecTraits> ThenBytes<A, B> {
    ghost use Rattle.std.specs.Prelude.{◌≡◌};
    ghost use Rattle.zarr_codecs_around.specs.ThenBytes.{bytes_of, codec_of};

    /// The codec with bytes codecs after it, in the order in which they encode.
    pub fn new(codec: A, bytes_to_bytes: Vec<B>) -> ThenBytes<A, B>
        ensures codec { codec_of result ≡ codec }
        ensures bytes { bytes_of result ≡ bytes_to_bytes.items }
    {
        ThenBytes {
            codec,
            bytes_to_bytes,
        }
    }

    /// The codec between arrays and bytes.
    pub fn array_to_bytes_codec(&self) -> &A
        ensures { result.now ≡ codec_of self.now }
    {
        &self.codec
    }

    /// The bytes to bytes codecs in the order in which they encode.
    pub fn bytes_to_bytes_codecs(&self) -> &[B]
        ensures { result.now ≡ bytes_of self.now }
    {
        self.bytes_to_bytes.as_slice()
    }

    /// The codec, and the bytes codecs after it.
    pub fn into_parts(self) -> (A, Vec<B>)
        ensures codec { result.0 ≡ codec_of self }
        ensures bytes { result.1.items ≡ bytes_of self }
    {
        let ThenBytes {
            codec,
            bytes_to_bytes,
        } = self;
        (codec, bytes_to_bytes)
    }
}

impl<A: InnerCodec, B: BytesToBytesCodecTraits> ArrayToBytesCodecTraits for ThenBytes<A, B> {
    ghost use Rattle.std.specs.Prelude.{map};
    ghost use Rattle.zarr_codecs_around.specs.Copies.{then_copied};
    ghost use Rattle.zarr_codecs_around.specs.Pieces.{IsCutBefore, IsCutInside, IsPartCutInside, coded_by};
    ghost use Rattle.zarr_codecs_around.specs.ThenBytes.{bytes_of, codec_of, then_function, then_lawful, then_meaning, then_plain};

    ghost meaning = { then_meaning A.meaning B.meaning };

    ghost is_function = { then_function A.is_function };

    ghost copied = { then_copied A.copied B.meaning };

    ghost cuts_value = { λ codec array value pieces. IsCutInside (A.cuts_value (codec_of codec)
        (coded_by (A.meaning (codec_of codec)) array)) (map B.meaning (bytes_of codec)) value
        pieces };

    ghost cuts_part = { λ codec array stored asked pieces. IsPartCutInside
        (λ inside. A.cuts_part (codec_of codec) (coded_by (A.meaning (codec_of codec)) array)
        inside asked) (map B.meaning (bytes_of codec)) stored pieces };

    ghost decodes_piece = { λ codec. A.decodes_piece (codec_of codec) };

    ghost cuts_array = { λ codec array payload pieces. IsCutBefore (A.cuts_array (codec_of codec)
        (coded_by (A.meaning (codec_of codec)) array) payload)
        (map B.meaning (bytes_of codec)) (A.is_function (codec_of codec)) pieces };

    ghost encodes_piece = { λ codec. A.encodes_piece (codec_of codec) };

    fn encoding_is_function(&self) -> bool {
        self.codec.encoding_is_function()
    }

    fn fits(&self, alloc: Global, data_type: &DataType, shape: &[u64]) -> Result<bool, AllocError> {
        self.codec.fits(alloc, data_type, shape)
    }

    fn encode_in_order(
        &self,
        alloc: Global,
        bytes: ArrayBytes,
        elements: &Elements,
        shape: &[u64],
    ) -> Result<Vec<u8>, CodecError> {
        if self.bytes_to_bytes.is_empty() {
            return self.codec.encode_in_order(alloc, bytes, elements, shape);
        }
        let array = WholeArray { elements, shape };
        let made = encode_row_major(&self.codec, alloc, bytes, array);
        encode_made(alloc, self.bytes_to_bytes.as_slice(), made)
    }

    fn decode_in_order(
        &self,
        alloc: Global,
        value: Vec<u8>,
        elements: &Elements,
        shape: &[u64],
    ) -> Result<ArrayBytes, CodecError> {
        if !self.codec.fits(alloc, elements.data_type(), shape)? {
            return Err(CodecError::Fit);
        }
        match decode_all(alloc, self.bytes_to_bytes.as_slice(), value) {
            Ok(value) => self.codec.decode_in_order(alloc, value, elements, shape),
            Err(error) => Err(error),
        }
    }

    fn encoded_representation(
        &self,
        alloc: Global,
        data_type: &DataType,
        shape: &[u64],
    ) -> Result<BytesRepresentation, CodecError> {
        match self.codec.encoded_representation(alloc, data_type, shape) {
            Ok(size) => represent_all(self.bytes_to_bytes.as_slice(), size),
            Err(error) => Err(error),
        }
    }

    fn partial_decoder_capability(&self) -> bool {
        self.bytes_to_bytes.is_empty() && self.codec.partial_decoder_capability()
    }

    fn partial_encoder_capability(&self) -> bool {
        self.bytes_to_bytes.is_empty() && self.codec.partial_encoder_capability()
    }

    fn encodes_as_is(&self) -> bool {
        self.bytes_to_bytes.is_empty() && self.codec.encodes_as_is()
    }

    fn partial_decode_granularity(
        &self,
        alloc: Global,
        shape: &[u64],
    ) -> Result<Vec<u64>, AllocError> {
        self.codec.partial_decode_granularity(alloc, shape)
    }

    fn partial_decode_in_order<D: BytesPartialDecoderTraits>(
        &self,
        alloc: Global,
        source: &mut D,
        part: ArrayPart<'_>,
    ) -> Result<ArrayBytes, CodecError> {
        if self.bytes_to_bytes.is_empty() {
            return self.codec.partial_decode_in_order(alloc, source, part);
        }
        let codecs = self.bytes_to_bytes.as_slice();
        match read_value(alloc, source) {
            Ok(value) => decode_stored_part(&self.codec, alloc, codecs, value, part),
            Err(error) => Err(error),
        }
    }

    fn takes_patches(&self, data_type: &DataType) -> bool {
        self.bytes_to_bytes.is_empty() && self.codec.takes_patches(data_type)
    }

    fn encode_patches(
        &self,
        alloc: Global,
        bytes: ArrayBytes,
        part: ArrayPart<'_>,
    ) -> Result<Option<ValuePatches>, CodecError> {
        if !self.bytes_to_bytes.is_empty() {
            return Ok(None);
        }
        self.codec.encode_patches(alloc, bytes, part)
    }

    fn partial_encode_in_order<E: BytesPartialEncoderTraits>(
        &self,
        alloc: Global,
        source: &mut E,
        bytes: ArrayBytes,
        part: ArrayPart<'_>,
    ) -> Result<(), CodecError> {
        if self.bytes_to_bytes.is_empty() {
            return self
                .codec
                .partial_encode_in_order(alloc, source, bytes, part);
        }
        encode_whole(self, alloc, source, bytes, part)
    }

    fn compact_in_order(
        &self,
        alloc: Global,
        value: &[u8],
        elements: &Elements,
        shape: &[u64],
    ) -> Result<Option<Vec<u8>>, CodecError> {
        if !self.codec.fits(alloc, elements.data_type(), shape)? {
            return Err(CodecError::Fit);
        }
        if self.codec.makes_no_shard() {
            return Ok(None);
        }
        let array = WholeArray { elements, shape };
        compact_inside(self, alloc, value, array)
    }

    fn split_value(
        &self,
        alloc: Global,
        value: Vec<u8>,
        elements: &Elements,
        shape: &[u64],
    ) -> Result<SplitValue, CodecError> {
        if !self.codec.fits(alloc, elements.data_type(), shape)? {
            return Err(CodecError::Fit);
        }
        match decode_all(alloc, self.bytes_to_bytes.as_slice(), value) {
            Ok(value) => self.codec.split_value(alloc, value, elements, shape),
            Err(error) => Err(error),
        }
    }

    fn split_part<D: BytesPartialDecoderTraits>(
        &self,
        alloc: Global,
        source: &mut D,
        part: ArrayPart<'_>,
    ) -> Result<SplitValue, CodecError> {
        if self.bytes_to_bytes.is_empty() {
            return self.codec.split_part(alloc, source, part);
        }
        let codecs = self.bytes_to_bytes.as_slice();
        match read_value(alloc, source) {
            Ok(value) => split_stored_part(&self.codec, alloc, codecs, value, part),
            Err(error) => Err(error),
        }
    }

    fn decode_piece(
        &self,
        alloc: Global,
        pieces: &ValuePieces,
        n: usize,
        elements: &Elements,
    ) -> Result<ArrayBytes, CodecError> {
        self.codec.decode_piece(alloc, pieces, n, elements)
    }

    fn put_pieces(
        &self,
        alloc: Global,
        pieces: ValuePieces,
        made: Vec<Result<ArrayBytes, CodecError>>,
        elements: &Elements,
        shape: &[u64],
    ) -> Result<ArrayBytes, CodecError> {
        self.codec.put_pieces(alloc, pieces, made, elements, shape)
    }

    fn put_part(
        &self,
        alloc: Global,
        pieces: ValuePieces,
        made: Vec<Result<ArrayBytes, CodecError>>,
        part: ArrayPart<'_>,
    ) -> Result<ArrayBytes, CodecError> {
        self.codec.put_part(alloc, pieces, made, part)
    }

    fn split_array(
        &self,
        alloc: Global,
        bytes: ArrayBytes,
        elements: &Elements,
        shape: &[u64],
    ) -> Result<SplitArray, CodecError> {
        if self.bytes_to_bytes.is_empty() {
            return self.codec.split_array(alloc, bytes, elements, shape);
        }
        if !self.codec.encoding_is_function() {
            return match self.encode_in_order(alloc, bytes, elements, shape) {
                Ok(value) => Ok(SplitArray::Encoded(value)),
                Err(error) => Err(error),
            };
        }
        match self.codec.split_array(alloc, bytes, elements, shape) {
            Ok(SplitArray::Encoded(value)) => {
                match encode_made(alloc, self.bytes_to_bytes.as_slice(), Ok(value)) {
                    Ok(made) => Ok(SplitArray::Encoded(made)),
                    Err(error) => Err(error),
                }
            }
            Ok(SplitArray::Cut(pieces)) => Ok(SplitArray::Cut(pieces)),
            Err(error) => Err(error),
        }
    }

    fn encode_piece(
        &self,
        alloc: Global,
        pieces: &ArrayPieces,
        n: usize,
        elements: &Elements,
    ) -> Result<Option<Vec<u8>>, CodecError> {
        self.codec.encode_piece(alloc, pieces, n, elements)
    }

    fn join_pieces(
        &self,
        alloc: Global,
        pieces: ArrayPieces,
        made: Vec<Result<Option<Vec<u8>>, CodecError>>,
        elements: &Elements,
        shape: &[u64],
    ) -> Result<Vec<u8>, CodecError> {
        let joined = self.codec.join_pieces(alloc, pieces, made, elements, shape);
        if self.bytes_to_bytes.is_empty() {
            return joined;
        }
        encode_made(alloc, self.bytes_to_bytes.as_slice(), joined)
    }

    #[tactic(auto, using(crate::proofs::Copied::described_alike))]
    fn try_clone(&self, alloc: Global) -> Result<Self, AllocError> {
        let codec = self.codec.try_clone(alloc)?;
        let bytes_to_bytes = copies(alloc, self.bytes_to_bytes.as_slice())?;
        Ok(ThenBytes {
            codec,
            bytes_to_bytes,
        })
    }

    ghost lawful = { then_lawful A.meaning A.lawful B.meaning B.lawful };

    ghost plain = { then_plain A.meaning A.is_function A.plain B.meaning };
}

/// The value of a codec that makes shards, and of bytes codecs after it, which are undone before it
/// is compacted and encode again after that.
fn compact_inside<A: InnerCodec, B: BytesToBytesCodecTraits>(
    codec: &ThenBytes<A, B>,
    alloc: Global,
    value: &[u8],
    array: WholeArray<'_>,
) -> Result<Option<Vec<u8>>, CodecError>
    requires fit { fits (A.meaning (codec_of codec.now)) (elements_of array.elements.now).type
        array.shape.now ≡ true }
    requires shards { is_plain (A.meaning (codec_of codec.now)) ≡ false }
    ensures { Compacts (then_meaning A.meaning B.meaning codec.now)
        (elements_of array.entry.elements.now).type array.entry.shape.now value.now result }
{
    let codecs = codec.bytes_to_bytes.as_slice();
    let inside = match decode_all(alloc, codecs, value.to_vec(alloc)?) {
        Ok(inside) => inside,
        Err(error) => return Err(error),
    };
    let (elements, shape) = (array.elements, array.shape);
    match codec
        .codec
        .compact_in_order(alloc, inside.as_slice(), elements, shape)
    {
        Ok(Some(made)) => match encode_all(alloc, codecs, made) {
            Ok(encoded) => Ok(Some(encoded)),
            Err(error) => Err(error),
        },
        Ok(None) => Ok(None),
        Err(error) => Err(error),
    }
}
