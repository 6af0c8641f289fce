//! Chains of codecs around a shard.
ghost use Rattle.std.specs.Prelude.{◌≡◌};
ghost use Rattle.zarr_codecs_around.specs.Views.{codecs_of};
ghost use Rattle.zarr_sharding_chains.specs.Reshapes.{any_reshape};

use std::alloc::{AllocError, Global};
use zarr_codecs_around::ThenBytes;
use zarr_codecs_around::array_codecs::AfterArrayCodecs;
use zarr_codecs_around::array_metadata::array_copies;
use zarr_codecs_around::part_reading::decode_part_after;
use zarr_codecs_around::part_writing::encode_part_after;
use zarr_codecs_around::pieces_after::{join_after, put_after, split_after, split_array_after};
use zarr_codecs_around::whole_arrays::{
    compact_after, decode_after, encode_after, fits_after, represent_after,
};
use zarr_codecs_array_to_array::ArrayToArrayCodec;
use zarr_codecs_arrays::{ArrayBytes, CodecError, Elements};
use zarr_codecs_chains::CodecChain;
use zarr_codecs_regions::encode_whole;
use zarr_codecs_traits::{
    ArrayPart, ArrayPieces, ArrayToBytesCodecTraits, BytesPartialDecoderTraits,
    BytesPartialEncoderTraits, BytesRepresentation, BytesToBytesCodecTraits, SplitArray,
    SplitValue, ValuePatches, ValuePieces, WholeArray,
};
use zarr_codecs_types::DataType;
use zarr_sharding_codec::ShardingCodec;
use zarr_sharding_inner::InnerCodec;

/// A codec chain with a shard: array to array codecs in the order in which they encode, the codec
/// `sharding_indexed` over the codecs `I` of its subchunks and a chain of its index, and the
/// caller's bytes to bytes codecs in that order (Zarr core specification, "Codecs"). Without bytes
/// codecs it decodes parts of arrays from parts of their values, and encodes them so where no
/// `reshape` stands before the shard; else values are read and written whole. An array that became
/// all fill loses its value.
#[derive(Debug, Drop)]
pub struct ShardedChain<B: BytesToBytesCodecTraits, I: InnerCodec> {
    pub(crate) array_to_array: Vec<ArrayToArrayCodec>,
    pub(crate) others: ThenBytes<ShardingCodec<I, CodecChain<B>>, B>,
}

impl<B: BytesToBytesCodecTraits, I: InnerCodec> ShardedChain<B, I> {
    ghost use Rattle.std.specs.Prelude.{◌≡◌};
    ghost use Rattle.zarr_sharding_chains.specs.Views.{arrays_of, bytes_of, shard_of};

    /// The chain of array to array codecs, of a shard, and of bytes to bytes codecs, in the order
    /// in which they encode.
    pub fn new(
        array_to_array: Vec<ArrayToArrayCodec>,
        sharding_codec: ShardingCodec<I, CodecChain<B>>,
        bytes_to_bytes: Vec<B>,
    ) -> ShardedChain<B, I>
        ensures arrays { arrays_of result ≡ array_to_array.items }
        ensures shard { shard_of result ≡ sharding_codec }
        ensures bytes { bytes_of result ≡ bytes_to_bytes.items }
    {
        ShardedChain {
            array_to_array,
            others: ThenBytes::new(sharding_codec, bytes_to_bytes),
        }
    }

    /// The array to array codecs in the order in which they encode.
    pub fn array_to_array_codecs(&self) -> &[ArrayToArrayCodec]
        ensures { result.now ≡ arrays_of self.now }
    {
        self.array_to_array.as_slice()
    }

    /// The codec `sharding_indexed`.
    pub fn sharding_codec(&self) -> &ShardingCodec<I, CodecChain<B>>
        ensures { result.now ≡ shard_of self.now }
    {
        self.others.array_to_bytes_codec()
    }

    /// The bytes to bytes codecs in the order in which they encode.
    pub fn bytes_to_bytes_codecs(&self) -> &[B]
        ensures { result.now ≡ bytes_of self.now }
    {
        self.others.bytes_to_bytes_codecs()
    }
}

impl<B: BytesToBytesCodecTraits, I: InnerCodec> ArrayToBytesCodecTraits for ShardedChain<B, I> {
    ghost use Rattle.zarr_sharding_chains.specs.Pieces.{DecodesSharded, EncodesSharded, SplitsSharded, SplitsShardedArray, SplitsShardedPart, around_shard};
    ghost use Rattle.zarr_sharding_chains.specs.Views.{IsShardedCopy, sharded_function, sharded_lawful, sharded_meaning, sharded_plain};

    ghost meaning = { sharded_meaning I.meaning B.meaning };

    ghost is_function = { sharded_function I.is_function };

    ghost copied = { λ chain copy. IsShardedCopy I.copied B.meaning chain copy };

    ghost cuts_value = { λ chain. SplitsSharded
        (around_shard I.meaning I.is_function B.meaning chain) };

    ghost cuts_part = { λ chain. SplitsShardedPart
        (around_shard I.meaning I.is_function B.meaning chain) };

    ghost decodes_piece = { λ chain. DecodesSharded
        (around_shard I.meaning I.is_function B.meaning chain) };

    ghost cuts_array = { λ chain. SplitsShardedArray
        (around_shard I.meaning I.is_function B.meaning chain) };

    ghost encodes_piece = { λ chain. EncodesSharded
        (around_shard I.meaning I.is_function B.meaning chain) };

    fn encoding_is_function(&self) -> bool {
        self.others.encoding_is_function()
    }

    fn fits(&self, alloc: Global, data_type: &DataType, shape: &[u64]) -> Result<bool, AllocError> {
        let codecs = self.array_to_array.as_slice();
        fits_after(&self.others, alloc, codecs, data_type, shape)
    }

    fn encode_in_order(
        &self,
        alloc: Global,
        bytes: ArrayBytes,
        elements: &Elements,
        shape: &[u64],
    ) -> Result<Vec<u8>, CodecError> {
        let codecs = self.array_to_array.as_slice();
        let array = WholeArray { elements, shape };
        encode_after(&self.others, alloc, codecs, bytes, array)
    }

    fn decode_in_order(
        &self,
        alloc: Global,
        value: Vec<u8>,
        elements: &Elements,
        shape: &[u64],
    ) -> Result<ArrayBytes, CodecError> {
        let codecs = self.array_to_array.as_slice();
        let array = WholeArray { elements, shape };
        decode_after(&self.others, alloc, codecs, value, array)
    }

    fn encoded_representation(
        &self,
        alloc: Global,
        data_type: &DataType,
        shape: &[u64],
    ) -> Result<BytesRepresentation, CodecError> {
        let codecs = self.array_to_array.as_slice();
        represent_after(&self.others, alloc, codecs, data_type, shape)
    }

    fn partial_decoder_capability(&self) -> bool {
        self.others.partial_decoder_capability()
    }

    fn partial_encoder_capability(&self) -> bool {
        !has_reshape(self.array_to_array.as_slice()) && self.others.partial_encoder_capability()
    }

    fn encodes_as_is(&self) -> bool {
        false
    }

    fn partial_decode_granularity(
        &self,
        alloc: Global,
        shape: &[u64],
    ) -> Result<Vec<u64>, AllocError> {
        if self.array_to_array.is_empty() {
            return self.others.partial_decode_granularity(alloc, shape);
        }
        shape.to_vec(alloc)
    }

    fn partial_decode_in_order<D: BytesPartialDecoderTraits>(
        &self,
        alloc: Global,
        source: &mut D,
        part: ArrayPart<'_>,
    ) -> Result<ArrayBytes, CodecError> {
        if self.array_to_array.is_empty() {
            return self.others.partial_decode_in_order(alloc, source, part);
        }
        let array_to_array = self.array_to_array.as_slice();
        let rest = &self.others;
        let chain = AfterArrayCodecs {
            array_to_array,
            rest,
        };
        decode_part_after(chain, alloc, source, part)
    }

    fn takes_patches(&self, _: &DataType) -> bool {
        false
    }

    fn encode_patches(
        &self,
        _: Global,
        _: ArrayBytes,
        _: ArrayPart<'_>,
    ) -> Result<Option<ValuePatches>, CodecError> {
        Ok(None)
    }

    fn partial_encode_in_order<E: BytesPartialEncoderTraits>(
        &self,
        alloc: Global,
        source: &mut E,
        bytes: ArrayBytes,
        part: ArrayPart<'_>,
    ) -> Result<(), CodecError> {
        if self.array_to_array.is_empty() {
            return self
                .others
                .partial_encode_in_order(alloc, source, bytes, part);
        }
        let array_to_array = self.array_to_array.as_slice();
        if has_reshape(array_to_array) {
            return encode_whole(self, alloc, source, bytes, part);
        }
        let rest = &self.others;
        let chain = AfterArrayCodecs {
            array_to_array,
            rest,
        };
        encode_part_after(chain, alloc, source, bytes, part)
    }

    fn compact_in_order(
        &self,
        alloc: Global,
        value: &[u8],
        elements: &Elements,
        shape: &[u64],
    ) -> Result<Option<Vec<u8>>, CodecError> {
        let codecs = self.array_to_array.as_slice();
        let array = WholeArray { elements, shape };
        if self.others.bytes_to_bytes_codecs().is_empty() {
            let shard = self.others.array_to_bytes_codec();
            return compact_after(shard, alloc, codecs, value, array);
        }
        compact_after(&self.others, alloc, codecs, value, array)
    }

    fn split_value(
        &self,
        alloc: Global,
        value: Vec<u8>,
        elements: &Elements,
        shape: &[u64],
    ) -> Result<SplitValue, CodecError> {
        let array_to_array = self.array_to_array.as_slice();
        let rest = &self.others;
        let chain = AfterArrayCodecs {
            array_to_array,
            rest,
        };
        let array = WholeArray { elements, shape };
        split_after(chain, alloc, value, array)
    }

    fn split_part<D: BytesPartialDecoderTraits>(
        &self,
        alloc: Global,
        source: &mut D,
        part: ArrayPart<'_>,
    ) -> Result<SplitValue, CodecError> {
        if self.array_to_array.is_empty() {
            return self.others.split_part(alloc, source, part);
        }
        match self.partial_decode_in_order(alloc, source, part) {
            Ok(found) => Ok(SplitValue::Decoded(found)),
            Err(error) => Err(error),
        }
    }

    fn decode_piece(
        &self,
        alloc: Global,
        pieces: &ValuePieces,
        n: usize,
        elements: &Elements,
    ) -> Result<ArrayBytes, CodecError> {
        self.others.decode_piece(alloc, pieces, n, elements)
    }

    fn put_pieces(
        &self,
        alloc: Global,
        pieces: ValuePieces,
        made: Vec<Result<ArrayBytes, CodecError>>,
        elements: &Elements,
        shape: &[u64],
    ) -> Result<ArrayBytes, CodecError> {
        let array_to_array = self.array_to_array.as_slice();
        let rest = &self.others;
        let chain = AfterArrayCodecs {
            array_to_array,
            rest,
        };
        let array = WholeArray { elements, shape };
        put_after(chain, alloc, pieces, made, array)
    }

    fn put_part(
        &self,
        alloc: Global,
        pieces: ValuePieces,
        made: Vec<Result<ArrayBytes, CodecError>>,
        part: ArrayPart<'_>,
    ) -> Result<ArrayBytes, CodecError> {
        self.others.put_part(alloc, pieces, made, part)
    }

    fn split_array(
        &self,
        alloc: Global,
        bytes: ArrayBytes,
        elements: &Elements,
        shape: &[u64],
    ) -> Result<SplitArray, CodecError> {
        let array_to_array = self.array_to_array.as_slice();
        let rest = &self.others;
        let chain = AfterArrayCodecs {
            array_to_array,
            rest,
        };
        let array = WholeArray { elements, shape };
        split_array_after(chain, alloc, bytes, array)
    }

    fn encode_piece(
        &self,
        alloc: Global,
        pieces: &ArrayPieces,
        n: usize,
        elements: &Elements,
    ) -> Result<Option<Vec<u8>>, CodecError> {
        self.others.encode_piece(alloc, pieces, n, elements)
    }

    fn join_pieces(
        &self,
        alloc: Global,
        pieces: ArrayPieces,
        made: Vec<Result<Option<Vec<u8>>, CodecError>>,
        elements: &Elements,
        shape: &[u64],
    ) -> Result<Vec<u8>, CodecError> {
        let array_to_array = self.array_to_array.as_slice();
        let rest = &self.others;
        let chain = AfterArrayCodecs {
            array_to_array,
            rest,
        };
        let array = WholeArray { elements, shape };
        join_after(chain, alloc, pieces, made, array)
    }

    fn try_clone(&self, alloc: Global) -> Result<ShardedChain<B, I>, AllocError> {
        let array_to_array = array_copies(alloc, self.array_to_array.as_slice())?;
        let others = self.others.try_clone(alloc)?;
        Ok(ShardedChain {
            array_to_array,
            others,
        })
    }

    ghost lawful = { sharded_lawful I.meaning I.lawful B.meaning B.lawful };

    ghost plain = { sharded_plain I.meaning I.is_function B.meaning };
}

/// Whether one of the codecs is `reshape`.
fn has_reshape(codecs: &[ArrayToArrayCodec]) -> bool
    ensures { result ≡ any_reshape (codecs_of codecs.now) }
{
    for codec in codecs {
        if matches!(codec, ArrayToArrayCodec::Reshape(_)) {
            return true;
        }
    }
    false
}
