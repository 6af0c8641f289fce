//! The chains that arrays have as codecs between arrays and bytes, which take options for shards.
use crate::array_chain::ArrayChain;
use std::alloc::{AllocError, Global};
use zarr_codecs_arrays::{ArrayBytes, CodecError, Elements};
use zarr_codecs_traits::{
    ArrayPart, ArrayPieces, ArrayToBytesCodecTraits, BytesPartialDecoderTraits,
    BytesPartialEncoderTraits, BytesRepresentation, BytesToBytesCodecTraits, SplitArray,
    SplitValue, ValuePatches, ValuePieces,
};
use zarr_codecs_types::DataType;
use zarr_sharding_inner::{ShardingCodecOptions, TakesShardingOptions};

impl<B: BytesToBytesCodecTraits> ArrayToBytesCodecTraits for ArrayChain<B> {
    ghost use Rattle.zarr_sharding_chains.specs.ArrayChains.{array_function, array_lawful, array_meaning, array_plain};
    ghost use Rattle.zarr_sharding_chains.specs.Metadata.{IsArrayCopy};
    ghost use Rattle.zarr_sharding_chains.specs.Pieces.{DecodesOutermost, EncodesOutermost, SplitsOutermost, SplitsOutermostArray, SplitsOutermostPart, around_outermost};

    ghost meaning = { array_meaning B.meaning };

    ghost is_function = { array_function };

    ghost copied = { λ chain copy. IsArrayCopy B.meaning chain copy };

    ghost cuts_value = { λ chain. SplitsOutermost (around_outermost B.meaning chain) };

    ghost cuts_part = { λ chain. SplitsOutermostPart (around_outermost B.meaning chain) };

    ghost decodes_piece = { λ chain. DecodesOutermost (around_outermost B.meaning chain) };

    ghost cuts_array = { λ chain. SplitsOutermostArray (around_outermost B.meaning chain) };

    ghost encodes_piece = { λ chain. EncodesOutermost (around_outermost B.meaning chain) };

    fn encoding_is_function(&self) -> bool {
        match self {
            ArrayChain::Plain(chain) => chain.encoding_is_function(),
            ArrayChain::Sharded(chain) => chain.encoding_is_function(),
            ArrayChain::Nested(chain) => chain.encoding_is_function(),
        }
    }

    fn fits(&self, alloc: Global, data_type: &DataType, shape: &[u64]) -> Result<bool, AllocError> {
        match self {
            ArrayChain::Plain(chain) => chain.fits(alloc, data_type, shape),
            ArrayChain::Sharded(chain) => chain.fits(alloc, data_type, shape),
            ArrayChain::Nested(chain) => chain.fits(alloc, data_type, shape),
        }
    }

    fn encode_in_order(
        &self,
        alloc: Global,
        bytes: ArrayBytes,
        elements: &Elements,
        shape: &[u64],
    ) -> Result<Vec<u8>, CodecError> {
        match self {
            ArrayChain::Plain(chain) => chain.encode_in_order(alloc, bytes, elements, shape),
            ArrayChain::Sharded(chain) => chain.encode_in_order(alloc, bytes, elements, shape),
            ArrayChain::Nested(chain) => chain.encode_in_order(alloc, bytes, elements, shape),
        }
    }

    fn decode_in_order(
        &self,
        alloc: Global,
        value: Vec<u8>,
        elements: &Elements,
        shape: &[u64],
    ) -> Result<ArrayBytes, CodecError> {
        match self {
            ArrayChain::Plain(chain) => chain.decode_in_order(alloc, value, elements, shape),
            ArrayChain::Sharded(chain) => chain.decode_in_order(alloc, value, elements, shape),
            ArrayChain::Nested(chain) => chain.decode_in_order(alloc, value, elements, shape),
        }
    }

    fn encoded_representation(
        &self,
        alloc: Global,
        data_type: &DataType,
        shape: &[u64],
    ) -> Result<BytesRepresentation, CodecError> {
        match self {
            ArrayChain::Plain(chain) => chain.encoded_representation(alloc, data_type, shape),
            ArrayChain::Sharded(chain) => chain.encoded_representation(alloc, data_type, shape),
            ArrayChain::Nested(chain) => chain.encoded_representation(alloc, data_type, shape),
        }
    }

    fn partial_decoder_capability(&self) -> bool {
        match self {
            ArrayChain::Plain(chain) => chain.partial_decoder_capability(),
            ArrayChain::Sharded(chain) => chain.partial_decoder_capability(),
            ArrayChain::Nested(chain) => chain.partial_decoder_capability(),
        }
    }

    fn partial_encoder_capability(&self) -> bool {
        match self {
            ArrayChain::Plain(chain) => chain.partial_encoder_capability(),
            ArrayChain::Sharded(chain) => chain.partial_encoder_capability(),
            ArrayChain::Nested(chain) => chain.partial_encoder_capability(),
        }
    }

    fn encodes_as_is(&self) -> bool {
        match self {
            ArrayChain::Plain(chain) => chain.encodes_as_is(),
            ArrayChain::Sharded(chain) => chain.encodes_as_is(),
            ArrayChain::Nested(chain) => chain.encodes_as_is(),
        }
    }

    fn partial_decode_granularity(
        &self,
        alloc: Global,
        shape: &[u64],
    ) -> Result<Vec<u64>, AllocError> {
        match self {
            ArrayChain::Plain(chain) => chain.partial_decode_granularity(alloc, shape),
            ArrayChain::Sharded(chain) => chain.partial_decode_granularity(alloc, shape),
            ArrayChain::Nested(chain) => chain.partial_decode_granularity(alloc, shape),
        }
    }

    fn partial_decode_in_order<D: BytesPartialDecoderTraits>(
        &self,
        alloc: Global,
        source: &mut D,
        part: ArrayPart<'_>,
    ) -> Result<ArrayBytes, CodecError> {
        match self {
            ArrayChain::Plain(chain) => chain.partial_decode_in_order(alloc, source, part),
            ArrayChain::Sharded(chain) => chain.partial_decode_in_order(alloc, source, part),
            ArrayChain::Nested(chain) => chain.partial_decode_in_order(alloc, source, part),
        }
    }

    fn takes_patches(&self, data_type: &DataType) -> bool {
        match self {
            ArrayChain::Plain(chain) => chain.takes_patches(data_type),
            ArrayChain::Sharded(chain) => chain.takes_patches(data_type),
            ArrayChain::Nested(chain) => chain.takes_patches(data_type),
        }
    }

    fn encode_patches(
        &self,
        alloc: Global,
        bytes: ArrayBytes,
        part: ArrayPart<'_>,
    ) -> Result<Option<ValuePatches>, CodecError> {
        match self {
            ArrayChain::Plain(chain) => chain.encode_patches(alloc, bytes, part),
            ArrayChain::Sharded(chain) => chain.encode_patches(alloc, bytes, part),
            ArrayChain::Nested(chain) => chain.encode_patches(alloc, bytes, part),
        }
    }

    fn partial_encode_in_order<E: BytesPartialEncoderTraits>(
        &self,
        alloc: Global,
        source: &mut E,
        bytes: ArrayBytes,
        part: ArrayPart<'_>,
    ) -> Result<(), CodecError> {
        match self {
            ArrayChain::Plain(chain) => chain.partial_encode_in_order(alloc, source, bytes, part),
            ArrayChain::Sharded(chain) => chain.partial_encode_in_order(alloc, source, bytes, part),
            ArrayChain::Nested(chain) => chain.partial_encode_in_order(alloc, source, bytes, part),
        }
    }

    fn compact_in_order(
        &self,
        alloc: Global,
        value: &[u8],
        elements: &Elements,
        shape: &[u64],
    ) -> Result<Option<Vec<u8>>, CodecError> {
        match self {
            ArrayChain::Plain(chain) => chain.compact_in_order(alloc, value, elements, shape),
            ArrayChain::Sharded(chain) => chain.compact_in_order(alloc, value, elements, shape),
            ArrayChain::Nested(chain) => chain.compact_in_order(alloc, value, elements, shape),
        }
    }

    fn split_value(
        &self,
        alloc: Global,
        value: Vec<u8>,
        elements: &Elements,
        shape: &[u64],
    ) -> Result<SplitValue, CodecError> {
        match self {
            ArrayChain::Plain(chain) => chain.split_value(alloc, value, elements, shape),
            ArrayChain::Sharded(chain) => chain.split_value(alloc, value, elements, shape),
            ArrayChain::Nested(chain) => chain.split_value(alloc, value, elements, shape),
        }
    }

    fn split_part<D: BytesPartialDecoderTraits>(
        &self,
        alloc: Global,
        source: &mut D,
        part: ArrayPart<'_>,
    ) -> Result<SplitValue, CodecError> {
        match self {
            ArrayChain::Plain(chain) => chain.split_part(alloc, source, part),
            ArrayChain::Sharded(chain) => chain.split_part(alloc, source, part),
            ArrayChain::Nested(chain) => chain.split_part(alloc, source, part),
        }
    }

    fn decode_piece(
        &self,
        alloc: Global,
        pieces: &ValuePieces,
        n: usize,
        elements: &Elements,
    ) -> Result<ArrayBytes, CodecError> {
        match self {
            ArrayChain::Plain(chain) => chain.decode_piece(alloc, pieces, n, elements),
            ArrayChain::Sharded(chain) => chain.decode_piece(alloc, pieces, n, elements),
            ArrayChain::Nested(chain) => chain.decode_piece(alloc, pieces, n, elements),
        }
    }

    fn put_pieces(
        &self,
        alloc: Global,
        pieces: ValuePieces,
        made: Vec<Result<ArrayBytes, CodecError>>,
        elements: &Elements,
        shape: &[u64],
    ) -> Result<ArrayBytes, CodecError> {
        match self {
            ArrayChain::Plain(chain) => chain.put_pieces(alloc, pieces, made, elements, shape),
            ArrayChain::Sharded(chain) => chain.put_pieces(alloc, pieces, made, elements, shape),
            ArrayChain::Nested(chain) => chain.put_pieces(alloc, pieces, made, elements, shape),
        }
    }

    fn put_part(
        &self,
        alloc: Global,
        pieces: ValuePieces,
        made: Vec<Result<ArrayBytes, CodecError>>,
        part: ArrayPart<'_>,
    ) -> Result<ArrayBytes, CodecError> {
        match self {
            ArrayChain::Plain(chain) => chain.put_part(alloc, pieces, made, part),
            ArrayChain::Sharded(chain) => chain.put_part(alloc, pieces, made, part),
            ArrayChain::Nested(chain) => chain.put_part(alloc, pieces, made, part),
        }
    }

    fn split_array(
        &self,
        alloc: Global,
        bytes: ArrayBytes,
        elements: &Elements,
        shape: &[u64],
    ) -> Result<SplitArray, CodecError> {
        match self {
            ArrayChain::Plain(chain) => chain.split_array(alloc, bytes, elements, shape),
            ArrayChain::Sharded(chain) => chain.split_array(alloc, bytes, elements, shape),
            ArrayChain::Nested(chain) => chain.split_array(alloc, bytes, elements, shape),
        }
    }

    fn encode_piece(
        &self,
        alloc: Global,
        pieces: &ArrayPieces,
        n: usize,
        elements: &Elements,
    ) -> Result<Option<Vec<u8>>, CodecError> {
        match self {
            ArrayChain::Plain(chain) => chain.encode_piece(alloc, pieces, n, elements),
            ArrayChain::Sharded(chain) => chain.encode_piece(alloc, pieces, n, elements),
            ArrayChain::Nested(chain) => chain.encode_piece(alloc, pieces, n, elements),
        }
    }

    fn join_pieces(
        &self,
        alloc: Global,
        pieces: ArrayPieces,
        made: Vec<Result<Option<Vec<u8>>, CodecError>>,
        elements: &Elements,
        shape: &[u64],
    ) -> Result<Vec<u8>, CodecError> {
        match self {
            ArrayChain::Plain(chain) => chain.join_pieces(alloc, pieces, made, elements, shape),
            ArrayChain::Sharded(chain) => chain.join_pieces(alloc, pieces, made, elements, shape),
            ArrayChain::Nested(chain) => chain.join_pieces(alloc, pieces, made, elements, shape),
        }
    }

    fn try_clone(&self, alloc: Global) -> Result<ArrayChain<B>, AllocError> {
        match self {
            ArrayChain::Plain(chain) => Ok(ArrayChain::Plain(chain.try_clone(alloc)?)),
            ArrayChain::Sharded(chain) => Ok(ArrayChain::Sharded(chain.try_clone(alloc)?)),
            ArrayChain::Nested(chain) => Ok(ArrayChain::Nested(chain.try_clone(alloc)?)),
        }
    }

    ghost lawful = { array_lawful B.meaning B.lawful };

    ghost plain = { array_plain B.meaning };
}

impl<B: BytesToBytesCodecTraits> TakesShardingOptions for ArrayChain<B> {
    ghost use Rattle.std.specs.Prelude.{true};
    ghost use Rattle.zarr_sharding_chains.specs.ArrayChains.{array_orders, array_same_codecs};

    ghost orders = { array_orders };

    ghost can_be_exact = { λ _. true };

    ghost same_codecs = { array_same_codecs };

    fn with_codec_specific_options(self, options: ShardingCodecOptions) -> ArrayChain<B> {
        match self {
            ArrayChain::Plain(chain) => {
                ArrayChain::Plain(chain.with_codec_specific_options(options))
            }
            ArrayChain::Sharded(chain) => {
                ArrayChain::Sharded(chain.with_codec_specific_options(options))
            }
            ArrayChain::Nested(chain) => {
                ArrayChain::Nested(chain.with_codec_specific_options(options))
            }
        }
    }
}
