//! What reading and writing values whole needs of shards.
use crate::codec::ShardingCodec;
use std::alloc::{AllocError, Global};
use zarr_codecs_arrays::{ArrayBytes, CodecError, Elements};
use zarr_codecs_regions::WholeValues;
use zarr_codecs_traits::ArrayToBytesCodecTraits;
use zarr_codecs_types::DataType;
use zarr_sharding_inner::IndexCodec;

impl<I: ArrayToBytesCodecTraits, X: IndexCodec> WholeValues for ShardingCodec<I, X> {
    ghost use Rattle.zarr_sharding_codec.specs.Views.{makes_a_function, shard_chain};

    ghost meaning = { shard_chain I.meaning X.meaning };

    ghost is_function = { makes_a_function I.is_function X.is_function };

    fn fits_array(
        &self,
        alloc: Global,
        data_type: &DataType,
        shape: &[u64],
    ) -> Result<bool, AllocError> {
        self.fits(alloc, data_type, shape)
    }

    fn encode_array(
        &self,
        alloc: Global,
        bytes: ArrayBytes,
        elements: &Elements,
        shape: &[u64],
    ) -> Result<Vec<u8>, CodecError> {
        self.encode_in_order(alloc, bytes, elements, shape)
    }

    fn decode_value(
        &self,
        alloc: Global,
        value: Vec<u8>,
        elements: &Elements,
        shape: &[u64],
    ) -> Result<ArrayBytes, CodecError> {
        self.decode_in_order(alloc, value, elements, shape)
    }

    fn keeps_fill(&self) -> bool {
        false
    }

    ghost lawful = { λ codec. (I.lawful codec.inner_codecs, X.lawful codec.index_codecs) };
}
