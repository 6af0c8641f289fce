//! What reading and writing values whole needs of chains and of the codecs in them.
use crate::array_to_bytes::ArrayToBytesCodec;
use crate::bytes_chain::BytesChain;
use std::alloc::{AllocError, Global};
use zarr_codecs_arrays::{ArrayBytes, CodecError, Elements};
use zarr_codecs_regions::WholeValues;
use zarr_codecs_traits::{ArrayToBytesCodecTraits, BytesToBytesCodecTraits};
use zarr_codecs_types::DataType;

impl<B: BytesToBytesCodecTraits> WholeValues for ArrayToBytesCodec<B> {
    ghost use Rattle.std.specs.Prelude.{true};
    ghost use Rattle.zarr_codecs_chains.specs.Views.{codec_chain, codec_lawful};

    ghost meaning = { codec_chain B.meaning };

    ghost is_function = { λ codec. true };

    fn fits_array(
        &self,
        alloc: Global,
        data_type: &DataType,
        shape: &[u64],
    ) -> Result<bool, AllocError> {
        self.fits(alloc, data_type, shape)
    }

    fn encode_array(
        &self,
        alloc: Global,
        bytes: ArrayBytes,
        elements: &Elements,
        shape: &[u64],
    ) -> Result<Vec<u8>, CodecError> {
        self.encode_in_order(alloc, bytes, elements, shape)
    }

    fn decode_value(
        &self,
        alloc: Global,
        value: Vec<u8>,
        elements: &Elements,
        shape: &[u64],
    ) -> Result<ArrayBytes, CodecError> {
        self.decode_in_order(alloc, value, elements, shape)
    }

    fn keeps_fill(&self) -> bool {
        true
    }

    ghost lawful = { codec_lawful B.meaning B.lawful };
}

impl<B: BytesToBytesCodecTraits> WholeValues for BytesChain<B> {
    ghost use Rattle.std.specs.Prelude.{true};
    ghost use Rattle.zarr_codecs_chains.specs.Views.{bytes_meaning, bytes_lawful};

    ghost meaning = { bytes_meaning B.meaning };

    ghost is_function = { λ codec. true };

    fn fits_array(
        &self,
        alloc: Global,
        data_type: &DataType,
        shape: &[u64],
    ) -> Result<bool, AllocError> {
        self.fits(alloc, data_type, shape)
    }

    fn encode_array(
        &self,
        alloc: Global,
        bytes: ArrayBytes,
        elements: &Elements,
        shape: &[u64],
    ) -> Result<Vec<u8>, CodecError> {
        self.encode_in_order(alloc, bytes, elements, shape)
    }

    fn decode_value(
        &self,
        alloc: Global,
        value: Vec<u8>,
        elements: &Elements,
        shape: &[u64],
    ) -> Result<ArrayBytes, CodecError> {
        self.decode_in_order(alloc, value, elements, shape)
    }

    fn keeps_fill(&self) -> bool {
        true
    }

    ghost lawful = { bytes_lawful B.meaning B.lawful };
}
