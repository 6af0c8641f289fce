//! Codec chains without array to array codecs.

use crate::array_to_bytes::ArrayToBytesCodec;
use std::alloc::{AllocError, Global};
use zarr_codecs_around::byte_codecs::{copies, decode_all, encode_all, represent_all};
use zarr_codecs_around::stored_parts::decode_stored_part;
use zarr_codecs_arrays::{ArrayBytes, CodecError, Elements};
use zarr_codecs_regions::encode_whole;
use zarr_codecs_traits::{
    ArrayPart, ArrayToBytesCodecTraits, BytesPartialDecoderTraits, BytesPartialEncoderTraits,
    BytesRepresentation, BytesToBytesCodecTraits, ValuePatches, read_value,
};
use zarr_codecs_types::DataType;

/// A codec chain without array to array codecs: an array to bytes codec, and the caller's bytes to
/// bytes codecs in the order in which they encode (Zarr core specification, "Codecs").
#[cycle(codec)]
#[derive(Debug, Drop)]
pub(crate) struct BytesChain<B: BytesToBytesCodecTraits> {
    pub(crate) array_to_bytes: ArrayToBytesCodec<B>,
    pub(crate) bytes_to_bytes: Vec<B>,
}

impl<B: BytesToBytesCodecTraits> ArrayToBytesCodecTraits for BytesChain<B> {
    ghost use Rattle.std.specs.Prelude.{◌≡◌, refl, true};
    ghost use Rattle.zarr_grids_metadata.specs.ExtensionPoints.{ExtensionPoint};
    ghost use Rattle.zarr_codecs_chains.specs.Names.{WritesAlike};
    ghost use Rattle.zarr_codecs_chains.specs.Views.{bytes_lawful, bytes_meaning, bytes_points};

    ghost meaning = { bytes_meaning B.meaning };

    ghost is_function = { λ chain. true };

    ghost copied = { λ codec copy. (described : B → ExtensionPoint)
        → WritesAlike B.meaning described
        → bytes_points described copy ≡ bytes_points described codec };

    fn encoding_is_function(&self) -> bool {
        true
    }

    fn fits(&self, alloc: Global, data_type: &DataType, shape: &[u64]) -> Result<bool, AllocError> {
        self.array_to_bytes.fits(alloc, data_type, shape)
    }

    fn encode_in_order(
        &self,
        alloc: Global,
        bytes: ArrayBytes,
        elements: &Elements,
        shape: &[u64],
    ) -> Result<Vec<u8>, CodecError> {
        match self
            .array_to_bytes
            .encode_in_order(alloc, bytes, elements, shape)
        {
            Ok(made) => encode_all(alloc, self.bytes_to_bytes.as_slice(), made),
            Err(error) => Err(error),
        }
    }

    fn decode_in_order(
        &self,
        alloc: Global,
        value: Vec<u8>,
        elements: &Elements,
        shape: &[u64],
    ) -> Result<ArrayBytes, CodecError> {
        if !self
            .array_to_bytes
            .fits(alloc, elements.data_type(), shape)?
        {
            return Err(CodecError::Fit);
        }
        match decode_all(alloc, self.bytes_to_bytes.as_slice(), value) {
            Ok(value) => self
                .array_to_bytes
                .decode_in_order(alloc, value, elements, shape),
            Err(error) => Err(error),
        }
    }

    fn encoded_representation(
        &self,
        alloc: Global,
        data_type: &DataType,
        shape: &[u64],
    ) -> Result<BytesRepresentation, CodecError> {
        match self
            .array_to_bytes
            .encoded_representation(alloc, data_type, shape)
        {
            Ok(size) => represent_all(self.bytes_to_bytes.as_slice(), size),
            Err(error) => Err(error),
        }
    }

    fn partial_decoder_capability(&self) -> bool {
        self.bytes_to_bytes.is_empty() && self.array_to_bytes.partial_decoder_capability()
    }

    fn partial_encoder_capability(&self) -> bool {
        self.bytes_to_bytes.is_empty() && self.array_to_bytes.partial_encoder_capability()
    }

    fn encodes_as_is(&self) -> bool {
        self.bytes_to_bytes.is_empty() && self.array_to_bytes.encodes_as_is()
    }

    fn partial_decode_granularity(
        &self,
        alloc: Global,
        shape: &[u64],
    ) -> Result<Vec<u64>, AllocError> {
        self.array_to_bytes.partial_decode_granularity(alloc, shape)
    }

    fn partial_decode_in_order<D: BytesPartialDecoderTraits>(
        &self,
        alloc: Global,
        source: &mut D,
        part: ArrayPart<'_>,
    ) -> Result<ArrayBytes, CodecError> {
        let codec = &self.array_to_bytes;
        if self.bytes_to_bytes.is_empty() {
            return codec.partial_decode_in_order(alloc, source, part);
        }
        let codecs = self.bytes_to_bytes.as_slice();
        match read_value(alloc, source) {
            Ok(value) => decode_stored_part(codec, alloc, codecs, value, part),
            Err(error) => Err(error),
        }
    }

    fn takes_patches(&self, data_type: &DataType) -> bool {
        self.bytes_to_bytes.is_empty() && self.array_to_bytes.takes_patches(data_type)
    }

    fn encode_patches(
        &self,
        alloc: Global,
        bytes: ArrayBytes,
        part: ArrayPart<'_>,
    ) -> Result<Option<ValuePatches>, CodecError> {
        if !self.bytes_to_bytes.is_empty() {
            return Ok(None);
        }
        self.array_to_bytes.encode_patches(alloc, bytes, part)
    }

    fn partial_encode_in_order<E: BytesPartialEncoderTraits>(
        &self,
        alloc: Global,
        source: &mut E,
        bytes: ArrayBytes,
        part: ArrayPart<'_>,
    ) -> Result<(), CodecError> {
        if self.bytes_to_bytes.is_empty() {
            return self
                .array_to_bytes
                .partial_encode_in_order(alloc, source, bytes, part);
        }
        encode_whole(self, alloc, source, bytes, part)
    }

    fn compact_in_order(
        &self,
        alloc: Global,
        _: &[u8],
        elements: &Elements,
        shape: &[u64],
    ) -> Result<Option<Vec<u8>>, CodecError> {
        if !self
            .array_to_bytes
            .fits(alloc, elements.data_type(), shape)?
        {
            return Err(CodecError::Fit);
        }
        Ok(None)
    }

    #[tactic(auto, using(zarr_codecs_around::proofs::Copied::described_alike))]
    fn try_clone(&self, alloc: Global) -> Result<Self, AllocError> {
        let array_to_bytes = self.array_to_bytes.try_clone(alloc)?;
        let bytes_to_bytes = copies(alloc, self.bytes_to_bytes.as_slice())?;
        Ok(BytesChain {
            array_to_bytes,
            bytes_to_bytes,
        })
    }

    ghost lawful = { bytes_lawful B.meaning B.lawful };

    ghost plain = { λ chain is. refl };
}
