//! Any codec between arrays.
use crate::reshape::ReshapeCodec;
use crate::squeeze::SqueezeCodec;
use crate::transpose::TransposeCodec;
use std::alloc::{AllocError, Global};
use zarr_codecs_arrays::{ArrayBytes, CodecError, Elements};
use zarr_codecs_traits::ArrayToArrayCodecTraits;
use zarr_grids_metadata::{MetadataV3, PluginCreateError};

/// Any of the codecs between arrays.
#[derive(Debug, Drop)]
pub enum ArrayToArrayCodec {
    Transpose(TransposeCodec),
    Reshape(ReshapeCodec),
    Squeeze(SqueezeCodec),
}

impl ArrayToArrayCodec {
    ghost use Rattle.std.specs.Prelude.{◌≡◌, ◌≢◌, ◌<◌, ◌^◌, true, Some, None, IfOk, IfErr};
    ghost use Rattle.zarr_grids_boxes.specs.Boxes.{product};
    ghost use Rattle.zarr_grids_metadata.specs.Views.{point_of};
    ghost use Rattle.zarr_codecs_meaning.specs.Fits.{array_codec_fits};
    ghost use Rattle.zarr_codecs_meaning.specs.Places.{encoded_shape};
    ghost use Rattle.zarr_codecs_metadata.specs.ArrayCodecs.{array_codec_in};
    ghost use Rattle.zarr_codecs_array_to_array.specs.Moving.{are_places, moved_numbers};
    ghost use Rattle.zarr_codecs_array_to_array.specs.Names.{written_codec};
    ghost use Rattle.zarr_codecs_array_to_array.specs.Refusals.{cause_of, names_array_codec};
    ghost use Rattle.zarr_codecs_array_to_array.specs.Views.{codec_of};

    /// The numbers that places have after the codec, of the numbers that they have before it.
    /// `Err` only where an allocation failed.
    pub fn encoded_numbers(
        &self,
        alloc: Global,
        shape: &[u64],
        numbers: &[u64],
    ) -> Result<Vec<u64>, AllocError>
        requires fits { array_codec_fits (codec_of self.now) shape.now ≡ true }
        requires inside { are_places shape.now numbers.now ≡ true }
        requires small { product shape.now < 2 ^ 63 }
        ensures moved { IfOk result
            (λ made. made.items ≡ moved_numbers (codec_of self.now) shape.now numbers.now) }
        ensures within { IfOk result (λ made.
            are_places (encoded_shape (codec_of self.now) shape.now) made.items ≡ true) }
    {
        match self {
            ArrayToArrayCodec::Transpose(codec) => codec.encoded_numbers(alloc, shape, numbers),
            ArrayToArrayCodec::Reshape(codec) => codec.encoded_numbers(alloc, shape, numbers),
            ArrayToArrayCodec::Squeeze(codec) => codec.encoded_numbers(alloc, shape, numbers),
        }
    }

    /// The codec that metadata describes, under the name that it has there. `NameUnsupported` where
    /// this is that of none, `MetadataInvalid` where its configuration is not one of the name's;
    /// `Memory` where an allocation failed.
    pub fn from_metadata(
        alloc: Global,
        metadata: &MetadataV3,
    ) -> Result<ArrayToArrayCodec, PluginCreateError>
        ensures ok { IfOk result
            (λ codec. array_codec_in (point_of metadata.now) ≡ Some (codec_of codec)) }
        ensures name { IfOk result
            (λ codec. (written_codec codec).name ≡ (point_of metadata.now).name) }
        ensures err { IfErr result (λ e. e ≢ PluginCreateError.Memory
            → array_codec_in (point_of metadata.now) ≡ None) }
        ensures cause { IfErr result (λ e. e ≢ PluginCreateError.Memory
            → e ≡ cause_of (names_array_codec (point_of metadata.now).name)) }
    {
        match metadata.name() {
            "transpose" => match TransposeCodec::from_metadata(alloc, metadata) {
                Ok(codec) => Ok(ArrayToArrayCodec::Transpose(codec)),
                Err(error) => Err(error),
            },
            "reshape" => match ReshapeCodec::from_metadata(alloc, metadata) {
                Ok(codec) => Ok(ArrayToArrayCodec::Reshape(codec)),
                Err(error) => Err(error),
            },
            "squeeze" | "zarrs.squeeze" => match SqueezeCodec::from_metadata(metadata) {
                Ok(codec) => Ok(ArrayToArrayCodec::Squeeze(codec)),
                Err(error) => Err(error),
            },
            _ => Err(PluginCreateError::NameUnsupported),
        }
    }

    /// The codec's metadata, of which `from_metadata` makes an equal codec. `Err` only where an
    /// allocation failed.
    pub fn metadata(&self, alloc: Global) -> Result<MetadataV3, AllocError>
        ensures written { IfOk result
            (λ metadata. point_of metadata ≡ written_codec self.now) }
        ensures reads_back { IfOk result
            (λ metadata. array_codec_in (point_of metadata) ≡ Some (codec_of self.now)) }
    {
        match self {
            ArrayToArrayCodec::Transpose(codec) => codec.metadata(alloc),
            ArrayToArrayCodec::Reshape(codec) => codec.metadata(alloc),
            ArrayToArrayCodec::Squeeze(codec) => codec.metadata(alloc),
        }
    }

    /// An equal codec. `Err` only where an allocation failed.
    pub fn try_clone(&self, alloc: Global) -> Result<ArrayToArrayCodec, AllocError>
        ensures meaning { IfOk result (λ codec. codec_of codec ≡ codec_of self.now) }
        ensures written { IfOk result (λ codec. written_codec codec ≡ written_codec self.now) }
    {
        match self {
            ArrayToArrayCodec::Transpose(codec) => {
                let codec = codec.try_clone(alloc)?;
                Ok(ArrayToArrayCodec::Transpose(codec))
            }
            ArrayToArrayCodec::Reshape(codec) => {
                let codec = codec.try_clone(alloc)?;
                Ok(ArrayToArrayCodec::Reshape(codec))
            }
            ArrayToArrayCodec::Squeeze(codec) => {
                let codec = codec.try_clone(alloc)?;
                Ok(ArrayToArrayCodec::Squeeze(codec))
            }
        }
    }
}

impl ArrayToArrayCodecTraits for ArrayToArrayCodec {
    ghost use Rattle.zarr_codecs_array_to_array.specs.Views.{codec_of};

    ghost meaning = { codec_of };

    fn fits(&self, shape: &[u64]) -> bool {
        match self {
            ArrayToArrayCodec::Transpose(codec) => codec.fits(shape),
            ArrayToArrayCodec::Reshape(codec) => codec.fits(shape),
            ArrayToArrayCodec::Squeeze(codec) => codec.fits(shape),
        }
    }

    fn encoded_shape(&self, alloc: Global, decoded_shape: &[u64]) -> Result<Vec<u64>, CodecError> {
        match self {
            ArrayToArrayCodec::Transpose(codec) => codec.encoded_shape(alloc, decoded_shape),
            ArrayToArrayCodec::Reshape(codec) => codec.encoded_shape(alloc, decoded_shape),
            ArrayToArrayCodec::Squeeze(codec) => codec.encoded_shape(alloc, decoded_shape),
        }
    }

    fn decoded_shape(
        &self,
        alloc: Global,
        encoded_shape: &[u64],
    ) -> Result<Option<Vec<u64>>, CodecError> {
        match self {
            ArrayToArrayCodec::Transpose(codec) => codec.decoded_shape(alloc, encoded_shape),
            ArrayToArrayCodec::Reshape(codec) => codec.decoded_shape(alloc, encoded_shape),
            ArrayToArrayCodec::Squeeze(codec) => codec.decoded_shape(alloc, encoded_shape),
        }
    }

    fn encode(
        &self,
        alloc: Global,
        bytes: ArrayBytes,
        elements: &Elements,
        shape: &[u64],
    ) -> Result<ArrayBytes, CodecError> {
        match self {
            ArrayToArrayCodec::Transpose(codec) => codec.encode(alloc, bytes, elements, shape),
            ArrayToArrayCodec::Reshape(codec) => codec.encode(alloc, bytes, elements, shape),
            ArrayToArrayCodec::Squeeze(codec) => codec.encode(alloc, bytes, elements, shape),
        }
    }

    fn decode(
        &self,
        alloc: Global,
        bytes: ArrayBytes,
        elements: &Elements,
        shape: &[u64],
    ) -> Result<ArrayBytes, CodecError> {
        match self {
            ArrayToArrayCodec::Transpose(codec) => codec.decode(alloc, bytes, elements, shape),
            ArrayToArrayCodec::Reshape(codec) => codec.decode(alloc, bytes, elements, shape),
            ArrayToArrayCodec::Squeeze(codec) => codec.decode(alloc, bytes, elements, shape),
        }
    }
}
