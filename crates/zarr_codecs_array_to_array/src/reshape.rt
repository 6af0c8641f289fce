//! The codec `reshape`.
use crate::metadata::{configured_shape, reshape_metadata};
use crate::new_shape::ReshapeShape;
use crate::sizes::{left_size, sizes};
use crate::walks::{copied, kept};
use std::alloc::{AllocError, Global};
use zarr_codecs_arrays::{ArrayBytes, CodecError, Elements};
use zarr_codecs_traits::ArrayToArrayCodecTraits;
use zarr_grids_metadata::{MetadataV3, PluginCreateError};

/// The codec `reshape` (this project's profile): the elements in their row-major order, in another
/// shape. It suits shapes of fewer than 2^63 elements that have all dimensions that the new shape
/// names, where the new shape has as many elements, and each of its sizes is below 2^64. A size
/// that is left over comes from a division, so the others are not 0 then.
#[derive(Debug, Drop)]
pub struct ReshapeCodec {
    shape: ReshapeShape,
}

/// What `reshape` is configured by: the new shape.
#[derive(Debug, Drop)]
pub struct ReshapeCodecConfiguration {
    pub shape: ReshapeShape,
}

impl ReshapeCodec {
    ghost use Rattle.std.specs.Prelude.{◌≡◌, ◌≢◌, ◌<◌, ◌^◌, bytes_eq, codes, true, Some, None, IfOk, IfErr};
    ghost use Rattle.zarr_grids_boxes.specs.Boxes.{product};
    ghost use Rattle.zarr_grids_metadata.specs.Views.{point_of};
    ghost use Rattle.zarr_codecs_meaning.specs.Fits.{array_codec_fits};
    ghost use Rattle.zarr_codecs_meaning.specs.Places.{encoded_shape};
    ghost use Rattle.zarr_codecs_array_to_array.specs.Moving.{are_places, moved_numbers};
    ghost use Rattle.zarr_codecs_array_to_array.specs.Refusals.{cause_of};
    ghost use Rattle.zarr_codecs_array_to_array.specs.Written.{array_codec_point, reshape_in};
    ghost use Rattle.zarr_codecs_array_to_array.specs.Views.{entries_of, reshape_of};
    ghost use Rattle.zarr_codecs_meaning.specs.Chains.ArrayCodec.{reshape};

    /// `reshape` to a shape.
    pub fn new(shape: ReshapeShape) -> ReshapeCodec
        ensures { reshape_of result ≡ reshape (entries_of shape) }
    {
        ReshapeCodec { shape }
    }

    /// `reshape` as a configuration gives it. `Err` only where an allocation failed.
    pub fn new_with_configuration(
        alloc: Global,
        configuration: &ReshapeCodecConfiguration,
    ) -> Result<ReshapeCodec, AllocError>
        ensures { IfOk result
            (λ codec. reshape_of codec ≡ reshape (entries_of configuration.now.shape)) }
    {
        let shape = configuration.shape.try_clone(alloc)?;
        Ok(ReshapeCodec { shape })
    }

    /// The codec's configuration, of which `new_with_configuration` makes an equal codec. `Err`
    /// only where an allocation failed.
    pub fn configuration(&self, alloc: Global) -> Result<ReshapeCodecConfiguration, AllocError>
        ensures { IfOk result (λ configuration.
            reshape (entries_of configuration.shape) ≡ reshape_of self.now) }
    {
        let shape = self.shape.try_clone(alloc)?;
        Ok(ReshapeCodecConfiguration { shape })
    }

    /// The numbers that places have after the codec, of the numbers that they have before it: the
    /// same ones. `Err` only where an allocation failed.
    pub fn encoded_numbers(
        &self,
        alloc: Global,
        shape: &[u64],
        numbers: &[u64],
    ) -> Result<Vec<u64>, AllocError>
        requires fits { array_codec_fits (reshape_of self.now) shape.now ≡ true }
        requires inside { are_places shape.now numbers.now ≡ true }
        requires small { product shape.now < 2 ^ 63 }
        ensures moved { IfOk result
            (λ made. made.items ≡ moved_numbers (reshape_of self.now) shape.now numbers.now) }
        ensures within { IfOk result (λ made.
            are_places (encoded_shape (reshape_of self.now) shape.now) made.items ≡ true) }
    {
        copied(alloc, numbers)
    }

    /// The codec that metadata describes. `NameUnsupported` where its name is not `reshape`,
    /// `MetadataInvalid` where its configuration is not a `shape` alone: a list of positive
    /// numbers, lists of dimensions, and at most one -1; `Memory` where an allocation failed.
    pub fn from_metadata(
        alloc: Global,
        metadata: &MetadataV3,
    ) -> Result<ReshapeCodec, PluginCreateError>
        ensures ok { IfOk result
            (λ codec. reshape_in (point_of metadata.now) ≡ Some (reshape_of codec)) }
        ensures err { IfErr result (λ e. e ≢ PluginCreateError.Memory
            → reshape_in (point_of metadata.now) ≡ None) }
        ensures cause { IfErr result (λ e. e ≢ PluginCreateError.Memory
            → e ≡ cause_of (bytes_eq (point_of metadata.now).name (codes "reshape"))) }
    {
        if metadata.name() != "reshape" {
            return Err(PluginCreateError::NameUnsupported);
        }
        match configured_shape(alloc, metadata.configuration()) {
            Ok(shape) => Ok(ReshapeCodec { shape }),
            Err(error) => Err(error),
        }
    }

    /// The codec's metadata, of which `from_metadata` makes an equal codec. `Err` only where an
    /// allocation failed.
    pub fn metadata(&self, alloc: Global) -> Result<MetadataV3, AllocError>
        ensures written { IfOk result
            (λ metadata. point_of metadata ≡ array_codec_point (reshape_of self.now)) }
        ensures reads_back { IfOk result
            (λ metadata. reshape_in (point_of metadata) ≡ Some (reshape_of self.now)) }
    {
        reshape_metadata(alloc, &self.shape)
    }

    /// An equal codec. `Err` only where an allocation failed.
    pub fn try_clone(&self, alloc: Global) -> Result<ReshapeCodec, AllocError>
        ensures { IfOk result (λ codec. reshape_of codec ≡ reshape_of self.now) }
    {
        let shape = self.shape.try_clone(alloc)?;
        Ok(ReshapeCodec { shape })
    }
}

impl ArrayToArrayCodecTraits for ReshapeCodec {
    ghost use Rattle.zarr_codecs_array_to_array.specs.Views.{reshape_of};

    ghost meaning = { reshape_of };

    fn fits(&self, shape: &[u64]) -> bool {
        left_size(self.shape.as_slice(), shape).is_some()
    }

    fn encoded_shape(&self, alloc: Global, decoded_shape: &[u64]) -> Result<Vec<u64>, CodecError> {
        let dimensions = self.shape.as_slice();
        match left_size(dimensions, decoded_shape) {
            Some(left) => Ok(sizes(alloc, dimensions, decoded_shape, left)?),
            None => Err(CodecError::Fit),
        }
    }

    fn decoded_shape(&self, _: Global, _: &[u64]) -> Result<Option<Vec<u64>>, CodecError> {
        Ok(None)
    }

    fn encode(
        &self,
        alloc: Global,
        bytes: ArrayBytes,
        elements: &Elements,
        shape: &[u64],
    ) -> Result<ArrayBytes, CodecError> {
        if !self.fits(shape) {
            return Err(CodecError::Fit);
        }
        kept(bytes, elements, shape)
    }

    fn decode(
        &self,
        alloc: Global,
        bytes: ArrayBytes,
        elements: &Elements,
        shape: &[u64],
    ) -> Result<ArrayBytes, CodecError> {
        if !self.fits(shape) {
            return Err(CodecError::Fit);
        }
        kept(bytes, elements, shape)
    }
}
