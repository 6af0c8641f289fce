//! The codec `transpose`.
use crate::metadata::{configured_order, transpose_metadata};
use crate::order::TransposeOrder;
use crate::walks::{Route, gathered, inverse, permuted, picked_numbers};
use std::alloc::{AllocError, Global};
use zarr_codecs_arrays::{ArrayBytes, CodecError, Elements};
use zarr_codecs_traits::ArrayToArrayCodecTraits;
use zarr_grids_metadata::{MetadataV3, PluginCreateError};

/// The codec `transpose` (Zarr core specification, "Transpose codec"): dimension i of the encoded
/// array is the dimension of the decoded one that stands at i in the order. It suits shapes of as
/// many dimensions as the order has.
#[derive(Debug, Drop)]
pub struct TransposeCodec {
    order: TransposeOrder,
}

/// What `transpose` is configured by: the order of dimensions.
#[derive(Debug, Drop)]
pub struct TransposeCodecConfiguration {
    pub order: TransposeOrder,
}

impl TransposeCodec {
    ghost use Rattle.std.specs.Prelude.{◌≡◌, ◌≢◌, ◌<◌, ◌^◌, bytes_eq, codes, true, Some, None, IfOk, IfErr};
    ghost use Rattle.zarr_grids_boxes.specs.Boxes.{product};
    ghost use Rattle.zarr_codecs_array_to_array.specs.Refusals.{cause_of};
    ghost use Rattle.zarr_grids_metadata.specs.Views.{point_of};
    ghost use Rattle.zarr_codecs_meaning.specs.Fits.{array_codec_fits};
    ghost use Rattle.zarr_codecs_meaning.specs.Places.{encoded_shape};
    ghost use Rattle.zarr_codecs_array_to_array.specs.Moving.{are_places, moved_numbers};
    ghost use Rattle.zarr_codecs_array_to_array.specs.Written.{array_codec_point, transpose_in};
    ghost use Rattle.zarr_codecs_array_to_array.specs.Views.{order_of, transpose_of};
    ghost use Rattle.zarr_codecs_meaning.specs.Chains.ArrayCodec.{transpose};

    /// `transpose` with an order.
    pub fn new(order: TransposeOrder) -> TransposeCodec
        ensures { transpose_of result ≡ transpose (order_of order) }
    {
        TransposeCodec { order }
    }

    /// `transpose` as a configuration gives it. `Err` only where an allocation failed.
    pub fn new_with_configuration(
        alloc: Global,
        configuration: &TransposeCodecConfiguration,
    ) -> Result<TransposeCodec, AllocError>
        ensures { IfOk result
            (λ codec. transpose_of codec ≡ transpose (order_of configuration.now.order)) }
    {
        let order = configuration.order.try_clone(alloc)?;
        Ok(TransposeCodec { order })
    }

    /// The codec's configuration, of which `new_with_configuration` makes an equal codec. `Err`
    /// only where an allocation failed.
    pub fn configuration(&self, alloc: Global) -> Result<TransposeCodecConfiguration, AllocError>
        ensures { IfOk result (λ configuration.
            transpose (order_of configuration.order) ≡ transpose_of self.now) }
    {
        let order = self.order.try_clone(alloc)?;
        Ok(TransposeCodecConfiguration { order })
    }

    /// The numbers that places have after the codec, of the numbers that they have before it.
    /// `Err` only where an allocation failed.
    pub fn encoded_numbers(
        &self,
        alloc: Global,
        shape: &[u64],
        numbers: &[u64],
    ) -> Result<Vec<u64>, AllocError>
        requires fits { array_codec_fits (transpose_of self.now) shape.now ≡ true }
        requires inside { are_places shape.now numbers.now ≡ true }
        requires small { product shape.now < 2 ^ 63 }
        ensures moved { IfOk result
            (λ made. made.items ≡ moved_numbers (transpose_of self.now) shape.now numbers.now) }
        ensures within { IfOk result (λ made.
            are_places (encoded_shape (transpose_of self.now) shape.now) made.items ≡ true) }
    {
        let order = self.order.as_slice();
        let encoded = permuted(alloc, shape, order)?;
        let route = Route {
            from: shape,
            picks: order,
            to: &encoded,
        };
        picked_numbers(alloc, route, numbers)
    }

    /// The codec that metadata describes. `NameUnsupported` where its name is not `transpose`,
    /// `MetadataInvalid` where its configuration is not an `order` alone that names each dimension
    /// below its length once; `Memory` where an allocation failed.
    pub fn from_metadata(
        alloc: Global,
        metadata: &MetadataV3,
    ) -> Result<TransposeCodec, PluginCreateError>
        ensures ok { IfOk result
            (λ codec. transpose_in (point_of metadata.now) ≡ Some (transpose_of codec)) }
        ensures err { IfErr result (λ e. e ≢ PluginCreateError.Memory
            → transpose_in (point_of metadata.now) ≡ None) }
        ensures cause { IfErr result (λ e. e ≢ PluginCreateError.Memory
            → e ≡ cause_of (bytes_eq (point_of metadata.now).name (codes "transpose"))) }
    {
        if metadata.name() != "transpose" {
            return Err(PluginCreateError::NameUnsupported);
        }
        match configured_order(alloc, metadata.configuration()) {
            Ok(order) => Ok(TransposeCodec { order }),
            Err(error) => Err(error),
        }
    }

    /// The codec's metadata, of which `from_metadata` makes an equal codec. `Err` only where an
    /// allocation failed.
    pub fn metadata(&self, alloc: Global) -> Result<MetadataV3, AllocError>
        ensures written { IfOk result
            (λ metadata. point_of metadata ≡ array_codec_point (transpose_of self.now)) }
        ensures reads_back { IfOk result
            (λ metadata. transpose_in (point_of metadata) ≡ Some (transpose_of self.now)) }
    {
        transpose_metadata(alloc, self.order.as_slice())
    }

    /// An equal codec. `Err` only where an allocation failed.
    pub fn try_clone(&self, alloc: Global) -> Result<TransposeCodec, AllocError>
        ensures { IfOk result (λ codec. transpose_of codec ≡ transpose_of self.now) }
    {
        let order = self.order.try_clone(alloc)?;
        Ok(TransposeCodec { order })
    }
}

impl ArrayToArrayCodecTraits for TransposeCodec {
    ghost use Rattle.zarr_codecs_array_to_array.specs.Views.{transpose_of};

    ghost meaning = { transpose_of };

    fn fits(&self, shape: &[u64]) -> bool {
        self.order.as_slice().len() == shape.len()
    }

    fn encoded_shape(&self, alloc: Global, decoded_shape: &[u64]) -> Result<Vec<u64>, CodecError> {
        if !self.fits(decoded_shape) {
            return Err(CodecError::Fit);
        }
        Ok(permuted(alloc, decoded_shape, self.order.as_slice())?)
    }

    fn decoded_shape(
        &self,
        alloc: Global,
        encoded_shape: &[u64],
    ) -> Result<Option<Vec<u64>>, CodecError> {
        if !self.fits(encoded_shape) {
            return Err(CodecError::Fit);
        }
        let places = inverse(alloc, self.order.as_slice())?;
        Ok(Some(permuted(alloc, encoded_shape, &places)?))
    }

    fn encode(
        &self,
        alloc: Global,
        bytes: ArrayBytes,
        elements: &Elements,
        shape: &[u64],
    ) -> Result<ArrayBytes, CodecError> {
        if !self.fits(shape) {
            return Err(CodecError::Fit);
        }
        let order = self.order.as_slice();
        let encoded = permuted(alloc, shape, order)?;
        let places = inverse(alloc, order)?;
        let route = Route {
            from: &encoded,
            picks: &places,
            to: shape,
        };
        gathered(alloc, &bytes, elements, route)
    }

    fn decode(
        &self,
        alloc: Global,
        bytes: ArrayBytes,
        elements: &Elements,
        shape: &[u64],
    ) -> Result<ArrayBytes, CodecError> {
        if !self.fits(shape) {
            return Err(CodecError::Fit);
        }
        let order = self.order.as_slice();
        let encoded = permuted(alloc, shape, order)?;
        let route = Route {
            from: shape,
            picks: order,
            to: &encoded,
        };
        gathered(alloc, &bytes, elements, route)
    }
}
