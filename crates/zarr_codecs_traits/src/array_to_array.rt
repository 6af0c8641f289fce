//! Codecs between arrays.
ghost use Rattle.std.specs.Prelude.{◌≡◌};
ghost use Rattle.zarr_codecs_meaning.specs.Chains.{ArrayCodec};
ghost use Rattle.zarr_codecs_meaning.specs.Fits.{array_codec_fits};
ghost use Rattle.zarr_codecs_arrays.specs.Views.{payload_of, elements_of};
ghost use Rattle.zarr_codecs_traits.specs.Outcomes.{EncodesShape, DecodesShape, EncodesArray, DecodesArray};

use std::alloc::Global;
use zarr_codecs_arrays::{ArrayBytes, CodecError, Elements};

/// A codec between arrays (Zarr core specification, "Codecs"): it moves the elements of an array to
/// other places, and changes none. Shapes count elements, one number for each dimension.
pub trait ArrayToArrayCodecTraits: Sized + Drop {
    /// What it does.
    ghost meaning: { Self → ArrayCodec };

    /// Whether the codec suits arrays of a shape.
    fn fits(&self, shape: &[u64]) -> bool
        ensures { result ≡ array_codec_fits (meaning self.now) shape.now };

    /// The shape of the array that an array of this shape is encoded to. `Fit` where the codec
    /// doesn't suit the shape.
    fn encoded_shape(&self, alloc: Global, decoded_shape: &[u64]) -> Result<Vec<u64>, CodecError>
        ensures { EncodesShape (meaning self.now) decoded_shape.now result };

    /// The shape of the array that was encoded, where its encoded shape tells it: the only one that
    /// the codec suits and encodes so. `None` where the codec encodes several shapes alike, as
    /// `reshape` and `squeeze` do; `Fit` where it tells shapes apart and encodes none so.
    fn decoded_shape(
        &self,
        alloc: Global,
        encoded_shape: &[u64],
    ) -> Result<Option<Vec<u64>>, CodecError>
        ensures { DecodesShape (meaning self.now) encoded_shape.now result };

    /// The elements of the encoded array. `shape` is that of the array that is encoded. `Fit` where
    /// the codec doesn't suit it; `InvalidNumberOfElements`, `Expected..` or `CellOutOfRange` where
    /// these are not the array's elements; `Size` where it has 2^63 elements or bytes or more.
    fn encode(
        &self,
        alloc: Global,
        bytes: ArrayBytes,
        elements: &Elements,
        shape: &[u64],
    ) -> Result<ArrayBytes, CodecError>
        ensures { EncodesArray (meaning self.now) (elements_of elements.now) shape.now
            (payload_of bytes) result };

    /// The elements of the array that was encoded to these. `shape` is that of the array that was
    /// encoded. Errors as those of `encode`.
    fn decode(
        &self,
        alloc: Global,
        bytes: ArrayBytes,
        elements: &Elements,
        shape: &[u64],
    ) -> Result<ArrayBytes, CodecError>
        ensures { DecodesArray (meaning self.now) (elements_of elements.now) shape.now
            (payload_of bytes) result };
}
