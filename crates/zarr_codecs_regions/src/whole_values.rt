//! Codecs whose values are read and written whole.
ghost use Rattle.std.specs.Prelude.{◌≡◌, Bool, IfOk};
ghost use Rattle.zarr_codecs_meaning.specs.Chains.{Chain};
ghost use Rattle.zarr_codecs_meaning.specs.Fits.{fits, is_plain};
ghost use Rattle.zarr_codecs_meaning.specs.Laws.{IsLawfulChain};
ghost use Rattle.zarr_codecs_types.specs.Views.{type_of};
ghost use Rattle.zarr_codecs_arrays.specs.Views.{elements_of, payload_of};
ghost use Rattle.zarr_codecs_traits.specs.Arrays.{coded};
ghost use Rattle.zarr_codecs_traits.specs.Outcomes.{Decodes, Encodes};

use std::alloc::{AllocError, Global};
use zarr_codecs_arrays::{ArrayBytes, CodecError, Elements};
use zarr_codecs_types::DataType;

/// A codec between arrays and bytes, so far as `encode_whole` needs it. Each call that is named
/// after one of `ArrayToBytesCodecTraits` does what that one does.
pub trait WholeValues: Sized {
    /// The chain that it does.
    ghost meaning: { Self → Chain };

    /// Whether what it makes of elements depends on these alone.
    ghost is_function: { Self → Bool };

    /// As `fits`.
    fn fits_array(
        &self,
        alloc: Global,
        data_type: &DataType,
        shape: &[u64],
    ) -> Result<bool, AllocError>
        ensures { IfOk result
            (λ fit. fit ≡ fits (meaning self.now) (type_of data_type.now) shape.now) };

    /// As `encode`.
    fn encode_array(
        &self,
        alloc: Global,
        bytes: ArrayBytes,
        elements: &Elements,
        shape: &[u64],
    ) -> Result<Vec<u8>, CodecError>
        ensures { Encodes (coded (meaning self.now) (elements_of elements.now) shape.now)
            (is_function self.now) (payload_of bytes) result };

    /// As `decode`.
    fn decode_value(
        &self,
        alloc: Global,
        value: Vec<u8>,
        elements: &Elements,
        shape: &[u64],
    ) -> Result<ArrayBytes, CodecError>
        ensures { Decodes (coded (meaning self.now) (elements_of elements.now) shape.now)
            value.items result };

    /// Whether an array that became all fill keeps a value. A codec that makes shards takes it
    /// away.
    fn keeps_fill(&self) -> bool
        ensures { result ≡ is_plain (meaning self.now) };

    ghost lawful: { (codec : Self) → IsLawfulChain (meaning codec) };
}
