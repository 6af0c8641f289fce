//! What codecs that others can stand around encode, where it has to depend on the elements alone.
ghost use Rattle.std.specs.Prelude.{true};
ghost use Rattle.zarr_codecs_arrays.specs.Views.{payload_of};
ghost use Rattle.zarr_codecs_traits.specs.Arrays.{coded_array};
ghost use Rattle.zarr_codecs_traits.specs.Outcomes.{Encodes};

use std::alloc::Global;
use zarr_codecs_arrays::{ArrayBytes, CodecError};
use zarr_codecs_traits::{ArrayToBytesCodecTraits, WholeArray};
use zarr_sharding_inner::InnerCodec;

/// The bytes that the elements of an array are encoded to, which depend on these alone. Errors as
/// those of `encode`.
pub fn encode_row_major<A: InnerCodec>(
    codec: &A,
    alloc: Global,
    bytes: ArrayBytes,
    array: WholeArray<'_>,
) -> Result<Vec<u8>, CodecError>
    ensures { Encodes (coded_array (A.meaning codec.now) array.entry) true (payload_of bytes) result }
{
    if codec.encoding_is_function() {
        return codec.encode_in_order(alloc, bytes, array.elements, array.shape);
    }
    let row_major = codec.row_major(alloc)?;
    row_major.encode_in_order(alloc, bytes, array.elements, array.shape)
}
