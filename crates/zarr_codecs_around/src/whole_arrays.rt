//! Arrays encoded, decoded and compacted by array to array codecs and a codec after them.
ghost use Rattle.std.specs.Prelude.{◌≡◌, IfOk};
ghost use Rattle.zarr_codecs_meaning.specs.Fits.{fits};
ghost use Rattle.zarr_codecs_types.specs.Views.{type_of};
ghost use Rattle.zarr_codecs_arrays.specs.Views.{elements_of, payload_of};
ghost use Rattle.zarr_codecs_traits.specs.Compactions.{Compacts};
ghost use Rattle.zarr_codecs_traits.specs.Arrays.{coded_array};
ghost use Rattle.zarr_codecs_traits.specs.Outcomes.{Decodes, Encodes};
ghost use Rattle.zarr_codecs_traits.specs.Representations.{RepresentsArray};
ghost use Rattle.zarr_codecs_around.specs.Views.{codecs_of, with_array_codecs};

use crate::array_codecs::{move_all, shape_after, undo_all};
use std::alloc::{AllocError, Global};
use zarr_codecs_array_to_array::ArrayToArrayCodec;
use zarr_codecs_arrays::{ArrayBytes, CodecError};
use zarr_codecs_traits::{ArrayToBytesCodecTraits, BytesRepresentation, WholeArray};
use zarr_codecs_types::DataType;

/// Whether array codecs, and the codec after them, suit arrays of a data type and a shape. `Err`
/// only where an allocation failed.
pub fn fits_after<A: ArrayToBytesCodecTraits>(
    rest: &A,
    alloc: Global,
    codecs: &[ArrayToArrayCodec],
    data_type: &DataType,
    shape: &[u64],
) -> Result<bool, AllocError>
    ensures { IfOk result (λ fit. fit ≡ fits (with_array_codecs (codecs_of codecs.now)
        (A.meaning rest.now)) (type_of data_type.now) shape.now) }
{
    match shape_after(alloc, codecs, shape) {
        Ok(last) => rest.fits(alloc, data_type, last.as_slice()),
        Err(CodecError::Fit) => Ok(false),
        Err(_) => Err(AllocError),
    }
}

/// The bytes that array codecs, and the codec after them, encode the elements of an array to.
/// Errors as those of `ArrayToBytesCodecTraits::encode`.
pub fn encode_after<A: ArrayToBytesCodecTraits>(
    rest: &A,
    alloc: Global,
    codecs: &[ArrayToArrayCodec],
    bytes: ArrayBytes,
    array: WholeArray<'_>,
) -> Result<Vec<u8>, CodecError>
    ensures { Encodes (coded_array (with_array_codecs (codecs_of codecs.now) (A.meaning rest.now))
        array.entry) (A.is_function rest.now) (payload_of bytes) result }
{
    let elements = array.elements;
    let last = match shape_after(alloc, codecs, array.shape) {
        Ok(last) => last,
        Err(error) => return Err(error),
    };
    if !rest.fits(alloc, elements.data_type(), last.as_slice())? {
        return Err(CodecError::Fit);
    }
    match move_all(alloc, codecs, bytes, elements, array.shape) {
        Ok(moved) => rest.encode_in_order(alloc, moved, elements, last.as_slice()),
        Err(error) => Err(error),
    }
}

/// The elements of an array that a value is decoded to by the codec after array codecs, and these.
/// Errors as those of `ArrayToBytesCodecTraits::decode`.
pub fn decode_after<A: ArrayToBytesCodecTraits>(
    rest: &A,
    alloc: Global,
    codecs: &[ArrayToArrayCodec],
    value: Vec<u8>,
    array: WholeArray<'_>,
) -> Result<ArrayBytes, CodecError>
    ensures { Decodes (coded_array (with_array_codecs (codecs_of codecs.now) (A.meaning rest.now))
        array.entry) value.items result }
{
    let elements = array.elements;
    let last = match shape_after(alloc, codecs, array.shape) {
        Ok(last) => last,
        Err(error) => return Err(error),
    };
    match rest.decode_in_order(alloc, value, elements, last.as_slice()) {
        Ok(found) => undo_all(alloc, codecs, found, elements, array.shape),
        Err(error) => Err(error),
    }
}

/// What is known of the size of what array codecs, and the codec after them, make.
pub fn represent_after<A: ArrayToBytesCodecTraits>(
    rest: &A,
    alloc: Global,
    codecs: &[ArrayToArrayCodec],
    data_type: &DataType,
    shape: &[u64],
) -> Result<BytesRepresentation, CodecError>
    ensures { RepresentsArray (with_array_codecs (codecs_of codecs.now) (A.meaning rest.now))
        (type_of data_type.now) shape.now result }
{
    match shape_after(alloc, codecs, shape) {
        Ok(last) => rest.encoded_representation(alloc, data_type, last.as_slice()),
        Err(error) => Err(error),
    }
}

/// A value of array codecs, and of the codec after them, with what it holds of shards written anew,
/// as `ArrayToBytesCodecTraits::compact` says.
pub fn compact_after<A: ArrayToBytesCodecTraits>(
    rest: &A,
    alloc: Global,
    codecs: &[ArrayToArrayCodec],
    value: &[u8],
    array: WholeArray<'_>,
) -> Result<Option<Vec<u8>>, CodecError>
    ensures { Compacts (with_array_codecs (codecs_of codecs.now) (A.meaning rest.now))
        (elements_of array.entry.elements.now).type array.entry.shape.now value.now result }
{
    match shape_after(alloc, codecs, array.shape) {
        Ok(last) => rest.compact_in_order(alloc, value, array.elements, last.as_slice()),
        Err(error) => Err(error),
    }
}
