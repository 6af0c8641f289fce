//! Values and arrays in pieces, where array to array codecs stand before the codec that cuts them.
ghost use Rattle.std.specs.Prelude.{List, length, ℕ};
ghost use Rattle.zarr_codecs_meaning.specs.Payloads.{Payload};
ghost use Rattle.zarr_codecs_arrays.specs.Views.{elements_of, payload_of};
ghost use Rattle.zarr_codecs_traits.specs.Outcomes.{Decodes, Encodes};
ghost use Rattle.zarr_codecs_traits.specs.Pieces.{AreMade, SplitsArray, SplitsValue};
ghost use Rattle.zarr_codecs_around.specs.Pieces.{EncodesAs, IsCutMoved, array_before, array_behind};

use crate::array_codecs::{AfterArrayCodecs, move_all, shape_after, undo_all};
use std::alloc::Global;
use zarr_codecs_arrays::{ArrayBytes, CodecError};
use zarr_codecs_traits::{
    ArrayPieces, ArrayToBytesCodecTraits, SplitArray, SplitValue, ValuePieces, WholeArray,
};

/// The pieces of a value of array codecs and of the codec after them, which cuts it, or the
/// elements that it is decoded to. Errors as those of `decode_after`.
pub fn split_after<A: ArrayToBytesCodecTraits>(
    chain: AfterArrayCodecs<'_, A>,
    alloc: Global,
    value: Vec<u8>,
    array: WholeArray<'_>,
) -> Result<SplitValue, CodecError>
    ensures { SplitsValue (A.cuts_value chain.entry.rest.now
        (array_behind A.meaning chain.entry array.entry) value.items)
        (array_before A.meaning chain.entry array.entry) value.items result }
{
    let (codecs, rest) = (chain.array_to_array, chain.rest);
    let last = match shape_after(alloc, codecs, array.shape) {
        Ok(last) => last,
        Err(error) => return Err(error),
    };
    match rest.split_value(alloc, value, array.elements, last.as_slice()) {
        Ok(SplitValue::Decoded(found)) => {
            match undo_all(alloc, codecs, found, array.elements, array.shape) {
                Ok(undone) => Ok(SplitValue::Decoded(undone)),
                Err(error) => Err(error),
            }
        }
        Ok(SplitValue::Cut(pieces)) => Ok(SplitValue::Cut(pieces)),
        Err(error) => Err(error),
    }
}

/// The elements of an array, put together from what the pieces of its value were decoded to.
pub fn put_after<A: ArrayToBytesCodecTraits>(
    chain: AfterArrayCodecs<'_, A>,
    alloc: Global,
    pieces: ValuePieces,
    made: Vec<Result<ArrayBytes, CodecError>>,
    array: WholeArray<'_>,
) -> Result<ArrayBytes, CodecError>
    ensures { (value : List ℕ) → A.cuts_value chain.entry.rest.now
        (array_behind A.meaning chain.entry array.entry) value pieces
        → AreMade (A.decodes_piece chain.entry.rest.now (elements_of array.entry.elements.now)
        pieces) (length pieces.slices.items) made.items
        → Decodes (array_before A.meaning chain.entry array.entry) value result }
{
    let (codecs, rest) = (chain.array_to_array, chain.rest);
    let last = match shape_after(alloc, codecs, array.shape) {
        Ok(last) => last,
        Err(error) => return Err(error),
    };
    match rest.put_pieces(alloc, pieces, made, array.elements, last.as_slice()) {
        Ok(found) => undo_all(alloc, codecs, found, array.elements, array.shape),
        Err(error) => Err(error),
    }
}

/// The pieces of an array that array codecs move, and the codec after them cuts, or the bytes that
/// it is encoded to. Errors as those of `encode_after`.
pub fn split_array_after<A: ArrayToBytesCodecTraits>(
    chain: AfterArrayCodecs<'_, A>,
    alloc: Global,
    bytes: ArrayBytes,
    array: WholeArray<'_>,
) -> Result<SplitArray, CodecError>
    ensures { SplitsArray (IsCutMoved (A.cuts_array chain.entry.rest.now
        (array_behind A.meaning chain.entry array.entry))
        (EncodesAs (A.is_function chain.entry.rest.now)
        (array_before A.meaning chain.entry array.entry)
        (array_behind A.meaning chain.entry array.entry) (payload_of bytes)))
        (array_before A.meaning chain.entry array.entry) (A.is_function chain.entry.rest.now)
        (payload_of bytes) result }
{
    let (codecs, rest) = (chain.array_to_array, chain.rest);
    let elements = array.elements;
    let last = match shape_after(alloc, codecs, array.shape) {
        Ok(last) => last,
        Err(error) => return Err(error),
    };
    if !rest.fits(alloc, elements.data_type(), last.as_slice())? {
        return Err(CodecError::Fit);
    }
    match move_all(alloc, codecs, bytes, elements, array.shape) {
        Ok(moved) => rest.split_array(alloc, moved, elements, last.as_slice()),
        Err(error) => Err(error),
    }
}

/// The bytes that an array is encoded to, put together from what its pieces were encoded to.
pub fn join_after<A: ArrayToBytesCodecTraits>(
    chain: AfterArrayCodecs<'_, A>,
    alloc: Global,
    pieces: ArrayPieces,
    made: Vec<Result<Option<Vec<u8>>, CodecError>>,
    array: WholeArray<'_>,
) -> Result<Vec<u8>, CodecError>
    ensures { (payload : Payload) → IsCutMoved (A.cuts_array chain.entry.rest.now
        (array_behind A.meaning chain.entry array.entry))
        (EncodesAs (A.is_function chain.entry.rest.now)
        (array_before A.meaning chain.entry array.entry)
        (array_behind A.meaning chain.entry array.entry) payload) pieces
        → AreMade (A.encodes_piece chain.entry.rest.now (elements_of array.entry.elements.now)
        pieces) pieces.count made.items
        → Encodes (array_before A.meaning chain.entry array.entry)
        (A.is_function chain.entry.rest.now) payload result }
{
    let (codecs, rest) = (chain.array_to_array, chain.rest);
    let last = match shape_after(alloc, codecs, array.shape) {
        Ok(last) => last,
        Err(error) => return Err(error),
    };
    rest.join_pieces(alloc, pieces, made, array.elements, last.as_slice())
}
