//! Array to array codecs, one after another, before a codec between arrays and bytes.
ghost use Rattle.std.specs.Prelude.{◌≡◌, true};
ghost use Rattle.zarr_codecs_arrays.specs.Views.{payload_of, elements_of};
ghost use Rattle.zarr_codecs_around.specs.ArrayCodecs.{EncodesShapes, MovesAll, UndoesAll, all_fit};
ghost use Rattle.zarr_codecs_around.specs.Views.{codecs_of};

use std::alloc::Global;
use zarr_codecs_array_to_array::ArrayToArrayCodec;
use zarr_codecs_arrays::{ArrayBytes, CodecError, Elements};
use zarr_codecs_traits::ArrayToArrayCodecTraits;

/// A codec between arrays and bytes, and the array codecs that come before it.
#[derive(Drop)]
pub struct AfterArrayCodecs<'a, A> {
    pub array_to_array: &'a [ArrayToArrayCodec],
    pub rest: &'a A,
}

/// The shape of the array after array codecs. `Fit` where one doesn't suit the shape that reaches
/// it.
pub fn shape_after(
    alloc: Global,
    codecs: &[ArrayToArrayCodec],
    shape: &[u64],
) -> Result<Vec<u64>, CodecError>
    ensures { EncodesShapes (codecs_of codecs.now) shape.now result }
{
    let mut after = shape.to_vec(alloc)?;
    for codec in codecs {
        after = match codec.encoded_shape(alloc, after.as_slice()) {
            Ok(encoded) => encoded,
            Err(error) => return Err(error),
        };
    }
    Ok(after)
}

/// The elements of an array that array codecs suit, as they are after these.
pub fn move_all(
    alloc: Global,
    codecs: &[ArrayToArrayCodec],
    bytes: ArrayBytes,
    elements: &Elements,
    shape: &[u64],
) -> Result<ArrayBytes, CodecError>
    requires { all_fit (codecs_of codecs.now) shape.now ≡ true }
    ensures { MovesAll (codecs_of codecs.now) (elements_of elements.now) shape.now
        (payload_of bytes) result }
{
    let mut after = shape.to_vec(alloc)?;
    let mut moved = bytes;
    for codec in codecs {
        let encoded = match codec.encoded_shape(alloc, after.as_slice()) {
            Ok(encoded) => encoded,
            Err(error) => return Err(error),
        };
        moved = match codec.encode(alloc, moved, elements, after.as_slice()) {
            Ok(made) => made,
            Err(error) => return Err(error),
        };
        after = encoded;
    }
    Ok(moved)
}

/// The elements of an array that array codecs suit, of those that they are after these. The codecs
/// are undone by halves, so that a long list of them goes no deeper than a short one.
pub fn undo_all(
    alloc: Global,
    codecs: &[ArrayToArrayCodec],
    found: ArrayBytes,
    elements: &Elements,
    shape: &[u64],
) -> Result<ArrayBytes, CodecError>
    requires { all_fit (codecs_of codecs.now) shape.now ≡ true }
    ensures { UndoesAll (codecs_of codecs.now) (elements_of elements.now) shape.now found result }
{
    let Some((codec, others)) = codecs.split_first() else {
        return Ok(found);
    };
    if others.is_empty() {
        return codec.decode(alloc, found, elements, shape);
    }
    let (first, last) = codecs.split_at(codecs.len() / 2);
    let after = match shape_after(alloc, first, shape) {
        Ok(after) => after,
        Err(error) => return Err(error),
    };
    match undo_all(alloc, last, found, elements, after.as_slice()) {
        Ok(moved) => undo_all(alloc, first, moved, elements, shape),
        Err(error) => Err(error),
    }
}
