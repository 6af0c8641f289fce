//! Boxes of an array, and their elements, as array to array codecs move them.
ghost use Rattle.std.specs.Prelude.{◌≡◌, ◌++◌, ℕ, IfOk};
ghost use Rattle.zarr_grids_boxes.specs.Subsets.{region_of};
ghost use Rattle.zarr_codecs_arrays.specs.Views.{elements_of, payload_of};
ghost use Rattle.zarr_codecs_array_to_array.specs.Views.{codec_of};
ghost use Rattle.zarr_codecs_traits.specs.Sources.{refused_after};
ghost use Rattle.zarr_codecs_around.specs.MovedBoxes.{MovesBox, MovesBoxes, TurnsBox, UndoesBox, array_box, box_payload};
ghost use Rattle.zarr_codecs_around.specs.Views.{codecs_of};

use crate::boxes::{BoxPart, encoded_subset};
use std::alloc::{AllocError, Global};
use zarr_codecs_array_to_array::ArrayToArrayCodec;
use zarr_codecs_arrays::{ArrayBytes, CodecError};
use zarr_codecs_traits::ArrayToArrayCodecTraits;
use zarr_grids_boxes::ArraySubset;

/// The shape of an array, and a box of its places.
#[derive(Drop)]
pub(crate) struct MovedBox {
    pub shape: Vec<u64>,
    pub subset: ArraySubset,
}

/// A box of an array, and the elements of its places, row-major.
#[derive(Drop)]
pub(crate) struct MovedElements {
    pub place: MovedBox,
    pub bytes: ArrayBytes,
}

/// The codecs before the first `reshape`, each of which makes a box of a box, and the others.
pub(crate) fn split_boxed(
    codecs: &[ArrayToArrayCodec],
) -> (&[ArrayToArrayCodec], &[ArrayToArrayCodec])
    ensures { result.0.now ++ result.1.now ≡ codecs.now }
{
    for k in 0..codecs.len() {
        if matches!(codecs[k], ArrayToArrayCodec::Reshape(_)) {
            return codecs.split_at(k);
        }
    }
    codecs.split_at(codecs.len())
}

/// The box that a box becomes through array codecs, none of them a `reshape`. `Fit` where one
/// doesn't suit the shape that reaches it.
pub(crate) fn box_after(
    alloc: Global,
    codecs: &[ArrayToArrayCodec],
    part: BoxPart<'_>,
) -> Result<MovedBox, CodecError>
    ensures { MovesBoxes (codecs_of codecs.now) part.entry.shape.now
        (region_of part.entry.subset.now) result }
{
    let mut place = copy_box(alloc, part)?;
    for codec in codecs {
        place = match next_box(alloc, codec, &place) {
            Ok(next) => next,
            Err(error) => return Err(error),
        };
    }
    Ok(place)
}

/// The elements of a box as they are after array codecs, none of them a `reshape`, and the box that
/// the box becomes. `Fit` where a codec doesn't suit the shape that reaches it;
/// `InvalidNumberOfElements`, `Expected..` or `CellOutOfRange` where these are not the box's
/// elements; `Size` where the array has 2^63 elements or bytes or more.
pub(crate) fn move_box(
    alloc: Global,
    codecs: &[ArrayToArrayCodec],
    bytes: ArrayBytes,
    part: BoxPart<'_>,
) -> Result<MovedElements, CodecError>
    ensures { TurnsBox (codecs_of codecs.now) (elements_of part.entry.elements.now)
        (box_payload part.entry.shape.now (region_of part.entry.subset.now) (payload_of bytes))
        result }
{
    let elements = part.elements;
    let mut place = copy_box(alloc, part)?;
    let mut turned = bytes;
    for codec in codecs {
        let next = match next_box(alloc, codec, &place) {
            Ok(next) => next,
            Err(error) => return Err(error),
        };
        turned = match codec.encode(alloc, turned, elements, place.subset.shape()) {
            Ok(made) => made,
            Err(error) => return Err(error),
        };
        place = next;
    }
    Ok(MovedElements {
        place,
        bytes: turned,
    })
}

/// The elements of a box, of those that they are after array codecs, none of them a `reshape`. The
/// codecs are undone by halves, so that a long list of them goes no deeper than a short one.
pub(crate) fn undo_box(
    alloc: Global,
    codecs: &[ArrayToArrayCodec],
    found: ArrayBytes,
    part: BoxPart<'_>,
) -> Result<ArrayBytes, CodecError>
    ensures undone { UndoesBox (codecs_of codecs.now) (elements_of part.entry.elements.now)
        (array_box part.entry.shape.now (region_of part.entry.subset.now)) found result }
    ensures no_source { (count : ℕ) → refused_after count result ≡ count }
{
    let Some((codec, others)) = codecs.split_first() else {
        return Ok(found);
    };
    if others.is_empty() {
        return codec.decode(alloc, found, part.elements, part.subset.shape());
    }
    let (first, last) = codecs.split_at(codecs.len() / 2);
    let after = match box_after(alloc, first, part) {
        Ok(after) => after,
        Err(error) => return Err(error),
    };
    let inner = BoxPart {
        elements: part.elements,
        shape: after.shape.as_slice(),
        subset: &after.subset,
    };
    match undo_box(alloc, last, found, inner) {
        Ok(moved) => undo_box(alloc, first, moved, part),
        Err(error) => Err(error),
    }
}

/// The shape of a part of an array, and its box, in memory of their own.
fn copy_box(alloc: Global, part: BoxPart<'_>) -> Result<MovedBox, AllocError>
    ensures shape { IfOk result (λ copy. copy.shape.items ≡ part.entry.shape.now) }
    ensures region { IfOk result
        (λ copy. region_of copy.subset ≡ region_of part.entry.subset.now) }
{
    Ok(MovedBox {
        shape: part.shape.to_vec(alloc)?,
        subset: part.subset.try_clone(alloc)?,
    })
}

/// The box of the encoded array that a box becomes. `Fit` where the codec doesn't suit the array.
fn next_box(
    alloc: Global,
    codec: &ArrayToArrayCodec,
    place: &MovedBox,
) -> Result<MovedBox, CodecError>
    ensures { MovesBox (codec_of codec.now) place.now.shape.items (region_of place.now.subset)
        result }
{
    let shape = match codec.encoded_shape(alloc, place.shape.as_slice()) {
        Ok(encoded) => encoded,
        Err(error) => return Err(error),
    };
    let subset = encoded_subset(alloc, codec, place.shape.as_slice(), &place.subset)?;
    Ok(MovedBox { shape, subset })
}
