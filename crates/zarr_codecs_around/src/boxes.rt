//! Boxes of an array, as a codec between arrays moves them.
ghost use Rattle.std.specs.Prelude.{◌≡◌, map, replicate, Some, true, IfOk};
ghost use Rattle.zarr_grids_boxes.specs.Subsets.{region_of};
ghost use Rattle.zarr_codecs_meaning.specs.Places.{encoded_shape, squeezed};
ghost use Rattle.zarr_codecs_traits.specs.Indexers.{shape_has};
ghost use Rattle.zarr_codecs_array_to_array.specs.Views.{codec_of, transpose_of};
ghost use Rattle.zarr_codecs_boxes.specs.Regions.{encoded_region, kept_numbers, squeezed_numbers, squeezed_region};
ghost use Rattle.zarr_codecs_around.specs.Boxes.{takes_any_order};

use std::alloc::{AllocError, Global};
use zarr_codecs_array_to_array::{ArrayToArrayCodec, SqueezeCodec, TransposeCodec};
use zarr_codecs_arrays::Elements;
use zarr_codecs_traits::{ArrayToArrayCodecTraits, ArrayToBytesCodecTraits};
use zarr_grids_boxes::ArraySubset;

/// The part of an array that is asked for: what its elements are, its shape, and a box of places,
/// which lies in the shape.
#[derive(Clone, Copy)]
pub(crate) struct BoxPart<'a> {
    pub elements: &'a Elements,
    pub shape: &'a [u64],
    pub subset: &'a ArraySubset,
    ghost inside: { shape_has shape.now (region_of subset.now) ≡ true },
}

/// Whether what a codec takes of a value for some elements doesn't depend on their order, so that
/// the box is asked of it that a box becomes.
pub(crate) fn takes_any_order<A: ArrayToBytesCodecTraits>(codec: &A) -> bool
    ensures { result ≡ takes_any_order (A.meaning codec.now) }
{
    codec.partial_encoder_capability() || !codec.partial_decoder_capability()
}

/// The box of the encoded array that a box of an array becomes. `Err` only where an allocation
/// failed, where the codec doesn't suit the array or the box doesn't lie in it, and through a
/// `reshape`, after which the places of a box need not be those of one.
pub(crate) fn encoded_subset(
    alloc: Global,
    codec: &ArrayToArrayCodec,
    shape: &[u64],
    subset: &ArraySubset,
) -> Result<ArraySubset, AllocError>
    ensures { IfOk result (λ moved. encoded_region (codec_of codec.now) shape.now
        (region_of subset.now) ≡ Some (region_of moved)) }
{
    match codec {
        ArrayToArrayCodec::Transpose(codec) => transposed_subset(alloc, codec, shape, subset),
        ArrayToArrayCodec::Reshape(_) => Err(AllocError),
        ArrayToArrayCodec::Squeeze(codec) => squeezed_subset(alloc, *codec, shape, subset),
    }
}

/// The box with the starts and sizes of a box in the order of a `transpose`.
fn transposed_subset(
    alloc: Global,
    codec: &TransposeCodec,
    shape: &[u64],
    subset: &ArraySubset,
) -> Result<ArraySubset, AllocError>
    ensures { IfOk result (λ moved. encoded_region (transpose_of codec.now) shape.now
        (region_of subset.now) ≡ Some (region_of moved)) }
{
    let start = transposed(alloc, codec, subset.start())?;
    let sizes = transposed(alloc, codec, subset.shape())?;
    subset_of(start, sizes)
}

/// Numbers for the dimensions of an array in the order of a `transpose`.
fn transposed(
    alloc: Global,
    codec: &TransposeCodec,
    numbers: &[u64],
) -> Result<Vec<u64>, AllocError>
    ensures { IfOk result
        (λ made. made.items ≡ encoded_shape (transpose_of codec.now) numbers.now) }
{
    match codec.encoded_shape(alloc, numbers) {
        Ok(made) => Ok(made),
        Err(_) => Err(AllocError),
    }
}

/// A box of an array without the dimensions in which the array is of size one.
fn squeezed_subset(
    alloc: Global,
    codec: SqueezeCodec,
    shape: &[u64],
    subset: &ArraySubset,
) -> Result<ArraySubset, AllocError>
    ensures { IfOk result
        (λ moved. region_of moved ≡ squeezed_region shape.now (region_of subset.now)) }
{
    let start = squeezed_numbers(alloc, 0, shape, subset.start())?;
    if !subset.is_empty() {
        let sizes = squeezed_numbers(alloc, 1, shape, subset.shape())?;
        return subset_of(start, sizes);
    }
    let sizes = no_sizes(alloc, codec, shape)?;
    subset_of(start, sizes)
}

/// As many sizes of 0 as a shape has dimensions after a `squeeze`.
fn no_sizes(alloc: Global, codec: SqueezeCodec, shape: &[u64]) -> Result<Vec<u64>, AllocError>
    ensures { IfOk result (λ sizes. sizes.items ≡ map (λ size. 0) (squeezed shape.now)) }
{
    match codec.encoded_shape(alloc, shape) {
        Ok(encoded) => zeros(alloc, encoded.len()),
        Err(_) => Err(AllocError),
    }
}

/// So many zeros.
fn zeros(alloc: Global, count: usize) -> Result<Vec<u64>, AllocError>
    ensures { IfOk result (λ numbers. numbers.items ≡ replicate count 0) }
{
    vec![in alloc; 0u64; count]
}

/// Of numbers for the dimensions of a shape, those of the dimensions that are not of size one, or
/// another number alone where there is none.
fn squeezed_numbers(
    alloc: Global,
    other: u64,
    shape: &[u64],
    numbers: &[u64],
) -> Result<Vec<u64>, AllocError>
    ensures { IfOk result (λ v. v.items ≡ squeezed_numbers other shape.now numbers.now) }
{
    let mut kept = kept_numbers(alloc, shape, numbers)?;
    if kept.is_empty() {
        kept.push(other)?;
    }
    Ok(kept)
}

/// Of numbers for the dimensions of a shape, those of the dimensions that are not of size one.
fn kept_numbers(alloc: Global, shape: &[u64], numbers: &[u64]) -> Result<Vec<u64>, AllocError>
    ensures { IfOk result (λ v. v.items ≡ kept_numbers shape.now numbers.now) }
{
    let mut kept = Vec::new(alloc);
    for dimension in 0..shape.len().min(numbers.len()) {
        if shape[dimension] != 1 {
            kept.push(numbers[dimension])?;
        }
    }
    Ok(kept)
}

/// The box with this start and shape. `Err` only where there is no such box.
fn subset_of(start: Vec<u64>, sizes: Vec<u64>) -> Result<ArraySubset, AllocError>
    ensures start { IfOk result (λ subset. (region_of subset).start ≡ start.items) }
    ensures sizes { IfOk result (λ subset. (region_of subset).shape ≡ sizes.items) }
{
    match ArraySubset::new_with_start_shape(start, sizes) {
        Ok(subset) => Ok(subset),
        Err(_) => Err(AllocError),
    }
}
