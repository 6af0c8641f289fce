//! What a chain, and the chains inside of it, tell of the size of what they make.
ghost use Rattle.std.specs.Prelude.{◌≡◌, [], ◌∷◌, Some, true};
ghost use Rattle.zarr_codecs_meaning.specs.Fits.{at_most, bound_of, fits, sum_of_bounds, takes_each_shape};
ghost use Rattle.zarr_codecs_packbits.specs.Told.{RefusesToldSizes};
ghost use Rattle.zarr_codecs_types.specs.Views.{type_of};
ghost use Rattle.zarr_codecs_traits.specs.Representations.{RepresentsArray, RepresentsShort, known_size};
ghost use Rattle.zarr_codecs_chains.specs.Views.{codec_chain, meaning_of, optional_chain};

use crate::array_to_bytes::ArrayToBytesCodec;
use crate::chain::CodecChain;
use crate::fitting::fits_codec;
use crate::optional::OptionalCodec;
use std::alloc::Global;
use zarr_codecs_around::array_codecs::shape_after;
use zarr_codecs_around::byte_codecs::represent_all;
use zarr_codecs_arrays::CodecError;
use zarr_codecs_traits::{ArrayToBytesCodecTraits, BytesRepresentation, BytesToBytesCodecTraits};
use zarr_codecs_types::DataType;
use zarr_grids_boxes::walk::count_places;

/// What an array to bytes codec tells of the size of the value of an array.
pub(crate) fn represent_codec<B: BytesToBytesCodecTraits>(
    codec: &ArrayToBytesCodec<B>,
    alloc: Global,
    data_type: &DataType,
    shape: &[u64],
) -> Result<BytesRepresentation, CodecError>
    ensures { RepresentsArray (codec_chain B.meaning codec.now) (type_of data_type.now) shape.now
        result }
{
    if !fits_codec(codec, alloc, data_type, shape)? {
        return Err(CodecError::Fit);
    }
    size_by_codec(codec, alloc, data_type, shape)
}

/// What a chain tells of it that suits the array.
#[cycle(representing)]
fn size_by_chain<B: BytesToBytesCodecTraits>(
    chain: &CodecChain<B>,
    alloc: Global,
    data_type: &DataType,
    shape: &[u64],
) -> Result<BytesRepresentation, CodecError>
    ensures represents { fits (meaning_of B.meaning chain.now) (type_of data_type.now) shape.now
        ≡ true → RepresentsArray (meaning_of B.meaning chain.now) (type_of data_type.now)
        shape.now result }
    ensures told { fits (meaning_of B.meaning chain.now) (type_of data_type.now) shape.now ≡ true
        → takes_each_shape (meaning_of B.meaning chain.now) ≡ true
        → RefusesToldSizes (meaning_of B.meaning chain.now) (type_of data_type.now) shape.now
        result }
{
    let codecs = chain.array_to_array.as_slice();
    let others = chain.others.bytes_to_bytes.as_slice();
    let last = match shape_after(alloc, codecs, shape) {
        Ok(last) => last,
        Err(error) => return Err(error),
    };
    let codec = &chain.others.array_to_bytes;
    match size_by_codec(codec, alloc, data_type, last.as_slice()) {
        Ok(size) => represent_all(others, size),
        Err(error) => Err(error),
    }
}

/// What an array to bytes codec tells of it that suits the array.
#[cycle(representing)]
fn size_by_codec<B: BytesToBytesCodecTraits>(
    codec: &ArrayToBytesCodec<B>,
    alloc: Global,
    data_type: &DataType,
    shape: &[u64],
) -> Result<BytesRepresentation, CodecError>
    ensures represents { fits (codec_chain B.meaning codec.now) (type_of data_type.now) shape.now
        ≡ true → RepresentsArray (codec_chain B.meaning codec.now) (type_of data_type.now)
        shape.now result }
    ensures told { fits (codec_chain B.meaning codec.now) (type_of data_type.now) shape.now ≡ true
        → RefusesToldSizes (codec_chain B.meaning codec.now) (type_of data_type.now) shape.now
        result }
{
    match codec {
        ArrayToBytesCodec::Bytes(codec) => codec.encoded_representation(alloc, data_type, shape),
        ArrayToBytesCodec::PackBits(codec) => {
            codec.encoded_representation(alloc, data_type, shape)
        }
        // The lengths of elements aren't known.
        ArrayToBytesCodec::Vlen(_) => Ok(BytesRepresentation::UnboundedSize),
        ArrayToBytesCodec::Optional(codec) => size_by_optional(codec, alloc, data_type, shape),
    }
}

/// What `optional` tells of it, where it suits the array: at most two lengths, the mask, and the
/// data of all elements.
#[cycle(representing)]
fn size_by_optional<B: BytesToBytesCodecTraits>(
    codec: &OptionalCodec<B>,
    alloc: Global,
    data_type: &DataType,
    shape: &[u64],
) -> Result<BytesRepresentation, CodecError>
    ensures represents { fits (optional_chain B.meaning codec.now) (type_of data_type.now)
        shape.now ≡ true → RepresentsArray (optional_chain B.meaning codec.now)
        (type_of data_type.now) shape.now result }
    ensures told { fits (optional_chain B.meaning codec.now) (type_of data_type.now) shape.now
        ≡ true → RefusesToldSizes (optional_chain B.meaning codec.now) (type_of data_type.now)
        shape.now result }
{
    let Some(count) = count_places(shape) else {
        return Err(CodecError::Size);
    };
    let Some(of_type) = data_type.inner() else {
        return Err(CodecError::Memory);
    };
    let mask = match size_by_chain(&codec.mask_codecs, alloc, &DataType::Bool, shape) {
        Ok(mask) => mask,
        Err(error) => return Err(error),
    };
    match size_by_chain(&codec.data_codecs, alloc, of_type, &[count]) {
        Ok(values) => sum_of_sections(mask, values),
        Err(error) => Err(error),
    }
}

/// Two lengths, and at most as much as is known of two sections. `Size` where that is 2^63 or more.
fn sum_of_sections(
    mask: BytesRepresentation,
    values: BytesRepresentation,
) -> Result<BytesRepresentation, CodecError>
    ensures { RepresentsShort (at_most (sum_of_bounds (Some 16 ∷ bound_of (known_size mask)
        ∷ bound_of (known_size values) ∷ []))) result }
{
    let Some(first) = bound_of(mask) else {
        return Ok(BytesRepresentation::UnboundedSize);
    };
    let Some(second) = bound_of(values) else {
        return Ok(BytesRepresentation::UnboundedSize);
    };
    let Some(both) = first.checked_add(second) else {
        return Err(CodecError::Size);
    };
    let Some(all) = both.checked_add(16) else {
        return Err(CodecError::Size);
    };
    if all < 1 << 63 {
        Ok(BytesRepresentation::BoundedSize(all))
    } else {
        Err(CodecError::Size)
    }
}

/// The most that a size can be, where there is a bound.
fn bound_of(size: BytesRepresentation) -> Option<u64>
    ensures { result ≡ bound_of (known_size size) }
{
    match size {
        BytesRepresentation::FixedSize(bound) | BytesRepresentation::BoundedSize(bound) => {
            Some(bound)
        }
        BytesRepresentation::UnboundedSize => None,
    }
}
