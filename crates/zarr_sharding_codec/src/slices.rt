//! The slices of a shard's subchunks, and how they are laid out.
ghost use Rattle.std.specs.Prelude.{◌≡◌, ◌+◌, ◌^◌, ◌<◌, ◌∷◌, ◌++◌, ℕ, List, [], length, true, IfOk, OnOk};
ghost use Rattle.zarr_codecs_arrays.specs.Outcomes.{IsValid};
ghost use Rattle.zarr_codecs_arrays.specs.Views.{elements_of, payload_of};
ghost use Rattle.zarr_codecs_meaning.specs.Encoding.{joined, pair_at, slice_bytes};
ghost use Rattle.zarr_codecs_meaning.specs.Fits.{fits};
ghost use Rattle.zarr_codecs_meaning.specs.Types.{Cell};
ghost use Rattle.zarr_codecs_traits.specs.Sources.{refused_after};
ghost use Rattle.zarr_grids_boxes.specs.Boxes.{product};
ghost use Rattle.zarr_sharding_codec.specs.Slices.{StoresPiece, slice_of};
ghost use Rattle.zarr_sharding_index.specs.Views.{location_of, pairs_of};

use std::alloc::{AllocError, Global};
use zarr_codecs_arrays::{ArrayBytes, CodecError, Elements};
use zarr_codecs_traits::{ArrayToBytesCodecTraits, ByteRange};
use zarr_sharding_index::pair::ABSENT;
use zarr_sharding_index::{ShardIndex, ShardingIndexLocation};

/// What is stored of a subchunk: nothing where all elements are the fill value, else its slice.
pub(crate) fn store_piece<I: ArrayToBytesCodecTraits>(
    alloc: Global,
    inner_codecs: &I,
    piece: ArrayBytes,
    elements: &Elements,
    shape: &[u64],
) -> Result<Option<Vec<u8>>, CodecError>
    requires { fits (I.meaning inner_codecs.now) (elements_of elements.now).type shape.now ≡ true }
    ensures stored { (cells : List Cell)
        → IsValid (elements_of elements.now).type (payload_of piece) (product shape.now) cells
        → StoresPiece (I.meaning inner_codecs.now) (I.is_function inner_codecs.now)
        (elements_of elements.now) (shape.now, cells) result }
    ensures no_source { (count : ℕ) → refused_after count result ≡ count }
{
    if piece.is_fill_value(elements) {
        return Ok(None);
    }
    match inner_codecs.encode_in_order(alloc, piece, elements, shape) {
        Ok(slice) => Ok(Some(slice)),
        Err(error) => Err(error),
    }
}

/// Adds what is stored of one subchunk more to the slices in a row and to the index of them, where
/// the first begins at `base`; gives back the memory of the slice.
pub(crate) fn push_slice(
    alloc: Global,
    base: u64,
    stored: Option<Vec<u8>>,
    data: &mut Vec<u8>,
    index: &mut ShardIndex,
) -> Result<Vec<u8>, AllocError>
    requires { base < 2 ^ 63 }
    ensures slice { OnOk result
        (data.new.items ≡ data.old.items ++ slice_bytes (slice_of stored)) }
    ensures pair { OnOk result (pairs_of index.new ≡ pairs_of index.old
        ++ pair_at (base + length data.old.items) (slice_of stored) ∷ []) }
{
    match stored {
        Some(slice) => {
            index.push(ByteRange {
                offset: base + data.len() as u64,
                length: slice.len() as u64,
            })?;
            data.extend_from_slice(slice.as_slice())?;
            Ok(slice)
        }
        None => {
            index.push(ABSENT)?;
            Ok(Vec::new(alloc))
        }
    }
}

/// The index before or behind the data.
pub(crate) fn join(
    location: ShardingIndexLocation,
    index: Vec<u8>,
    data: Vec<u8>,
) -> Result<Vec<u8>, AllocError>
    ensures { IfOk result
        (λ value. value.items ≡ joined (location_of location) index.items data.items) }
{
    let (mut front, back) = match location {
        ShardingIndexLocation::Start => (index, data),
        ShardingIndexLocation::End => (data, index),
    };
    front.extend_from_slice(back.as_slice())?;
    front.shrink_to_fit();
    Ok(front)
}
