//! What is stored of the subchunks of an array.

use crate::codec::ShardingCodec;
use crate::slices::{push_slice, store_piece};
use crate::subchunks::{CutArray, first_place, move_to_subchunk, take_box};
use std::alloc::Global;
use zarr_codecs_arrays::{ArrayBytes, CodecError};
use zarr_codecs_traits::{ArrayToBytesCodecTraits, WholeArray};
use zarr_grids_boxes::ArraySubset;
use zarr_grids_boxes::walk::count_places;
use zarr_sharding_index::ShardIndex;
use zarr_sharding_index::shapes::grid_of;

impl<I: ArrayToBytesCodecTraits, X: ArrayToBytesCodecTraits> ShardingCodec<I, X> {
    ghost use Rattle.std.specs.Prelude.{◌≡◌, ◌<◌, ◌^◌, List, true};
    ghost use Rattle.zarr_codecs_arrays.specs.Outcomes.{IsValid};
    ghost use Rattle.zarr_codecs_arrays.specs.Views.{elements_of, payload_of};
    ghost use Rattle.zarr_codecs_meaning.specs.Encoding.{base_of, pieces_of};
    ghost use Rattle.zarr_codecs_meaning.specs.Fits.{fits};
    ghost use Rattle.zarr_codecs_meaning.specs.Places.{parts_of};
    ghost use Rattle.zarr_codecs_meaning.specs.Types.{Cell};
    ghost use Rattle.zarr_grids_boxes.specs.Boxes.{product};
    ghost use Rattle.zarr_sharding_codec.specs.Slices.{StoresPieces, piece_coding};
    ghost use Rattle.zarr_sharding_codec.specs.Views.{inner_of, place_of_index, shard_chain, subchunk_of};

    /// What is stored of the subchunks of an array, row-major: of each one its slice, and nothing
    /// where all its elements are the fill value. The slices stand in a row, and their index is
    /// that of a shard whose index has so many bytes.
    pub(crate) fn store_pieces(
        &self,
        alloc: Global,
        bytes: &ArrayBytes,
        array: WholeArray<'_>,
        size: u64,
    ) -> Result<(Vec<u8>, ShardIndex), CodecError>
        requires low { size < 2 ^ 63 }
        requires fit { fits (shard_chain I.meaning X.meaning self.now)
            (elements_of array.elements.now).type array.shape.now ≡ true }
        ensures { (cells : List Cell) → IsValid (elements_of array.entry.elements.now).type
            (payload_of bytes.now) (product array.entry.shape.now) cells
            → StoresPieces (piece_coding (I.meaning (inner_of self.now))
            (I.is_function (inner_of self.now)) (elements_of array.entry.elements.now))
            array.entry.shape.now
            (pieces_of (elements_of array.entry.elements.now).fill cells
            (parts_of array.entry.shape.now (subchunk_of self.now)))
            (base_of (place_of_index self.now) size) result }
    {
        let edges = self.subchunk_shape.as_slice();
        let counts = grid_of(alloc, array.shape, &self.subchunk_shape)?;
        let grid = counts.as_slice();
        let Some(count) = count_places(grid) else {
            return Err(CodecError::Memory);
        };
        let shape = array.shape;
        let cut = CutArray {
            shape,
            edges,
            grid,
            count,
        };
        let base = self.index_location.base(size);
        let mut data = Vec::with_capacity(alloc, room_for(bytes, size))?;
        let mut index = ShardIndex::new(alloc);
        let first = first_place(alloc, grid)?;
        let first = first.as_slice();
        let mut region = ArraySubset::new_with_shape(alloc, edges.to_vec(alloc)?)?;
        let mut room = Vec::new(alloc);
        for n in 0..count {
            let moved = move_to_subchunk(region, first, cut, n)?;
            let piece = take_box(alloc, room, bytes, array, &moved)?;
            let inner = &self.inner_codecs;
            match store_piece(alloc, inner, piece, array.elements, moved.shape()) {
                Ok(slice) => room = push_slice(alloc, base, slice, &mut data, &mut index)?,
                Err(error) => return Err(error),
            }
            region = moved;
        }
        Ok((data, index))
    }
}

/// How many bytes a shard of these elements has where each has one size, none is the fill value and
/// no codec changes how many there are; its index has so many bytes.
fn room_for(bytes: &ArrayBytes, size: u64) -> usize {
    match bytes {
        ArrayBytes::Fixed(bytes) => bytes.len().saturating_add(size as usize),
        _ => 0,
    }
}
