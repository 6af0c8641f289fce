//! The elements of an array that a shard is decoded to.
ghost use Rattle.std.specs.Prelude.{◌≡◌, ℕ, Err};
ghost use Rattle.zarr_grids_boxes.specs.Boxes.{product};
ghost use Rattle.zarr_codecs_meaning.specs.Types.{IsTooLarge};
ghost use Rattle.zarr_codecs_arrays.specs.Views.{elements_of};
ghost use Rattle.zarr_codecs_traits.specs.Sources.{refused_after};
ghost use Rattle.zarr_sharding_codec.specs.Reading.{FillsPiece};

use crate::codec::ShardingCodec;
use crate::subchunks::{CutArray, first_place, move_to_subchunk};
use std::alloc::Global;
use zarr_codecs_arrays::{ArrayBytes, CodecError, Elements};
use zarr_codecs_regions::{count_elements, fill_array};
use zarr_codecs_traits::{ArrayToBytesCodecTraits, WholeArray};
use zarr_codecs_types::DataType;
use zarr_grids_boxes::ArraySubset;
use zarr_grids_boxes::walk::count_places;
use zarr_sharding_index::fetched_index::decode_index;
use zarr_sharding_index::pair::{is_absent, slice_at};
use zarr_sharding_index::shapes::{grid_of, index_shape};
use zarr_sharding_index::{IndexLayout, ShardIndex};
use zarr_sharding_places::BoxedElements;

/// A shard: its value, and the index that it holds.
#[derive(Clone, Copy)]
pub(crate) struct Shard<'a> {
    pub value: &'a [u8],
    pub index: &'a ShardIndex,
}

/// The number of a subchunk of an array, and the box of its places there.
#[derive(Clone, Copy)]
struct PiecePlace<'a> {
    array: WholeArray<'a>,
    number: usize,
    region: &'a ArraySubset,
}

impl<I: ArrayToBytesCodecTraits, X: ArrayToBytesCodecTraits> ShardingCodec<I, X> {
    ghost use Rattle.std.specs.Prelude.{◌≡◌, ◌<◌, length, get_or, true};
    ghost use Rattle.zarr_codecs_arrays.specs.Views.{elements_of};
    ghost use Rattle.zarr_codecs_meaning.specs.Encoding.{absent_pair, index_size};
    ghost use Rattle.zarr_codecs_meaning.specs.Fits.{fits};
    ghost use Rattle.zarr_codecs_meaning.specs.Places.{index_shape, parts_of};
    ghost use Rattle.zarr_codecs_types.specs.Views.{type_of};
    ghost use Rattle.zarr_grids_boxes.specs.Subsets.{region_of};
    ghost use Rattle.zarr_sharding_codec.specs.Reading.{DecodesIndexOf, DecodesPiece, DecodesPieces, PutsPiece, found_piece, subchunks_of};
    ghost use Rattle.zarr_sharding_codec.specs.Views.{index_of, inner_of, place_of_index, shard_chain, subchunk_of};
    ghost use Rattle.zarr_sharding_index.specs.HeldIndex.{DecodesIndex};
    ghost use Rattle.zarr_sharding_index.specs.Stored.{index_fits};
    ghost use Rattle.zarr_sharding_index.specs.Views.{pairs_of};
    ghost use Rattle.zarr_sharding_places.specs.Pieces.{piece_decoded};
    ghost use Rattle.zarr_codecs_traits.specs.Arrays.{coded};

    /// The index that a shard holds, of which this is the shape of the array. `Fit` where the codec
    /// doesn't suit the array; `Damage` where the value has fewer bytes than its index, or no index
    /// is decoded from these.
    pub fn decode_index(
        &self,
        alloc: Global,
        value: &[u8],
        data_type: &DataType,
        shape: &[u64],
    ) -> Result<ShardIndex, CodecError>
        ensures { DecodesIndexOf (DecodesIndex (X.meaning (index_of self.now))
            (place_of_index self.now) (index_shape shape.now (subchunk_of self.now)) value.now)
            (fits (shard_chain I.meaning X.meaning self.now) (type_of data_type.now) shape.now)
            result }
    {
        let Some(size) = self.suited(alloc, data_type, shape)? else {
            return Err(CodecError::Fit);
        };
        self.index_in(alloc, value, shape, size)
    }

    /// The index that a shard holds, which has so many bytes; this is the shape of the array.
    pub(crate) fn index_in(
        &self,
        alloc: Global,
        value: &[u8],
        shape: &[u64],
        size: u64,
    ) -> Result<ShardIndex, CodecError>
        requires rank { length shape.now ≡ length (subchunk_of self.now) }
        requires fit { index_fits (X.meaning (index_of self.now))
            (index_shape shape.now (subchunk_of self.now)) ≡ true }
        requires size { size ≡ index_size (X.meaning (index_of self.now))
            (index_shape shape.now (subchunk_of self.now)) }
        ensures { DecodesIndex (X.meaning (index_of self.now)) (place_of_index self.now)
            (index_shape shape.now (subchunk_of self.now)) value.now result }
    {
        let pairs_shape = index_shape(alloc, shape, &self.subchunk_shape)?;
        let shape = pairs_shape.as_slice();
        let location = self.index_location;
        let layout = IndexLayout {
            location,
            shape,
            size,
        };
        decode_index(alloc, &self.index_codecs, value, layout)
    }

    /// The elements of the array of a shard. `Damage` where a present pair ends past the end of the
    /// value, or a slice is not one of the inner codecs'.
    pub(crate) fn decode_pieces(
        &self,
        alloc: Global,
        shard: Shard<'_>,
        array: WholeArray<'_>,
    ) -> Result<ArrayBytes, CodecError>
        requires fit { fits (shard_chain I.meaning X.meaning self.now)
            (elements_of array.elements.now).type array.shape.now ≡ true }
        requires many { length (pairs_of shard.index.now)
            ≡ length (parts_of array.shape.now (subchunk_of self.now)) }
        ensures { DecodesPieces (subchunks_of (I.meaning (inner_of self.now))
            (elements_of array.entry.elements.now) array.entry.shape.now (subchunk_of self.now))
            shard.entry.value.now (pairs_of shard.entry.index.now) result }
    {
        let edges = self.subchunk_shape.as_slice();
        let counts = grid_of(alloc, array.shape, &self.subchunk_shape)?;
        let grid = counts.as_slice();
        let Some(count) = count_places(grid) else {
            return Err(CodecError::Memory);
        };
        let shape = array.shape;
        let cut = CutArray {
            shape,
            edges,
            grid,
            count,
        };
        let Some(total) = count_elements(array.shape, array.elements) else {
            return Err(CodecError::Size);
        };
        let filled = BoxedElements::new_fill_value(alloc, total as usize, array.elements)?;
        let mut all = filled;
        let first = first_place(alloc, grid)?;
        let first = first.as_slice();
        let mut region = ArraySubset::new_with_shape(alloc, edges.to_vec(alloc)?)?;
        for n in 0..count {
            let moved = move_to_subchunk(region, first, cut, n)?;
            let place = PiecePlace {
                array,
                number: n as usize,
                region: &moved,
            };
            match self.put_piece(alloc, all, shard, place) {
                Ok(made) => all = made,
                Err(error) => return Err(error),
            }
            region = moved;
        }
        Ok(all.into_bytes(alloc, array.elements)?)
    }

    /// The elements of the array of a shard after those of one subchunk were put over the ones of
    /// its box: straight from the value where its slice is these as they stand in memory. Errors as
    /// those of `decode_subchunk`.
    fn put_piece(
        &self,
        alloc: Global,
        all: BoxedElements,
        shard: Shard<'_>,
        place: PiecePlace<'_>,
    ) -> Result<BoxedElements, CodecError>
        requires fit { fits (I.meaning (inner_of self.now))
            (elements_of place.array.elements.now).type (region_of place.region.now).shape
            ≡ true }
        requires below { place.number < length (pairs_of shard.index.now) }
        ensures { PutsPiece (elements_of place.entry.array.elements.now)
            (found_piece (region_of place.entry.region.now).shape
            (piece_decoded (I.meaning (inner_of self.now))
            (elements_of place.entry.array.elements.now) shard.entry.value.now
            (region_of place.entry.region.now).shape
            (get_or (pairs_of shard.entry.index.now) place.entry.number absent_pair))
            place.entry.array.shape.now (region_of place.entry.region.now)) all result }
    {
        let elements = place.array.elements;
        let shape = place.region.shape();
        let subchunk = WholeArray { elements, shape };
        let pair = shard.index.get(place.number);
        if let Some(slice) = self.slice_as_is(shard.value, pair, subchunk) {
            return Ok(all.put_bytes(alloc, place.array, place.region, slice)?);
        }
        match self.decode_subchunk(alloc, shard, place.number, subchunk) {
            Ok(piece) => Ok(all.put(alloc, place.array, place.region, &piece)?),
            Err(error) => Err(error),
        }
    }

    /// The elements of the subchunk with this number: fill values where it is absent. `Damage`
    /// where its pair ends past the end of the value, or its slice is not one of the inner codecs'.
    fn decode_subchunk(
        &self,
        alloc: Global,
        shard: Shard<'_>,
        n: usize,
        subchunk: WholeArray<'_>,
    ) -> Result<ArrayBytes, CodecError>
        requires fit { fits (I.meaning (inner_of self.now))
            (elements_of subchunk.elements.now).type subchunk.shape.now ≡ true }
        requires below { n < length (pairs_of shard.index.now) }
        ensures { DecodesPiece (coded (I.meaning (inner_of self.now))
            (elements_of subchunk.entry.elements.now) subchunk.entry.shape.now)
            shard.entry.value.now (get_or (pairs_of shard.entry.index.now) n absent_pair)
            result }
    {
        let elements = subchunk.elements;
        let shape = subchunk.shape;
        let pair = shard.index.get(n);
        if is_absent(pair) {
            return fill_piece(alloc, elements, shape);
        }
        let Some(slice) = slice_at(shard.value, pair) else {
            return Err(CodecError::Damage);
        };
        let slice = slice.to_vec(alloc)?;
        self.inner_codecs
            .decode_in_order(alloc, slice, elements, shape)
    }
}

/// As many fill values as a shape has places. `Size` where they are 2^63 or more or would have as
/// many bytes, before any memory is asked for.
pub(crate) fn fill_piece(
    alloc: Global,
    elements: &Elements,
    shape: &[u64],
) -> Result<ArrayBytes, CodecError>
    ensures lists { FillsPiece (elements_of elements.now) shape.now result }
    ensures large { IsTooLarge (elements_of elements.now).type (product shape.now)
        → result ≡ Err CodecError.Size }
    ensures no_source { (count : ℕ) → refused_after count result ≡ count }
{
    fill_array(alloc, elements, shape)
}
