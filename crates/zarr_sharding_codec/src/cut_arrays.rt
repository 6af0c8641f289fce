//! Arrays of shards, cut into their subchunks.
ghost use Rattle.std.specs.Prelude.{◌≡◌, ◌<◌, ◌^◌, map, IfOk};
ghost use Rattle.zarr_codecs_meaning.specs.Encoding.{joined_slices, pairs_from};
ghost use Rattle.zarr_sharding_codec.specs.Slices.{slice_of};
ghost use Rattle.zarr_sharding_index.specs.Views.{pairs_of};

use crate::codec::ShardingCodec;
use crate::slices::{push_slice, store_piece};
use crate::subchunks::{numbered_region, take_box};
use std::alloc::{AllocError, Global};
use zarr_codecs_arrays::{ArrayBytes, CodecError};
use zarr_codecs_traits::{ArrayPieces, ArrayToBytesCodecTraits, WholeArray};
use zarr_grids_boxes::walk::count_places;
use zarr_sharding_index::ShardIndex;
use zarr_sharding_index::shapes::{grid_of, index_shape};

impl<I: ArrayToBytesCodecTraits, X: ArrayToBytesCodecTraits> ShardingCodec<I, X> {
    ghost use Rattle.std.specs.Prelude.{◌≡◌, List, map, true};
    ghost use Rattle.zarr_codecs_arrays.specs.Outcomes.{IsValid};
    ghost use Rattle.zarr_codecs_arrays.specs.Views.{elements_of, payload_of};
    ghost use Rattle.zarr_codecs_meaning.specs.Fits.{fits};
    ghost use Rattle.zarr_codecs_meaning.specs.Types.{Cell};
    ghost use Rattle.zarr_codecs_traits.specs.Arrays.{coded_array};
    ghost use Rattle.zarr_codecs_traits.specs.Pieces.{AnswersPiece};
    ghost use Rattle.zarr_grids_boxes.specs.Boxes.{product};
    ghost use Rattle.zarr_sharding_codec.specs.Fitting.{index_length};
    ghost use Rattle.zarr_sharding_codec.specs.Pieces.{CutsArray, JoinsSlices, StoresNumbered};
    ghost use Rattle.zarr_sharding_codec.specs.Slices.{slice_of};
    ghost use Rattle.zarr_sharding_codec.specs.Views.{inner_of, makes_a_function, shard_chain};

    /// The subchunks of an array that the codec suits, where these are its elements.
    pub(crate) fn cut_array(
        &self,
        alloc: Global,
        bytes: ArrayBytes,
        array: WholeArray<'_>,
    ) -> Result<ArrayPieces, CodecError>
        requires fit { fits (shard_chain I.meaning X.meaning self.now)
            (elements_of array.elements.now).type array.shape.now ≡ true }
        requires valid { (cells : List Cell) × IsValid (elements_of array.elements.now).type
            (payload_of bytes) (product array.shape.now) cells }
        ensures { CutsArray (coded_array (shard_chain I.meaning X.meaning self.now) array.entry)
            (payload_of bytes) result }
    {
        let counts = grid_of(alloc, array.shape, &self.subchunk_shape)?;
        let Some(count) = count_places(counts.as_slice()) else {
            return Err(CodecError::Memory);
        };
        let shape = array.shape.to_vec(alloc)?;
        let count = count as usize;
        Ok(ArrayPieces {
            bytes,
            shape,
            count,
        })
    }

    /// What is stored of the subchunk with this number, where these are the elements of the array.
    /// `Memory` also where there is no such subchunk, or the inner codecs don't suit it.
    pub(crate) fn store_numbered(
        &self,
        alloc: Global,
        bytes: &ArrayBytes,
        n: usize,
        array: WholeArray<'_>,
    ) -> Result<Option<Vec<u8>>, CodecError>
        ensures { AnswersPiece (StoresNumbered (I.is_function (inner_of self.now)) (coded_array
            (shard_chain I.meaning X.meaning self.now) array.entry) (payload_of bytes.now) n)
            result }
    {
        let elements = array.elements;
        let inner = &self.inner_codecs;
        let region = numbered_region(alloc, array.shape, &self.subchunk_shape, n as u64)?;
        let edges = region.shape();
        if !inner.fits(alloc, elements.data_type(), edges)? {
            return Err(CodecError::Memory);
        }
        let piece = take_box(alloc, Vec::new(alloc), bytes, array, &region)?;
        store_piece(alloc, inner, piece, elements, edges)
    }

    /// The shard of an array of which this is stored of its subchunks, in their order; its index
    /// has so many bytes.
    pub(crate) fn join_slices(
        &self,
        alloc: Global,
        stored: Vec<Option<Vec<u8>>>,
        array: WholeArray<'_>,
        size: u64,
    ) -> Result<Vec<u8>, CodecError>
        requires fit { fits (shard_chain I.meaning X.meaning self.now)
            (elements_of array.elements.now).type array.shape.now ≡ true }
        requires size { size ≡ index_length (shard_chain I.meaning X.meaning self.now)
            array.shape.now }
        ensures { JoinsSlices (coded_array (shard_chain I.meaning X.meaning self.now) array.entry)
            (I.is_function (inner_of self.now))
            (makes_a_function I.is_function X.is_function self.now)
            (map slice_of stored.items) result }
    {
        let pairs_shape = index_shape(alloc, array.shape, &self.subchunk_shape)?;
        let Some(numbers) = count_places(pairs_shape.as_slice()) else {
            return Err(CodecError::Memory);
        };
        if numbers / 2 != stored.len() as u64 {
            return Err(CodecError::Memory);
        }
        let (data, index) = in_row(alloc, self.index_location.base(size), stored)?;
        self.assemble(alloc, data, index, pairs_shape.as_slice())
    }
}

/// Whether elements have so few bytes that one thread encodes them sooner than several: fewer than
/// half a megabyte.
pub(crate) fn is_small(bytes: &ArrayBytes) -> bool {
    let size = match bytes {
        ArrayBytes::Fixed(values) => values.len(),
        ArrayBytes::Variable(values, _) => values.len(),
        ArrayBytes::Optional(_, mask) => mask.len(),
    };
    size < 1 << 19
}

/// The slices that are stored, in a row, and the index of them, where the first begins at `base`.
fn in_row(
    alloc: Global,
    base: u64,
    stored: Vec<Option<Vec<u8>>>,
) -> Result<(Vec<u8>, ShardIndex), AllocError>
    requires { base < 2 ^ 63 }
    ensures data { IfOk result
        (λ made. made.0.items ≡ joined_slices (map slice_of stored.items)) }
    ensures index { IfOk result
        (λ made. pairs_of made.1 ≡ pairs_from base (map slice_of stored.items)) }
{
    let mut data = Vec::new(alloc);
    let mut index = ShardIndex::new(alloc);
    for slice in stored {
        push_slice(alloc, base, slice, &mut data, &mut index)?;
    }
    Ok((data, index))
}
