//! Values of shards, cut into the slices of their subchunks.
ghost use Rattle.std.specs.Prelude.{IfOk};
ghost use Rattle.zarr_sharding_codec.specs.Pieces.{AreSliced};
ghost use Rattle.zarr_sharding_index.specs.Views.{pairs_of};

use crate::codec::ShardingCodec;
use crate::subchunks::{CutArray, first_place, move_to_subchunk, numbered_region};
use std::alloc::{AllocError, Global};
use zarr_codecs_arrays::{ArrayBytes, CodecError};
use zarr_codecs_regions::{count_asked, count_elements, test_asked};
use zarr_codecs_traits::{
    ArrayToBytesCodecTraits, Indexer, PiecePlaces, PieceSlice, ValuePieces, WholeArray,
};
use zarr_grids_boxes::ArraySubset;
use zarr_grids_boxes::walk::count_places;
use zarr_sharding_index::pair::slice_at;
use zarr_sharding_index::shapes::grid_of;
use zarr_sharding_index::{PresentPairs, ShardIndex};
use zarr_sharding_places::BoxedElements;

impl<I: ArrayToBytesCodecTraits, X: ArrayToBytesCodecTraits> ShardingCodec<I, X> {
    ghost use Rattle.std.specs.Prelude.{◌≡◌, true};
    ghost use Rattle.zarr_codecs_arrays.specs.Views.{elements_of};
    ghost use Rattle.zarr_codecs_meaning.specs.Fits.{fits};
    ghost use Rattle.zarr_codecs_traits.specs.Arrays.{coded_array};
    ghost use Rattle.zarr_codecs_traits.specs.Indexers.{asked_of};
    ghost use Rattle.zarr_codecs_traits.specs.Pieces.{AnswersPiece};
    ghost use Rattle.zarr_sharding_codec.specs.Fitting.{index_length};
    ghost use Rattle.zarr_sharding_codec.specs.Pieces.{CutsValue, DecodesAsked, DecodesSlice, PutsSlices};
    ghost use Rattle.zarr_sharding_codec.specs.Views.{inner_of, shard_chain};

    /// The present slices of the value of an array that the codec suits; the index has so many
    /// bytes. `Damage` where the value holds no index.
    pub(crate) fn cut_value(
        &self,
        alloc: Global,
        value: Vec<u8>,
        array: WholeArray<'_>,
        size: u64,
    ) -> Result<ValuePieces, CodecError>
        requires fit { fits (shard_chain I.meaning X.meaning self.now)
            (elements_of array.elements.now).type array.shape.now ≡ true }
        requires size { size ≡ index_length (shard_chain I.meaning X.meaning self.now)
            array.shape.now }
        ensures { CutsValue (coded_array (shard_chain I.meaning X.meaning self.now) array.entry)
            value.items result }
    {
        match self.index_in(alloc, value.as_slice(), array.shape, size) {
            Ok(index) => {
                let slices = slices_present(alloc, index)?;
                let shape = array.shape.to_vec(alloc)?;
                Ok(ValuePieces {
                    data: value,
                    shape,
                    slices,
                    stopped: None,
                })
            }
            Err(error) => Err(error),
        }
    }

    /// The elements at the places of a slice's subchunk that are asked for, where the slice is one
    /// of these bytes. `Damage` where it ends past their end.
    pub(crate) fn decode_numbered(
        &self,
        alloc: Global,
        data: &[u8],
        slice: &PieceSlice,
        array: WholeArray<'_>,
    ) -> Result<ArrayBytes, CodecError>
        ensures { AnswersPiece (DecodesSlice (coded_array (shard_chain I.meaning X.meaning
            self.now) array.entry) data.now slice.now) result }
    {
        let region = numbered_region(alloc, array.shape, &self.subchunk_shape, slice.number)?;
        let Some(bytes) = slice_at(data, slice.range) else {
            return Err(CodecError::Damage);
        };
        let bytes = bytes.to_vec(alloc)?;
        let elements = array.elements;
        let shape = region.shape();
        let part = WholeArray { elements, shape };
        match &slice.places {
            PiecePlaces::All => self
                .inner_codecs
                .decode_in_order(alloc, bytes, elements, shape),
            PiecePlaces::InBox { inside, .. } => {
                self.decode_asked(alloc, bytes, Indexer::Subset(inside), part)
            }
            PiecePlaces::Listed { insides, .. } => {
                self.decode_asked(alloc, bytes, Indexer::List(insides.as_slice()), part)
            }
        }
    }

    /// The elements at places of the subchunk that a slice holds. `Memory` also where the inner
    /// codecs don't suit the subchunk, or no place of it is asked for.
    fn decode_asked(
        &self,
        alloc: Global,
        slice: Vec<u8>,
        indexer: Indexer<'_>,
        part: WholeArray<'_>,
    ) -> Result<ArrayBytes, CodecError>
        ensures { AnswersPiece (DecodesAsked (coded_array (I.meaning (inner_of self.now))
            part.entry) slice.items (asked_of indexer.entry)) result }
    {
        let (elements, shape) = (part.elements, part.shape);
        if !self.inner_codecs.fits(alloc, elements.data_type(), shape)? {
            return Err(CodecError::Memory);
        }
        if test_asked(shape, indexer).is_err() {
            return Err(CodecError::Memory);
        }
        match count_asked(shape, indexer) {
            Some(count) if count > 0 => self.read_slice(alloc, slice, indexer, shape, elements),
            _ => Err(CodecError::Memory),
        }
    }

    /// The elements of an array of which these are the ones of the subchunks whose slices these
    /// are, and fill values elsewhere.
    pub(crate) fn put_slices(
        &self,
        alloc: Global,
        slices: &[PieceSlice],
        found: &[ArrayBytes],
        array: WholeArray<'_>,
    ) -> Result<ArrayBytes, CodecError>
        ensures { PutsSlices (coded_array (shard_chain I.meaning X.meaning self.now) array.entry)
            slices.now found.now result }
    {
        let edges = self.subchunk_shape.as_slice();
        if array.shape.len() != edges.len() {
            return Err(CodecError::Memory);
        }
        let counts = grid_of(alloc, array.shape, &self.subchunk_shape)?;
        let grid = counts.as_slice();
        let Some(count) = count_places(grid) else {
            return Err(CodecError::Memory);
        };
        let shape = array.shape;
        let cut = CutArray {
            shape,
            edges,
            grid,
            count,
        };
        let Some(total) = count_elements(shape, array.elements) else {
            return Err(CodecError::Size);
        };
        let filled = BoxedElements::new_fill_value(alloc, total as usize, array.elements)?;
        let mut all = filled;
        let first = first_place(alloc, grid)?;
        let first = first.as_slice();
        let mut region = ArraySubset::new_with_shape(alloc, edges.to_vec(alloc)?)?;
        for j in 0..slices.len() {
            let number = slices[j].number;
            if number >= count || j >= found.len() {
                return Err(CodecError::Memory);
            }
            region = move_to_subchunk(region, first, cut, number)?;
            all = all.put(alloc, array, &region, &found[j])?;
        }
        Ok(all.into_bytes(alloc, array.elements)?)
    }
}

/// The slices of the subchunks that are present, in their order.
fn slices_present(alloc: Global, index: ShardIndex) -> Result<Vec<PieceSlice>, AllocError>
    ensures { IfOk result (λ slices. AreSliced (pairs_of index) slices.items) }
{
    let pairs = PresentPairs::from_index(alloc, index)?;
    let count = pairs.count_present();
    let mut slices = Vec::with_capacity(alloc, count)?;
    for k in 0..count {
        let pair = pairs.nth(k);
        slices.push(PieceSlice {
            number: pair.number as u64,
            range: pair.range,
            places: PiecePlaces::All,
        })?;
    }
    Ok(slices)
}
