//! Subchunks of a shard in a source, encoded anew where elements are put at a box of its array.
ghost use Rattle.std.specs.Prelude.{◌≡◌, List, Some, IfOk};
ghost use Rattle.zarr_codecs_arrays.specs.Outcomes.{IsCounted};
ghost use Rattle.zarr_codecs_arrays.specs.Views.{elements_of, payload_of};
ghost use Rattle.zarr_codecs_meaning.specs.Payloads.{cells_in};
ghost use Rattle.zarr_codecs_meaning.specs.Places.{gather};
ghost use Rattle.zarr_codecs_meaning.specs.Types.{Cell};
ghost use Rattle.zarr_codecs_regions.specs.Updates.{put};
ghost use Rattle.zarr_codecs_traits.specs.Indexers.{numbers_of};
ghost use Rattle.zarr_grids_boxes.specs.Boxes.{product};
ghost use Rattle.zarr_grids_boxes.specs.Subsets.{region_of};

use crate::box_reading::BoxCut;
use crate::codec::ShardingCodec;
use crate::slices::store_piece;
use crate::subchunks::take_box;
use crate::updating::{NumberedSubchunk, ShardInSource};
use std::alloc::{AllocError, Global};
use zarr_codecs_arrays::{ArrayBytes, CodecError, Elements};
use zarr_codecs_regions::update_array_bytes;
use zarr_codecs_traits::{ArrayToBytesCodecTraits, BytesPartialDecoderTraits, Indexer, WholeArray};
use zarr_grids_boxes::ArraySubset;
use zarr_sharding_index::SliceChange;

/// New elements for the places of a box in an array of this shape, row-major.
#[derive(Clone, Copy)]
pub(crate) struct BoxElements<'a> {
    pub shape: &'a [u64],
    pub region: &'a ArraySubset,
    pub bytes: &'a ArrayBytes,
}

/// New elements for the places of a box with these lengths, and what of it lies in one subchunk.
#[derive(Clone, Copy)]
pub(crate) struct CutElements<'a> {
    lengths: &'a [u64],
    cut: &'a BoxCut,
    bytes: &'a ArrayBytes,
}

impl<I: ArrayToBytesCodecTraits, X: ArrayToBytesCodecTraits> ShardingCodec<I, X> {
    ghost use Rattle.std.specs.Prelude.{◌≡◌, ◌<◌, ◌≤◌, ◌+◌, true, length, get_or, IsTrue, IfOk};
    ghost use Rattle.std.specs.List.{list_all};
    ghost use Rattle.zarr_codecs_arrays.specs.Views.{elements_of};
    ghost use Rattle.zarr_codecs_meaning.specs.Encoding.{absent_pair};
    ghost use Rattle.zarr_codecs_meaning.specs.Fits.{fits};
    ghost use Rattle.zarr_codecs_meaning.specs.Places.{parts_of};
    ghost use Rattle.zarr_codecs_traits.specs.Indexers.{shape_has};
    ghost use Rattle.zarr_codecs_traits.specs.ReadBytes.{slice_length};
    ghost use Rattle.zarr_codecs_traits.specs.Sources.{refused_after};
    ghost use Rattle.zarr_grids_boxes.specs.Subsets.{region_of};
    ghost use Rattle.zarr_sharding_codec.specs.BytesMet.{bytes_met};
    ghost use Rattle.zarr_sharding_codec.specs.Updating.{IsKnownOf, PutsBox, PutsCut, numbers_boxed, stored_of, total_of};
    ghost use Rattle.zarr_sharding_codec.specs.Views.{inner_of, shard_chain, subchunk_of};
    ghost use Rattle.zarr_sharding_index.specs.Known.{pairs_in};
    ghost use Rattle.zarr_sharding_index.specs.SliceChanges.{is_below};

    /// The new slices of the subchunks that the places of a box lie in, as `update_slices` makes
    /// them.
    pub(crate) fn update_box<D: BytesPartialDecoderTraits>(
        &self,
        alloc: Global,
        source: &mut D,
        shard: ShardInSource<'_>,
        given: BoxElements<'_>,
    ) -> Result<Vec<SliceChange>, CodecError>
        requires fit { fits (shard_chain I.meaning X.meaning self.now)
            (elements_of shard.elements.now).type given.shape.now ≡ true }
        requires many { length (pairs_in shard.known.now)
            ≡ length (parts_of given.shape.now (subchunk_of self.now)) }
        requires inside { shape_has given.shape.now (region_of given.region.now) ≡ true }
        ensures changes { IsTrue (D.is_honest source.old)
            → IsKnownOf shard.entry (D.contents source.old)
            → PutsBox (stored_of I.ArrayToBytesCodecTraits self.now shard.entry
            (D.contents source.old)) (subchunk_of self.now) given.entry result }
        ensures below { IfOk result (λ changes. list_all
            (is_below (length (pairs_in shard.entry.known.now))) changes.items ≡ true) }
        ensures refused { D.refused_calls source.new ≡
            refused_after (D.refused_calls source.old) result }
        ensures given { IsTrue (D.is_honest source.old) → D.given_bytes source.new
            ≤ D.given_bytes source.old + bytes_met given.entry.shape.now (subchunk_of self.now)
            (numbers_boxed given.entry) (pairs_in shard.entry.known.now) (total_of shard.entry) }
        ensures follows { D.follows source.old source.new }
    {
        let lengths = given.region.shape();
        let found = self.subchunks_met(alloc, given.shape, given.region)?;
        let met = found.as_slice();
        let bytes = given.bytes;
        let mut changes = Vec::with_capacity(alloc, met.len())?;
        for j in 0..met.len() {
            let made = self.cut_at(alloc, given.shape, given.region, met[j])?;
            let cut = &made;
            let part = CutElements {
                lengths,
                cut,
                bytes,
            };
            match self.update_cut(alloc, source, shard, part) {
                Ok(change) => changes.push(change)?,
                Err(error) => return Err(error),
            }
        }
        Ok(changes)
    }

    /// The new slice of the subchunk that part of a box lies in.
    fn update_cut<D: BytesPartialDecoderTraits>(
        &self,
        alloc: Global,
        source: &mut D,
        shard: ShardInSource<'_>,
        given: CutElements<'_>,
    ) -> Result<SliceChange, CodecError>
        requires fit { fits (I.meaning (inner_of self.now)) (elements_of shard.elements.now).type
            given.cut.now.inside.shape.items ≡ true }
        requires pair { given.cut.now.inside.number < length (pairs_in shard.known.now) }
        ensures change { IsTrue (D.is_honest source.old)
            → IsKnownOf shard.entry (D.contents source.old)
            → PutsCut (stored_of I.ArrayToBytesCodecTraits self.now shard.entry
            (D.contents source.old)) given.entry result }
        ensures number { IfOk result (λ change. change.number ≡ given.entry.cut.now.inside.number) }
        ensures refused { D.refused_calls source.new ≡
            refused_after (D.refused_calls source.old) result }
        ensures given { IsTrue (D.is_honest source.old) → D.given_bytes source.new
            ≤ D.given_bytes source.old + slice_length (total_of shard.entry)
            (get_or (pairs_in shard.entry.known.now) given.entry.cut.now.inside.number
            absent_pair) }
        ensures follows { D.follows source.old source.new }
    {
        let inside = &given.cut.inside;
        let number = inside.number as usize;
        let elements = shard.elements;
        let shape = inside.shape.as_slice();
        let subchunk = NumberedSubchunk { number, shape };
        match self.read_subchunk(alloc, source, shard, subchunk) {
            Ok(piece) => {
                let updated = put_cut(alloc, piece, given, elements)?;
                match store_piece(alloc, &self.inner_codecs, updated, elements, shape) {
                    Ok(slice) => Ok(SliceChange { number, slice }),
                    Err(error) => Err(error),
                }
            }
            Err(error) => Err(error),
        }
    }
}

/// The elements of a subchunk after those of a box were put that lie in it. `Err` where an
/// allocation failed, and where these are no elements of the subchunk or of the box.
fn put_cut(
    alloc: Global,
    piece: ArrayBytes,
    given: CutElements<'_>,
    elements: &Elements,
) -> Result<ArrayBytes, AllocError>
    ensures { (before cells : List Cell) → IsCounted (elements_of elements.now).type
        (payload_of piece) (product given.entry.cut.now.inside.shape.items) before
        → IsCounted (elements_of elements.now).type (payload_of given.entry.bytes.now)
        (product given.entry.lengths.now) cells
        → IfOk result (λ made. cells_in (elements_of elements.now).type (payload_of made)
        ≡ Some (put (numbers_of given.entry.cut.now.inside.shape.items
        (region_of given.entry.cut.now.inside.region)) (gather (elements_of elements.now).fill
        cells (numbers_of given.entry.lengths.now (region_of given.entry.cut.now.target)))
        before)) }
{
    let shape = given.lengths;
    let array = WholeArray { elements, shape };
    let room = Vec::new(alloc);
    let new = take_box(alloc, room, given.bytes, array, &given.cut.target)?;
    let inside = &given.cut.inside;
    let indexer = Indexer::Subset(&inside.region);
    let edges = inside.shape.as_slice();
    match update_array_bytes(alloc, piece, edges, indexer, &new, elements.data_type()) {
        Ok(updated) => Ok(updated),
        Err(_) => Err(AllocError),
    }
}
