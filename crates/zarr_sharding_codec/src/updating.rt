//! Subchunks of a shard in a source, encoded anew where elements are put at places in them.
ghost use Rattle.std.specs.Prelude.{◌≡◌, ◌<◌, ◌∷◌, List, [], length, Some, true, nat_lt, IfOk};
ghost use Rattle.std.specs.List.{list_all};
ghost use Rattle.zarr_codecs_arrays.specs.Outcomes.{IsCounted};
ghost use Rattle.zarr_codecs_arrays.specs.Views.{elements_of, payload_of};
ghost use Rattle.zarr_codecs_meaning.specs.Payloads.{cells_in};
ghost use Rattle.zarr_codecs_meaning.specs.Types.{Cell};
ghost use Rattle.zarr_grids_boxes.specs.Boxes.{product};
ghost use Rattle.zarr_sharding_codec.specs.PartWriting.{group_put, insides, positions};

use crate::box_updating::BoxElements;
use crate::codec::ShardingCodec;
use crate::decoding::fill_piece;
use crate::partial::NumberedPlaces;
use crate::slices::store_piece;
use crate::subchunks::part_shape;
use std::alloc::{AllocError, Global};
use zarr_codecs_arrays::{ArrayBytes, CodecError, Elements};
use zarr_codecs_regions::{gather_elements, update_array_bytes};
use zarr_codecs_traits::{ArrayToBytesCodecTraits, BytesPartialDecoderTraits, Indexer};
use zarr_sharding_index::{KnownShard, SliceChange};
use zarr_sharding_places::{AskedPlace, insides_of, leading_group, positions_of};

/// What is known of the shard of an array in a source: its index and where that stands, and what
/// its elements are.
#[derive(Clone, Copy)]
pub struct ShardInSource<'a> {
    pub known: &'a KnownShard,
    pub elements: &'a Elements,
}

/// New elements for the places with these row-major numbers in an array of this shape, one for each
/// place.
#[derive(Clone, Copy)]
pub struct NumberedElements<'a> {
    pub shape: &'a [u64],
    pub numbers: &'a [u64],
    pub bytes: &'a ArrayBytes,
}

/// A subchunk of an array: its number, row-major, and its shape.
#[derive(Clone, Copy)]
pub struct NumberedSubchunk<'a> {
    pub number: usize,
    pub shape: &'a [u64],
}

/// New elements for places of an array, and those of its places that lie in one subchunk, which has
/// this shape.
#[derive(Clone, Copy)]
pub(crate) struct GroupElements<'a> {
    bytes: &'a ArrayBytes,
    group: &'a [AskedPlace],
    shape: &'a [u64],
}

/// All elements of a subchunk, in its order.
#[derive(Drop)]
pub(crate) struct SubchunkElements<'a> {
    subchunk: NumberedSubchunk<'a>,
    bytes: ArrayBytes,
}

/// New elements for the places of an array of this shape that are asked for, one for each place.
#[derive(Drop)]
pub struct AskedElements<'a> {
    pub shape: &'a [u64],
    pub indexer: Indexer<'a>,
    pub bytes: ArrayBytes,
}

impl<I: ArrayToBytesCodecTraits, X: ArrayToBytesCodecTraits> ShardingCodec<I, X> {
    ghost use Rattle.std.specs.Prelude.{◌≡◌, ◌<◌, ◌≤◌, ◌+◌, ◌^◌, List, Some, true, length, get_or, nat_lt, unwrap_or, [], IsTrue, IfOk};
    ghost use Rattle.std.specs.List.{list_all};
    ghost use Rattle.zarr_codecs_arrays.specs.Views.{elements_of};
    ghost use Rattle.zarr_codecs_meaning.specs.Encoding.{absent_pair};
    ghost use Rattle.zarr_codecs_meaning.specs.Fits.{fits};
    ghost use Rattle.zarr_codecs_meaning.specs.Places.{parts_of};
    ghost use Rattle.zarr_codecs_traits.specs.Indexers.{are_inside, asked_of};
    ghost use Rattle.zarr_codecs_traits.specs.ReadBytes.{slice_length};
    ghost use Rattle.zarr_codecs_traits.specs.Sources.{refused_after};
    ghost use Rattle.zarr_grids_boxes.specs.Boxes.{product};
    ghost use Rattle.zarr_sharding_codec.specs.BytesMet.{bytes_met};
    ghost use Rattle.zarr_sharding_codec.specs.Reading.{ListsRead};
    ghost use Rattle.zarr_sharding_codec.specs.Updating.{IsKnownOf, PutsAsked, PutsGroup, PutsNumbered, ReplacesSubchunk, number_of, numbers_given, stored_of, total_of};
    ghost use Rattle.zarr_sharding_codec.specs.Views.{inner_of, shard_chain, subchunk_of};
    ghost use Rattle.zarr_sharding_places.specs.Pieces.{piece_decoded};
    ghost use Rattle.zarr_sharding_index.specs.Known.{pairs_in};
    ghost use Rattle.zarr_sharding_index.specs.SliceChanges.{is_below};

    /// The new slices of the subchunks that the places lie in that are asked for, as
    /// `update_slices` makes them. Where the places are one whole subchunk, its elements take the
    /// place of the old ones as they are. Errors as those of `update_slices`.
    pub fn update_asked<D: BytesPartialDecoderTraits>(
        &self,
        alloc: Global,
        source: &mut D,
        shard: ShardInSource<'_>,
        given: AskedElements<'_>,
    ) -> Result<Vec<SliceChange>, CodecError>
        requires fit { fits (shard_chain I.meaning X.meaning self.now)
            (elements_of shard.elements.now).type given.shape.now ≡ true }
        requires many { length (pairs_in shard.known.now)
            ≡ length (parts_of given.shape.now (subchunk_of self.now)) }
        requires inside { are_inside given.shape.now (asked_of given.indexer) ≡ true }
        requires small { product given.shape.now < 2 ^ 63 }
        ensures changes { IsTrue (D.is_honest source.old)
            → IsKnownOf shard.entry (D.contents source.old)
            → PutsAsked (stored_of I.ArrayToBytesCodecTraits self.now shard.entry
            (D.contents source.old)) (subchunk_of self.now) given.entry result }
        ensures below { IfOk result (λ changes. list_all
            (is_below (length (pairs_in shard.entry.known.now))) changes.items ≡ true) }
        ensures refused { D.refused_calls source.new ≡
            refused_after (D.refused_calls source.old) result }
        ensures given { IsTrue (D.is_honest source.old) → D.given_bytes source.new
            ≤ D.given_bytes source.old + bytes_met given.entry.shape.now (subchunk_of self.now)
            (numbers_given given.entry) (pairs_in shard.entry.known.now) (total_of shard.entry) }
        ensures follows { D.follows source.old source.new }
    {
        match self.whole_subchunk(given.shape, given.indexer) {
            Some(subchunk) => {
                let bytes = given.bytes;
                let whole = SubchunkElements { subchunk, bytes };
                match self.replace_subchunk(alloc, source, shard, whole) {
                    Ok(change) => Ok(one_change(alloc, change)?),
                    Err(error) => Err(error),
                }
            }
            None => {
                let shape = given.shape;
                let indexer = given.indexer;
                let bytes = &given.bytes;
                match indexer {
                    Indexer::Subset(region) => {
                        let boxed = BoxElements {
                            shape,
                            region,
                            bytes,
                        };
                        self.update_box(alloc, source, shard, boxed)
                    }
                    Indexer::List(numbers) => {
                        let listed = NumberedElements {
                            shape,
                            numbers,
                            bytes,
                        };
                        self.update_slices(alloc, source, shard, listed)
                    }
                }
            }
        }
    }

    /// The new slices of the subchunks that places lie in: each of these is decoded, changed, and
    /// encoded anew and whole; one of fill alone gets no slice. Nothing is written. `Damage` where
    /// one isn't decoded; `Codec` where a caller's codec refuses; `Size` where an offset, a length
    /// or a subchunk is too large; `Source` where the source refuses.
    pub fn update_slices<D: BytesPartialDecoderTraits>(
        &self,
        alloc: Global,
        source: &mut D,
        shard: ShardInSource<'_>,
        given: NumberedElements<'_>,
    ) -> Result<Vec<SliceChange>, CodecError>
        requires fit { fits (shard_chain I.meaning X.meaning self.now)
            (elements_of shard.elements.now).type given.shape.now ≡ true }
        requires many { length (pairs_in shard.known.now)
            ≡ length (parts_of given.shape.now (subchunk_of self.now)) }
        requires below { list_all (λ n. nat_lt n (product given.shape.now)) given.numbers.now
            ≡ true }
        ensures changes { IsTrue (D.is_honest source.old)
            → IsKnownOf shard.entry (D.contents source.old)
            → PutsNumbered (stored_of I.ArrayToBytesCodecTraits self.now shard.entry
            (D.contents source.old)) (subchunk_of self.now) given.entry result }
        ensures below { IfOk result (λ changes. list_all
            (is_below (length (pairs_in shard.entry.known.now))) changes.items ≡ true) }
        ensures refused { D.refused_calls source.new ≡
            refused_after (D.refused_calls source.old) result }
        ensures given { IsTrue (D.is_honest source.old) → D.given_bytes source.new
            ≤ D.given_bytes source.old + bytes_met given.entry.shape.now (subchunk_of self.now)
            given.entry.numbers.now (pairs_in shard.entry.known.now) (total_of shard.entry) }
        ensures follows { D.follows source.old source.new }
    {
        let shape = given.shape;
        let numbers = given.numbers;
        let places = self.places_of(alloc, NumberedPlaces { shape, numbers })?;
        let mut changes = Vec::new(alloc);
        let mut rest = places.as_slice();
        while rest.len() > 0 {
            let (group, others) = leading_group(rest);
            let lengths = part_shape(alloc, shape, &self.subchunk_shape, group[0].subchunk)?;
            let edges = lengths.as_slice();
            let part = GroupElements {
                bytes: given.bytes,
                group,
                shape: edges,
            };
            match self.update_group(alloc, source, shard, part) {
                Ok(change) => changes.push(change)?,
                Err(error) => return Err(error),
            }
            rest = others;
        }
        Ok(changes)
    }

    /// The new slice of the subchunk that places lie in. There is a place.
    fn update_group<D: BytesPartialDecoderTraits>(
        &self,
        alloc: Global,
        source: &mut D,
        shard: ShardInSource<'_>,
        given: GroupElements<'_>,
    ) -> Result<SliceChange, CodecError>
        requires fit { fits (I.meaning (inner_of self.now)) (elements_of shard.elements.now).type
            given.shape.now ≡ true }
        requires some { 0 < length given.group.now }
        requires pair { number_of given.group.now < length (pairs_in shard.known.now) }
        ensures change { IsTrue (D.is_honest source.old)
            → IsKnownOf shard.entry (D.contents source.old)
            → PutsGroup (stored_of I.ArrayToBytesCodecTraits self.now shard.entry
            (D.contents source.old)) given.entry result }
        ensures number { IfOk result
            (λ change. change.number ≡ number_of given.entry.group.now) }
        ensures refused { D.refused_calls source.new ≡
            refused_after (D.refused_calls source.old) result }
        ensures given { IsTrue (D.is_honest source.old) → D.given_bytes source.new
            ≤ D.given_bytes source.old + slice_length (total_of shard.entry)
            (get_or (pairs_in shard.entry.known.now) (number_of given.entry.group.now)
            absent_pair) }
        ensures follows { D.follows source.old source.new }
    {
        let number = given.group[0].subchunk as usize;
        let elements = shard.elements;
        let shape = given.shape;
        let subchunk = NumberedSubchunk { number, shape };
        match self.read_subchunk(alloc, source, shard, subchunk) {
            Ok(piece) => {
                let updated = put_given(alloc, piece, shape, given.group, given.bytes, elements)?;
                match store_piece(alloc, &self.inner_codecs, updated, elements, shape) {
                    Ok(slice) => Ok(SliceChange { number, slice }),
                    Err(error) => Err(error),
                }
            }
            Err(error) => Err(error),
        }
    }

    /// The new slice of a subchunk all of whose elements are given; the old one is decoded all the
    /// same.
    fn replace_subchunk<D: BytesPartialDecoderTraits>(
        &self,
        alloc: Global,
        source: &mut D,
        shard: ShardInSource<'_>,
        given: SubchunkElements<'_>,
    ) -> Result<SliceChange, CodecError>
        requires fit { fits (I.meaning (inner_of self.now)) (elements_of shard.elements.now).type
            given.subchunk.shape.now ≡ true }
        requires pair { given.subchunk.number < length (pairs_in shard.known.now) }
        ensures change { IsTrue (D.is_honest source.old)
            → IsKnownOf shard.entry (D.contents source.old)
            → ReplacesSubchunk (stored_of I.ArrayToBytesCodecTraits self.now shard.entry
            (D.contents source.old)) given.entry result }
        ensures number { IfOk result (λ change. change.number ≡ given.entry.subchunk.number) }
        ensures refused { D.refused_calls source.new ≡
            refused_after (D.refused_calls source.old) result }
        ensures given { IsTrue (D.is_honest source.old) → D.given_bytes source.new
            ≤ D.given_bytes source.old + slice_length (total_of shard.entry)
            (get_or (pairs_in shard.entry.known.now) given.entry.subchunk.number absent_pair) }
        ensures follows { D.follows source.old source.new }
    {
        let subchunk = given.subchunk;
        let number = subchunk.number;
        let elements = shard.elements;
        match self.read_subchunk(alloc, source, shard, subchunk) {
            Ok(_old) => {
                match store_piece(
                    alloc,
                    &self.inner_codecs,
                    given.bytes,
                    elements,
                    subchunk.shape,
                ) {
                    Ok(slice) => Ok(SliceChange { number, slice }),
                    Err(error) => Err(error),
                }
            }
            Err(error) => Err(error),
        }
    }

    /// The elements of a subchunk of this number and shape: fill values where it is absent.
    /// `Damage` where its slice is not one of the inner codecs', and `Source` where the source
    /// refuses.
    pub fn read_subchunk<D: BytesPartialDecoderTraits>(
        &self,
        alloc: Global,
        source: &mut D,
        shard: ShardInSource<'_>,
        subchunk: NumberedSubchunk<'_>,
    ) -> Result<ArrayBytes, CodecError>
        requires fit { fits (I.meaning (inner_of self.now)) (elements_of shard.elements.now).type
            subchunk.shape.now ≡ true }
        requires below { subchunk.number < length (pairs_in shard.known.now) }
        ensures elements { IsTrue (D.is_honest source.old)
            → IsKnownOf shard.entry (D.contents source.old)
            → ListsRead (elements_of shard.entry.elements.now) subchunk.entry.shape.now
            (piece_decoded (I.meaning (inner_of self.now)) (elements_of shard.entry.elements.now)
            (unwrap_or (D.contents source.old) []) subchunk.entry.shape.now
            (get_or (pairs_in shard.entry.known.now) subchunk.entry.number absent_pair)) result }
        ensures refused { D.refused_calls source.new ≡
            refused_after (D.refused_calls source.old) result }
        ensures given { IsTrue (D.is_honest source.old) → D.given_bytes source.new
            ≤ D.given_bytes source.old + slice_length (total_of shard.entry)
            (get_or (pairs_in shard.entry.known.now) subchunk.entry.number absent_pair) }
        ensures follows { D.follows source.old source.new }
    {
        let shape = subchunk.shape;
        let known = shard.known;
        match known.retrieve_subchunk_encoded(alloc, source, subchunk.number) {
            Ok(Some(slice)) => {
                self.inner_codecs
                    .decode_in_order(alloc, slice, shard.elements, shape)
            }
            Ok(None) => fill_piece(alloc, shard.elements, shape),
            Err(error) => Err(error),
        }
    }
}

/// One change alone.
fn one_change(alloc: Global, change: SliceChange) -> Result<Vec<SliceChange>, AllocError>
    ensures { IfOk result (λ changes. changes.items ≡ change ∷ []) }
{
    let mut changes = Vec::with_capacity(alloc, 1)?;
    changes.push(change)?;
    Ok(changes)
}

/// The elements of a subchunk of this shape after those for places in it were put, as they stand
/// among all new ones. `Err` where an allocation failed, and where these are no elements of the
/// subchunk, or no places of it or of the new ones.
fn put_given(
    alloc: Global,
    piece: ArrayBytes,
    edges: &[u64],
    group: &[AskedPlace],
    given: &ArrayBytes,
    elements: &Elements,
) -> Result<ArrayBytes, AllocError>
    ensures { (before cells : List Cell) → IsCounted (elements_of elements.now).type
        (payload_of piece) (product edges.now) before
        → cells_in (elements_of elements.now).type (payload_of given.now) ≡ Some cells
        → list_all (λ n. nat_lt n (length cells)) (positions group.now) ≡ true
        → list_all (λ n. nat_lt n (product edges.now)) (insides group.now) ≡ true
        → IfOk result (λ made. cells_in (elements_of elements.now).type (payload_of made)
        ≡ Some (group_put (elements_of elements.now).fill group.now cells before)) }
{
    let at = positions_of(alloc, group)?;
    let new = gather_elements(alloc, given, elements, at.as_slice())?;
    let inside = insides_of(alloc, group)?;
    let indexer = Indexer::List(inside.as_slice());
    match update_array_bytes(alloc, piece, edges, indexer, &new, elements.data_type()) {
        Ok(updated) => Ok(updated),
        Err(_) => Err(AllocError),
    }
}
