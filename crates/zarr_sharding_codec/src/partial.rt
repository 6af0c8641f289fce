//! Parts of an array, read from parts of its shard.
ghost use Rattle.std.specs.Prelude.{◌≡◌, ◌<◌, List, length, map, Some, true, IfOk};
ghost use Rattle.zarr_codecs_arrays.specs.Views.{elements_of, payload_of};
ghost use Rattle.zarr_codecs_meaning.specs.Payloads.{cells_in};
ghost use Rattle.zarr_codecs_meaning.specs.Places.{place_numbers};
ghost use Rattle.zarr_codecs_meaning.specs.Types.{Cell};
ghost use Rattle.zarr_codecs_regions.specs.Updates.{put};
ghost use Rattle.zarr_codecs_traits.specs.Indexers.{are_inside, asked_of, numbers_asked};
ghost use Rattle.zarr_grids_boxes.specs.Boxes.{product};
ghost use Rattle.zarr_sharding_places.specs.Placed.{Shows};

use crate::box_reading::IndexedPlaces;
use crate::codec::ShardingCodec;
use crate::subchunks::part_shape;
use crate::whole_subchunk::are_equal;
use std::alloc::{AllocError, Global};
use zarr_codecs_arrays::{ArrayBytes, CodecError, Elements};
use zarr_codecs_regions::fill_asked;
use zarr_codecs_traits::{
    ArrayPart, ArrayToBytesCodecTraits, BytesPartialDecoderTraits, Indexer, MemorySource,
    WholeArray,
};
use zarr_grids_boxes::walk::count_places;
use zarr_sharding_index::fetched_index::{fetch_index, fetch_slice};
use zarr_sharding_index::pair::is_absent;
use zarr_sharding_index::shapes::{grid_of, index_shape};
use zarr_sharding_index::{FetchedIndex, IndexLayout, PresentPairs};
use zarr_sharding_places::{
    AskedPlace, PlacedElements, insides_of, leading_group, places_by_subchunk, positions_of,
};

/// A shard whose index is known: the pairs of it, how many bytes the shard has with it, and what
/// its elements are.
#[derive(Clone, Copy)]
pub struct OpenedShard<'a> {
    pub pairs: &'a PresentPairs,
    pub total: u64,
    pub elements: &'a Elements,
}

/// The row-major numbers of places in an array of this shape.
#[derive(Clone, Copy)]
pub struct NumberedPlaces<'a> {
    pub shape: &'a [u64],
    pub numbers: &'a [u64],
}

/// Places of one subchunk, and that subchunk's number and shape.
#[derive(Clone, Copy)]
struct GroupPlaces<'a> {
    number: u64,
    shape: &'a [u64],
    group: &'a [AskedPlace],
}

impl<I: ArrayToBytesCodecTraits, X: ArrayToBytesCodecTraits> ShardingCodec<I, X> {
    ghost use Rattle.std.specs.Prelude.{◌≡◌, ◌<◌, ◌≤◌, ◌+◌, ◌^◌, ℕ, List, [], Some, true, length, get_or, map, nat_lt, unwrap_or, IsTrue, IfOk};
    ghost use Rattle.std.specs.List.{list_all};
    ghost use Rattle.std.specs.List.Sorted.{IsNonDecreasingBy, IsPermutation};
    ghost use Rattle.zarr_codecs_arrays.specs.Views.{elements_of};
    ghost use Rattle.zarr_codecs_meaning.specs.Encoding.{absent_pair, index_size};
    ghost use Rattle.zarr_codecs_meaning.specs.Fits.{fits};
    ghost use Rattle.zarr_codecs_meaning.specs.Places.{grid_of, index_shape, parts_of, place_numbers};
    ghost use Rattle.zarr_codecs_traits.specs.Indexers.{are_inside, asked_of, numbers_asked};
    ghost use Rattle.zarr_codecs_traits.specs.Arrays.{coded, coded_part};
    ghost use Rattle.zarr_codecs_traits.specs.Outcomes.{DecodesPart};
    ghost use Rattle.zarr_codecs_traits.specs.ReadBytes.{most_read, slice_length};
    ghost use Rattle.zarr_codecs_traits.specs.Sources.{refused_after, value_length};
    ghost use Rattle.zarr_grids_boxes.specs.Boxes.{product};
    ghost use Rattle.zarr_sharding_codec.specs.BytesMet.{bytes_met};
    ghost use Rattle.zarr_sharding_codec.specs.Reading.{HasPairs, IsTotalOf, Lists, ListsRead, places_decoded, shard_cells, slice_cells, subchunks_of};
    ghost use Rattle.zarr_sharding_codec.specs.Views.{index_of, inner_of, place_of_index, shard_chain, subchunk_of};
    ghost use Rattle.zarr_sharding_index.specs.HeldIndex.{FetchesIndex};
    ghost use Rattle.zarr_sharding_index.specs.Stored.{index_fits};
    ghost use Rattle.zarr_sharding_index.specs.Present.{all_pairs};
    ghost use Rattle.zarr_sharding_places.specs.Groups.{places_in};
    ghost use Rattle.zarr_sharding_places.specs.Locating.{asked_places};

    /// The elements at the places that are asked for, which are the array's, of the shard that a
    /// source holds; its index has so many bytes. Errors as those of `partial_decode`.
    #[tactic(auto, using(crate::proofs::MostTaken::index_taken))]
    pub(crate) fn read_part<D: BytesPartialDecoderTraits>(
        &self,
        alloc: Global,
        source: &mut D,
        size: u64,
        part: ArrayPart<'_>,
    ) -> Result<ArrayBytes, CodecError>
        requires fit { fits (shard_chain I.meaning X.meaning self.now)
            (elements_of part.elements.now).type part.shape.now ≡ true }
        requires size { size ≡ index_size (X.meaning (index_of self.now))
            (index_shape part.shape.now (subchunk_of self.now)) }
        requires inside { are_inside part.shape.now (asked_of part.indexer) ≡ true }
        requires small { product part.shape.now < 2 ^ 63 }
        ensures part { IsTrue (D.is_honest source.old) → DecodesPart
            (coded_part (shard_chain I.meaning X.meaning self.now) part.entry)
            (D.contents source.old) (asked_of part.entry.indexer) result }
        ensures refused { D.refused_calls source.new ≡
            refused_after (D.refused_calls source.old) result }
        ensures given { IsTrue (D.is_honest source.old) → D.given_bytes source.new
            ≤ D.given_bytes source.old + most_read (shard_chain I.meaning X.meaning self.now)
            (elements_of part.entry.elements.now).type part.entry.shape.now
            (D.contents source.old) (asked_of part.entry.indexer) }
        ensures follows { D.follows source.old source.new }
    {
        match self.open_index(alloc, source, size, part.shape) {
            Ok(Some(fetched)) => {
                let shard = OpenedShard {
                    pairs: &fetched.pairs,
                    total: fetched.total,
                    elements: part.elements,
                };
                let asked = IndexedPlaces {
                    shape: part.shape,
                    indexer: part.indexer,
                };
                self.read_asked(alloc, source, shard, asked)
            }
            Ok(None) => fill_asked(alloc, part),
            Err(error) => Err(error),
        }
    }

    /// The index of the shard of an array of this shape that a source holds, with a pair for each
    /// subchunk, or `None` where it holds none; the index has so many bytes. Errors as those of
    /// `fetch_index`.
    pub fn open_index<D: BytesPartialDecoderTraits>(
        &self,
        alloc: Global,
        source: &mut D,
        size: u64,
        shape: &[u64],
    ) -> Result<Option<FetchedIndex>, CodecError>
        requires rank { length shape.now ≡ length (subchunk_of self.now) }
        requires fit { index_fits (X.meaning (index_of self.now))
            (index_shape shape.now (subchunk_of self.now)) ≡ true }
        requires size { size ≡ index_size (X.meaning (index_of self.now))
            (index_shape shape.now (subchunk_of self.now)) }
        ensures index { IsTrue (D.is_honest source.old) → FetchesIndex
            (X.meaning (index_of self.now)) (place_of_index self.now)
            (index_shape shape.now (subchunk_of self.now)) (D.contents source.old) result }
        ensures many { IfOk result (HasPairs (product (grid_of shape.now (subchunk_of self.now)))) }
        ensures refused { D.refused_calls source.new ≡
            refused_after (D.refused_calls source.old) result }
        ensures given { IsTrue (D.is_honest source.old) →
            D.given_bytes source.new ≤ D.given_bytes source.old + size }
        ensures within { IsTrue (D.is_honest source.old) → D.given_bytes source.new
            ≤ D.given_bytes source.old + value_length (D.contents source.old) }
        ensures follows { D.follows source.old source.new }
    {
        let grid = grid_of(alloc, shape, &self.subchunk_shape)?;
        let Some(count) = count_places(grid.as_slice()) else {
            return Err(CodecError::Memory);
        };
        let pairs_shape = index_shape(alloc, shape, &self.subchunk_shape)?;
        let layout = IndexLayout {
            location: self.index_location,
            shape: pairs_shape.as_slice(),
            size,
        };
        match fetch_index(alloc, &self.index_codecs, source, layout) {
            Ok(Some(found)) => if found.pairs.len() as u64 == count {
                Ok(Some(found))
            } else {
                Err(CodecError::Memory)
            },
            Ok(None) => Ok(None),
            Err(error) => Err(error),
        }
    }

    /// The elements at places of the array of the shard that a source holds: of it each slice that
    /// they lie in is fetched, once, and nothing else. `Damage` where the pair of one of these ends
    /// past the end of the value, or a place of it cannot be decoded.
    pub fn read_numbers<D: BytesPartialDecoderTraits>(
        &self,
        alloc: Global,
        source: &mut D,
        shard: OpenedShard<'_>,
        asked: NumberedPlaces<'_>,
    ) -> Result<ArrayBytes, CodecError>
        requires fit { fits (shard_chain I.meaning X.meaning self.now)
            (elements_of shard.elements.now).type asked.shape.now ≡ true }
        requires many { length (all_pairs shard.pairs.now)
            ≡ length (parts_of asked.shape.now (subchunk_of self.now)) }
        requires below { list_all (λ n. nat_lt n (product asked.shape.now))
            asked.numbers.now ≡ true }
        ensures part { IsTrue (D.is_honest source.old) → IsTotalOf (D.contents source.old)
            (all_pairs shard.entry.pairs.now) shard.entry.total
            → ListsRead (elements_of shard.entry.elements.now) asked.entry.shape.now
            (shard_cells (subchunks_of (I.meaning (inner_of self.now))
            (elements_of shard.entry.elements.now) asked.entry.shape.now (subchunk_of self.now))
            (unwrap_or (D.contents source.old) []) (all_pairs shard.entry.pairs.now)
            asked.entry.numbers.now) result }
        ensures refused { D.refused_calls source.new ≡
            refused_after (D.refused_calls source.old) result }
        ensures given { IsTrue (D.is_honest source.old) → D.given_bytes source.new
            ≤ D.given_bytes source.old + bytes_met asked.entry.shape.now (subchunk_of self.now)
            asked.entry.numbers.now (all_pairs shard.entry.pairs.now) shard.entry.total }
        ensures follows { D.follows source.old source.new }
    {
        let places = self.places_of(alloc, asked)?;
        let filled = PlacedElements::new_fill_value(alloc, asked.numbers.len(), shard.elements)?;
        let mut all = filled;
        let mut rest = places.as_slice();
        while rest.len() > 0 {
            let (group, others) = leading_group(rest);
            let number = group[0].subchunk;
            let edges = part_shape(alloc, asked.shape, &self.subchunk_shape, number)?;
            let shape = edges.as_slice();
            let part = GroupPlaces {
                number,
                shape,
                group,
            };
            match self.read_group(alloc, source, shard, part) {
                Ok(piece) => all = put_group(alloc, all, group, &piece, shard.elements)?,
                Err(error) => return Err(error),
            }
            rest = others;
        }
        Ok(all.gather(alloc, shard.elements)?)
    }

    /// The places with these numbers, subchunk by subchunk, those of one subchunk in their order.
    pub(crate) fn places_of(
        &self,
        alloc: Global,
        asked: NumberedPlaces<'_>,
    ) -> Result<Vec<AskedPlace>, AllocError>
        requires { length asked.shape.now ≡ length (subchunk_of self.now) }
        ensures all { IfOk result (λ places. IsPermutation (asked_places asked.entry.shape.now
            (subchunk_of self.now) asked.entry.numbers.now) places.items) }
        ensures sorted { IfOk result
            (λ places. IsNonDecreasingBy (λ place. place.subchunk) places.items) }
        ensures stable { IfOk result (λ places. (k : ℕ) → places_in k places.items
            ≡ places_in k (asked_places asked.entry.shape.now (subchunk_of self.now)
            asked.entry.numbers.now)) }
    {
        let edges = self.subchunk_shape.as_slice();
        let grid = grid_of(alloc, asked.shape, &self.subchunk_shape)?;
        places_by_subchunk(alloc, asked.numbers, asked.shape, edges, grid.as_slice())
    }

    /// The elements at places of one subchunk of the shard that a source holds: fill values where
    /// the subchunk is absent, else those of its slice. There is a place.
    fn read_group<D: BytesPartialDecoderTraits>(
        &self,
        alloc: Global,
        source: &mut D,
        shard: OpenedShard<'_>,
        part: GroupPlaces<'_>,
    ) -> Result<ArrayBytes, CodecError>
        requires fit { fits (I.meaning (inner_of self.now)) (elements_of shard.elements.now).type
            part.shape.now ≡ true }
        requires some { 0 < length part.group.now }
        requires pair { part.number < length (all_pairs shard.pairs.now) }
        requires inside { list_all (λ n. nat_lt n (product part.shape.now))
            (map (λ place. place.inside) part.group.now) ≡ true }
        ensures part { IsTrue (D.is_honest source.old) → IsTotalOf (D.contents source.old)
            (all_pairs shard.entry.pairs.now) shard.entry.total
            → ListsRead (elements_of shard.entry.elements.now) part.entry.shape.now
            (places_decoded (coded (I.meaning (inner_of self.now))
            (elements_of shard.entry.elements.now) part.entry.shape.now)
            (unwrap_or (D.contents source.old) [])
            (get_or (all_pairs shard.entry.pairs.now) part.entry.number absent_pair)
            (map (λ place. place.inside) part.entry.group.now)) result }
        ensures refused { D.refused_calls source.new ≡
            refused_after (D.refused_calls source.old) result }
        ensures given { IsTrue (D.is_honest source.old) → D.given_bytes source.new
            ≤ D.given_bytes source.old + slice_length shard.entry.total
            (get_or (all_pairs shard.entry.pairs.now) part.entry.number absent_pair) }
        ensures follows { D.follows source.old source.new }
    {
        let elements = shard.elements;
        let group = part.group;
        let pair = shard.pairs.get(part.number as usize);
        if is_absent(pair) {
            return Ok(ArrayBytes::fill_values(alloc, elements, group.len())?);
        }
        match fetch_slice(alloc, source, shard.total, pair) {
            Ok(slice) => {
                let insides = insides_of(alloc, group)?;
                let indexer = Indexer::List(insides.as_slice());
                self.read_slice(alloc, slice, indexer, part.shape, elements)
            }
            Err(error) => Err(error),
        }
    }

    /// The elements at places of the subchunk of this shape that a slice holds. `Damage` where one
    /// of them cannot be decoded. There is a place.
    pub(crate) fn read_slice<'a>(
        &self,
        alloc: Global,
        slice: Vec<u8>,
        indexer: Indexer<'a>,
        shape: &'a [u64],
        elements: &'a Elements,
    ) -> Result<ArrayBytes, CodecError>
        requires fit { fits (I.meaning (inner_of self.now)) (elements_of elements.now).type
            shape.now ≡ true }
        requires some { 0 < length (numbers_asked shape.now (asked_of indexer)) }
        requires inside { are_inside shape.now (asked_of indexer) ≡ true }
        ensures part { Lists (elements_of elements.now) shape.now (slice_cells
            (I.meaning (inner_of self.now)) (elements_of elements.now) shape.now slice.items
            (numbers_asked shape.now (asked_of indexer.entry))) result }
        ensures no_source { (count : ℕ) → refused_after count result ≡ count }
    {
        if asks_all(shape, indexer) {
            return self.decode_slice(alloc, slice, WholeArray { elements, shape });
        }
        let mut source = MemorySource::new(Some(slice));
        let part = ArrayPart {
            elements,
            shape,
            indexer,
        };
        self.inner_codecs
            .partial_decode_in_order(alloc, &mut source, part)
    }

    /// The elements of the subchunk that a slice holds, all of them. `Damage` where one of them
    /// cannot be decoded. There is a place.
    pub(crate) fn decode_slice(
        &self,
        alloc: Global,
        slice: Vec<u8>,
        array: WholeArray<'_>,
    ) -> Result<ArrayBytes, CodecError>
        requires fit { fits (I.meaning (inner_of self.now)) (elements_of array.elements.now).type
            array.shape.now ≡ true }
        requires some { 0 < product array.shape.now }
        ensures part { Lists (elements_of array.entry.elements.now) array.entry.shape.now
            (slice_cells (I.meaning (inner_of self.now)) (elements_of array.entry.elements.now)
            array.entry.shape.now slice.items (place_numbers array.entry.shape.now)) result }
        ensures no_source { (count : ℕ) → refused_after count result ≡ count }
    {
        if self.is_as_is(slice.as_slice(), array) {
            return Ok(ArrayBytes::Fixed(slice));
        }
        self.inner_codecs
            .decode_in_order(alloc, slice, array.elements, array.shape)
    }
}

/// Whether the places that are asked for, which are the array's, are told to be all of them, in
/// their order, and there is one. Of places that are listed it isn't told.
fn asks_all(shape: &[u64], indexer: Indexer<'_>) -> bool
    requires some { 0 < length (numbers_asked shape.now (asked_of indexer)) }
    requires inside { are_inside shape.now (asked_of indexer) ≡ true }
    ensures { result ≡ true →
        numbers_asked shape.now (asked_of indexer.entry) ≡ place_numbers shape.now }
{
    match indexer {
        Indexer::Subset(region) => are_equal(region.shape(), shape),
        Indexer::List(_numbers) => false,
    }
}

/// The elements after those of places of one subchunk were put where these places stand. `Err` only
/// where an allocation failed, or one of the places stands past the end.
fn put_group(
    alloc: Global,
    all: PlacedElements,
    group: &[AskedPlace],
    piece: &ArrayBytes,
    elements: &Elements,
) -> Result<PlacedElements, AllocError>
    ensures { (before others : List Cell) → Shows (elements_of elements.now) all before
        → cells_in (elements_of elements.now).type (payload_of piece.now) ≡ Some others
        → length others ≡ length (map (λ place. place.position) group.now) → IfOk result
        (λ made. Shows (elements_of elements.now) made
        (put (map (λ place. place.position) group.now) others before)) }
{
    let at = positions_of(alloc, group)?;
    all.put(alloc, at.as_slice(), piece, elements)
}
