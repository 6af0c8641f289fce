//! Boxes of an array, read from its shard.
ghost use Rattle.std.specs.Prelude.{◌≡◌, ◌/◌, ◌%◌, ◌++◌, OnOk};
ghost use Rattle.zarr_codecs_meaning.specs.Places.{box_of};
ghost use Rattle.zarr_grids_boxes.specs.Boxes.{each2};

use crate::codec::ShardingCodec;
use crate::decoding::fill_piece;
use crate::partial::{NumberedPlaces, OpenedShard};
use crate::subchunks::{CutArray, subchunk_number, subchunk_region};
use crate::updating::NumberedSubchunk;
use std::alloc::{AllocError, Global};
use zarr_codecs_arrays::{ArrayBytes, CodecError};
use zarr_codecs_regions::{count_elements, is_inside, numbers_asked};
use zarr_codecs_traits::{ArrayToBytesCodecTraits, BytesPartialDecoderTraits, Indexer, WholeArray};
use zarr_grids_boxes::ArraySubset;
use zarr_grids_boxes::walk::count_places;
use zarr_sharding_index::fetched_index::fetch_slice;
use zarr_sharding_index::pair::is_absent;
use zarr_sharding_index::shapes::grid_of;
use zarr_sharding_places::BoxedElements;

/// The places that an indexer asks for, of an array of this shape.
#[derive(Clone, Copy)]
pub struct IndexedPlaces<'a> {
    pub shape: &'a [u64],
    pub indexer: Indexer<'a>,
}

/// A box in an array of this shape.
#[derive(Clone, Copy)]
pub(crate) struct AskedBox<'a> {
    pub shape: &'a [u64],
    pub region: &'a ArraySubset,
}

/// A box of the places of a subchunk, and the subchunk's number and shape.
#[derive(Debug, Drop)]
pub(crate) struct BoxInside {
    pub number: u64,
    pub shape: Vec<u64>,
    pub region: ArraySubset,
}

/// What of a box lies in one subchunk: as it stands there, and as it stands in the box.
#[derive(Debug, Drop)]
pub(crate) struct BoxCut {
    pub inside: BoxInside,
    pub target: ArraySubset,
}

impl<I: ArrayToBytesCodecTraits, X: ArrayToBytesCodecTraits> ShardingCodec<I, X> {
    ghost use Rattle.std.specs.Prelude.{◌≡◌, ◌<◌, ◌≤◌, ◌+◌, ◌^◌, [], true, length, get_or, unwrap_or, IsTrue, IfOk, IfSome};
    ghost use Rattle.zarr_codecs_arrays.specs.Views.{elements_of};
    ghost use Rattle.zarr_codecs_meaning.specs.Encoding.{absent_pair};
    ghost use Rattle.zarr_codecs_meaning.specs.Fits.{can_cut, fits};
    ghost use Rattle.zarr_codecs_meaning.specs.Places.{parts_of, place_numbers};
    ghost use Rattle.zarr_codecs_traits.specs.Indexers.{are_inside, asked_of, shape_has, numbers_asked, numbers_of};
    ghost use Rattle.zarr_codecs_traits.specs.ReadBytes.{slice_length};
    ghost use Rattle.zarr_codecs_traits.specs.Sources.{refused_after};
    ghost use Rattle.zarr_codecs_traits.specs.Arrays.{coded};
    ghost use Rattle.zarr_grids_boxes.specs.Boxes.{product};
    ghost use Rattle.zarr_grids_boxes.specs.Subsets.{region_of};
    ghost use Rattle.zarr_sharding_codec.specs.BoxReading.{AreMet, IsBoxInside, IsCutOut};
    ghost use Rattle.zarr_sharding_codec.specs.BytesMet.{bytes_met};
    ghost use Rattle.zarr_sharding_codec.specs.Reading.{IsTotalOf, ListsRead, places_decoded, shard_cells, subchunks_of};
    ghost use Rattle.zarr_sharding_codec.specs.Views.{inner_of, shard_chain, subchunk_of};
    ghost use Rattle.zarr_sharding_index.specs.Present.{all_pairs};

    /// The elements at the places that are asked for, which are the array's, of the shard that a
    /// source holds: of it each slice that they lie in is fetched, once, and nothing else. `Damage`
    /// where the pair of one of these ends past the end of the value, or a place of it cannot be
    /// decoded. What of a box lies in one subchunk is decoded as one box.
    pub fn read_asked<D: BytesPartialDecoderTraits>(
        &self,
        alloc: Global,
        source: &mut D,
        shard: OpenedShard<'_>,
        asked: IndexedPlaces<'_>,
    ) -> Result<ArrayBytes, CodecError>
        requires fit { fits (shard_chain I.meaning X.meaning self.now)
            (elements_of shard.elements.now).type asked.shape.now ≡ true }
        requires many { length (all_pairs shard.pairs.now)
            ≡ length (parts_of asked.shape.now (subchunk_of self.now)) }
        requires inside { are_inside asked.shape.now (asked_of asked.indexer) ≡ true }
        requires small { product asked.shape.now < 2 ^ 63 }
        ensures part { IsTrue (D.is_honest source.old) → IsTotalOf (D.contents source.old)
            (all_pairs shard.entry.pairs.now) shard.entry.total
            → ListsRead (elements_of shard.entry.elements.now) asked.entry.shape.now
            (shard_cells (subchunks_of (I.meaning (inner_of self.now))
            (elements_of shard.entry.elements.now) asked.entry.shape.now (subchunk_of self.now))
            (unwrap_or (D.contents source.old) []) (all_pairs shard.entry.pairs.now)
            (numbers_asked asked.entry.shape.now (asked_of asked.entry.indexer))) result }
        ensures refused { D.refused_calls source.new ≡
            refused_after (D.refused_calls source.old) result }
        ensures given { IsTrue (D.is_honest source.old) → D.given_bytes source.new
            ≤ D.given_bytes source.old + bytes_met asked.entry.shape.now (subchunk_of self.now)
            (numbers_asked asked.entry.shape.now (asked_of asked.entry.indexer))
            (all_pairs shard.entry.pairs.now) shard.entry.total }
        ensures follows { D.follows source.old source.new }
    {
        let shape = asked.shape;
        match asked.indexer {
            Indexer::Subset(region) => {
                self.read_box(alloc, source, shard, AskedBox { shape, region })
            }
            Indexer::List(numbers) => {
                let listed = NumberedPlaces { shape, numbers };
                self.read_numbers(alloc, source, shard, listed)
            }
        }
    }

    /// The elements of a box, as `read_asked` gives them.
    fn read_box<D: BytesPartialDecoderTraits>(
        &self,
        alloc: Global,
        source: &mut D,
        shard: OpenedShard<'_>,
        asked: AskedBox<'_>,
    ) -> Result<ArrayBytes, CodecError>
        requires fit { fits (shard_chain I.meaning X.meaning self.now)
            (elements_of shard.elements.now).type asked.shape.now ≡ true }
        requires many { length (all_pairs shard.pairs.now)
            ≡ length (parts_of asked.shape.now (subchunk_of self.now)) }
        requires inside { shape_has asked.shape.now (region_of asked.region.now) ≡ true }
        ensures part { IsTrue (D.is_honest source.old) → IsTotalOf (D.contents source.old)
            (all_pairs shard.entry.pairs.now) shard.entry.total
            → ListsRead (elements_of shard.entry.elements.now) asked.entry.shape.now
            (shard_cells (subchunks_of (I.meaning (inner_of self.now))
            (elements_of shard.entry.elements.now) asked.entry.shape.now (subchunk_of self.now))
            (unwrap_or (D.contents source.old) []) (all_pairs shard.entry.pairs.now)
            (numbers_of asked.entry.shape.now (region_of asked.entry.region.now))) result }
        ensures refused { D.refused_calls source.new ≡
            refused_after (D.refused_calls source.old) result }
        ensures given { IsTrue (D.is_honest source.old) → D.given_bytes source.new
            ≤ D.given_bytes source.old + bytes_met asked.entry.shape.now (subchunk_of self.now)
            (numbers_of asked.entry.shape.now (region_of asked.entry.region.now))
            (all_pairs shard.entry.pairs.now) shard.entry.total }
        ensures follows { D.follows source.old source.new }
    {
        if let Some(number) = self.subchunk_of_box(asked.shape, asked.region) {
            let found = NumberedSubchunk {
                number: number as usize,
                shape: asked.region.shape(),
            };
            return self.read_whole(alloc, source, shard, found);
        }
        match self.subchunk_around(alloc, asked.shape, asked.region)? {
            Some(found) => self.read_inside(alloc, source, shard, &found),
            None => self.read_cuts(alloc, source, shard, asked),
        }
    }

    /// The elements of a box, put together subchunk by subchunk.
    fn read_cuts<D: BytesPartialDecoderTraits>(
        &self,
        alloc: Global,
        source: &mut D,
        shard: OpenedShard<'_>,
        asked: AskedBox<'_>,
    ) -> Result<ArrayBytes, CodecError>
        requires fit { fits (shard_chain I.meaning X.meaning self.now)
            (elements_of shard.elements.now).type asked.shape.now ≡ true }
        requires many { length (all_pairs shard.pairs.now)
            ≡ length (parts_of asked.shape.now (subchunk_of self.now)) }
        requires inside { shape_has asked.shape.now (region_of asked.region.now) ≡ true }
        ensures part { IsTrue (D.is_honest source.old) → IsTotalOf (D.contents source.old)
            (all_pairs shard.entry.pairs.now) shard.entry.total
            → ListsRead (elements_of shard.entry.elements.now) asked.entry.shape.now
            (shard_cells (subchunks_of (I.meaning (inner_of self.now))
            (elements_of shard.entry.elements.now) asked.entry.shape.now (subchunk_of self.now))
            (unwrap_or (D.contents source.old) []) (all_pairs shard.entry.pairs.now)
            (numbers_of asked.entry.shape.now (region_of asked.entry.region.now))) result }
        ensures refused { D.refused_calls source.new ≡
            refused_after (D.refused_calls source.old) result }
        ensures given { IsTrue (D.is_honest source.old) → D.given_bytes source.new
            ≤ D.given_bytes source.old + bytes_met asked.entry.shape.now (subchunk_of self.now)
            (numbers_of asked.entry.shape.now (region_of asked.entry.region.now))
            (all_pairs shard.entry.pairs.now) shard.entry.total }
        ensures follows { D.follows source.old source.new }
    {
        let lengths = asked.region.shape();
        let Some(count) = count_elements(lengths, shard.elements) else {
            return Err(CodecError::Size);
        };
        let found = self.subchunks_met(alloc, asked.shape, asked.region)?;
        let met = found.as_slice();
        let array = WholeArray {
            elements: shard.elements,
            shape: lengths,
        };
        let filled = BoxedElements::new_fill_value(alloc, count as usize, shard.elements)?;
        let mut all = filled;
        for j in 0..met.len() {
            let cut = self.cut_at(alloc, asked.shape, asked.region, met[j])?;
            match self.read_inside(alloc, source, shard, &cut.inside) {
                Ok(piece) => all = all.put(alloc, array, &cut.target, &piece)?,
                Err(error) => return Err(error),
            }
        }
        Ok(all.into_bytes(alloc, shard.elements)?)
    }

    /// The elements of a box of a subchunk of the shard that a source holds: fill values where the
    /// subchunk is absent, else those of its slice. There is a place.
    fn read_inside<D: BytesPartialDecoderTraits>(
        &self,
        alloc: Global,
        source: &mut D,
        shard: OpenedShard<'_>,
        found: &BoxInside,
    ) -> Result<ArrayBytes, CodecError>
        requires fit { fits (I.meaning (inner_of self.now)) (elements_of shard.elements.now).type
            found.now.shape.items ≡ true }
        requires pair { found.now.number < length (all_pairs shard.pairs.now) }
        requires inside { shape_has found.now.shape.items (region_of found.now.region) ≡ true }
        requires some { 0 < product (region_of found.now.region).shape }
        ensures part { IsTrue (D.is_honest source.old) → IsTotalOf (D.contents source.old)
            (all_pairs shard.entry.pairs.now) shard.entry.total
            → ListsRead (elements_of shard.entry.elements.now) found.now.shape.items
            (places_decoded (coded (I.meaning (inner_of self.now))
            (elements_of shard.entry.elements.now) found.now.shape.items)
            (unwrap_or (D.contents source.old) [])
            (get_or (all_pairs shard.entry.pairs.now) found.now.number absent_pair)
            (numbers_of found.now.shape.items (region_of found.now.region))) result }
        ensures refused { D.refused_calls source.new ≡
            refused_after (D.refused_calls source.old) result }
        ensures given { IsTrue (D.is_honest source.old) → D.given_bytes source.new
            ≤ D.given_bytes source.old + slice_length shard.entry.total
            (get_or (all_pairs shard.entry.pairs.now) found.now.number absent_pair) }
        ensures follows { D.follows source.old source.new }
    {
        let pair = shard.pairs.get(found.number as usize);
        let region = &found.region;
        if is_absent(pair) {
            return fill_piece(alloc, shard.elements, region.shape());
        }
        match fetch_slice(alloc, source, shard.total, pair) {
            Ok(slice) => {
                let shape = found.shape.as_slice();
                let indexer = Indexer::Subset(region);
                self.read_slice(alloc, slice, indexer, shape, shard.elements)
            }
            Err(error) => Err(error),
        }
    }

    /// The elements of one subchunk of the shard that a source holds, all of them: fill values
    /// where it is absent, else those of its slice. There is one.
    fn read_whole<'a, D: BytesPartialDecoderTraits>(
        &self,
        alloc: Global,
        source: &mut D,
        shard: OpenedShard<'a>,
        found: NumberedSubchunk<'a>,
    ) -> Result<ArrayBytes, CodecError>
        requires fit { fits (I.meaning (inner_of self.now)) (elements_of shard.elements.now).type
            found.shape.now ≡ true }
        requires pair { found.number < length (all_pairs shard.pairs.now) }
        requires some { 0 < product found.shape.now }
        ensures part { IsTrue (D.is_honest source.old) → IsTotalOf (D.contents source.old)
            (all_pairs shard.entry.pairs.now) shard.entry.total
            → ListsRead (elements_of shard.entry.elements.now) found.entry.shape.now
            (places_decoded (coded (I.meaning (inner_of self.now))
            (elements_of shard.entry.elements.now) found.entry.shape.now)
            (unwrap_or (D.contents source.old) [])
            (get_or (all_pairs shard.entry.pairs.now) found.entry.number absent_pair)
            (place_numbers found.entry.shape.now)) result }
        ensures refused { D.refused_calls source.new ≡
            refused_after (D.refused_calls source.old) result }
        ensures given { IsTrue (D.is_honest source.old) → D.given_bytes source.new
            ≤ D.given_bytes source.old + slice_length shard.entry.total
            (get_or (all_pairs shard.entry.pairs.now) found.entry.number absent_pair) }
        ensures follows { D.follows source.old source.new }
    {
        let shape = found.shape;
        let elements = shard.elements;
        let pair = shard.pairs.get(found.number);
        if is_absent(pair) {
            return fill_piece(alloc, elements, shape);
        }
        match fetch_slice(alloc, source, shard.total, pair) {
            Ok(slice) => self.decode_slice(alloc, slice, WholeArray { elements, shape }),
            Err(error) => Err(error),
        }
    }

    /// The subchunk that all places of a box lie in, and the box there, or `None` where they lie in
    /// several, or the box has no place.
    fn subchunk_around(
        &self,
        alloc: Global,
        shape: &[u64],
        region: &ArraySubset,
    ) -> Result<Option<BoxInside>, AllocError>
        requires cuts { can_cut shape.now (subchunk_of self.now) ≡ true }
        requires inside { shape_has shape.now (region_of region.now) ≡ true }
        ensures { IfOk result (λ found. IfSome found (IsBoxInside shape.now (subchunk_of self.now)
            (numbers_of shape.now (region_of region.now)))) }
    {
        if region.is_empty() {
            return Ok(None);
        }
        let edges = self.subchunk_shape.as_slice();
        let Some((number, _)) = subchunk_number(region.start(), shape, edges) else {
            return Ok(None);
        };
        let mut start = Vec::with_capacity(alloc, edges.len())?;
        push_remainders(region.start(), edges, &mut start)?;
        let mut around = Vec::with_capacity(alloc, edges.len())?;
        push_extents(region.start(), shape, edges, &mut around)?;
        let lengths = region.shape().to_vec(alloc)?;
        match ArraySubset::new_with_start_shape(start, lengths) {
            Ok(region) => if is_inside(around.as_slice(), &region) {
                Ok(Some(BoxInside {
                    number,
                    shape: around,
                    region,
                }))
            } else {
                Ok(None)
            },
            Err(_) => Ok(None),
        }
    }

    /// The numbers of the subchunks that the places of a box lie in, in order. `Err` only where an
    /// allocation failed, or there are 2^63 subchunks or more.
    pub(crate) fn subchunks_met(
        &self,
        alloc: Global,
        shape: &[u64],
        region: &ArraySubset,
    ) -> Result<Vec<u64>, AllocError>
        requires cuts { can_cut shape.now (subchunk_of self.now) ≡ true }
        requires rank { length shape.now ≡ length (subchunk_of self.now) }
        requires inside { shape_has shape.now (region_of region.now) ≡ true }
        ensures { IfOk result (λ met. AreMet shape.now (subchunk_of self.now)
            (numbers_of shape.now (region_of region.now)) met.items) }
    {
        if region.is_empty() {
            return Ok(Vec::new(alloc));
        }
        let edges = self.subchunk_shape.as_slice();
        let grid = grid_of(alloc, shape, &self.subchunk_shape)?;
        let counts = grid.as_slice();
        let end = region.end_exc(alloc)?;
        let ends = end.as_slice();
        let past = grid_of(alloc, ends, &self.subchunk_shape)?;
        let mut first = Vec::with_capacity(alloc, edges.len())?;
        push_quotients(region.start(), edges, &mut first)?;
        let Ok(met) = ArraySubset::new_with_start_end_exc(first, past) else {
            return Err(AllocError);
        };
        if !is_inside(counts, &met) || count_places(counts).is_none() {
            return Err(AllocError);
        }
        Ok(numbers_asked(alloc, counts, Indexer::Subset(&met))?)
    }

    /// What of a box lies in the subchunk with this number. `Err` where an allocation failed, and
    /// where no place of it does.
    pub(crate) fn cut_at(
        &self,
        alloc: Global,
        shape: &[u64],
        region: &ArraySubset,
        number: u64,
    ) -> Result<BoxCut, AllocError>
        requires cuts { can_cut shape.now (subchunk_of self.now) ≡ true }
        requires rank { length shape.now ≡ length (subchunk_of self.now) }
        requires inside { shape_has shape.now (region_of region.now) ≡ true }
        requires below { number < length (parts_of shape.now (subchunk_of self.now)) }
        ensures { IfOk result (IsCutOut shape.now (subchunk_of self.now) (region_of region.now)
            number) }
    {
        let edges = self.subchunk_shape.as_slice();
        let counted = grid_of(alloc, shape, &self.subchunk_shape)?;
        let grid = counted.as_slice();
        let Some(count) = count_places(grid) else {
            return Err(AllocError);
        };
        let cut = CutArray {
            shape,
            edges,
            grid,
            count,
        };
        let around = subchunk_region(alloc, cut, number)?;
        let Ok(both) = region.overlap(alloc, &around) else {
            return Err(AllocError);
        };
        if both.is_empty() || !around.contains(both.start()) {
            return Err(AllocError);
        }
        let Ok(inside) = both.relative_to(alloc, around.start()) else {
            return Err(AllocError);
        };
        let Ok(target) = both.relative_to(alloc, region.start()) else {
            return Err(AllocError);
        };
        if !is_inside(around.shape(), &inside) || !is_inside(region.shape(), &target) {
            return Err(AllocError);
        }
        let inside = BoxInside {
            number,
            shape: around.shape,
            region: inside,
        };
        Ok(BoxCut { inside, target })
    }
}

/// Appends the quotients of the numbers of each dimension. `Err` also where one is divided by 0.
fn push_quotients(start: &[u64], edges: &[u64], first: &mut Vec<u64>) -> Result<(), AllocError>
    ensures { OnOk result (first.new.items
        ≡ first.old.items ++ each2 (λ x edge. x / edge) start.now edges.now) }
{
    let Some((place, places)) = start.split_first() else {
        return Ok(());
    };
    let Some((edge, edges)) = edges.split_first() else {
        return Ok(());
    };
    let Some(quotient) = place.checked_div(*edge) else {
        return Err(AllocError);
    };
    first.push(quotient)?;
    push_quotients(places, edges, first)
}

/// Appends the remainders of the numbers of each dimension. `Err` also where one is divided by 0.
fn push_remainders(start: &[u64], edges: &[u64], rests: &mut Vec<u64>) -> Result<(), AllocError>
    ensures { OnOk result (rests.new.items
        ≡ rests.old.items ++ each2 (λ x edge. x % edge) start.now edges.now) }
{
    let Some((place, places)) = start.split_first() else {
        return Ok(());
    };
    let Some((edge, edges)) = edges.split_first() else {
        return Ok(());
    };
    let Some(rest) = place.checked_rem(*edge) else {
        return Err(AllocError);
    };
    rests.push(rest)?;
    push_remainders(places, edges, rests)
}

/// Appends how long the subchunk that a place of an array lies in is in each dimension. `Err` also
/// where the place has no such subchunk.
fn push_extents(
    place: &[u64],
    shape: &[u64],
    edges: &[u64],
    extents: &mut Vec<u64>,
) -> Result<(), AllocError>
    ensures { OnOk result (extents.new.items ≡ extents.old.items
        ++ (box_of shape.now edges.now (each2 (λ x edge. x / edge) place.now edges.now)).shape) }
{
    let Some((edge, edges)) = edges.split_first() else {
        return Ok(());
    };
    let Some((size, sizes)) = shape.split_first() else {
        return Ok(());
    };
    let Some((along, others)) = place.split_first() else {
        return Ok(());
    };
    let Some(block) = along.checked_div(*edge) else {
        return Err(AllocError);
    };
    let Some(first) = block.checked_mul(*edge) else {
        return Err(AllocError);
    };
    extents.push((*edge).min(size.saturating_sub(first)))?;
    push_extents(others, sizes, edges, extents)
}
