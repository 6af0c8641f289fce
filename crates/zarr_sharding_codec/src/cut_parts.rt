//! Parts of arrays, cut into the slices of the subchunks that they meet.
ghost use Rattle.std.specs.Prelude.{◌≡◌, ◌<◌, ◌≤◌, ◌+◌, ℕ, List, [], None, length, get_or, true, unwrap_or, IsTrue, IfOk};
ghost use Rattle.zarr_codecs_arrays.specs.Views.{elements_of};
ghost use Rattle.zarr_codecs_meaning.specs.Chains.{Chain};
ghost use Rattle.zarr_codecs_meaning.specs.Encoding.{absent_pair};
ghost use Rattle.zarr_codecs_meaning.specs.Fits.{fits};
ghost use Rattle.zarr_codecs_traits.specs.Arrays.{coded_part};
ghost use Rattle.zarr_codecs_traits.specs.Indexers.{are_inside, asked_of, in_box, listed};
ghost use Rattle.zarr_codecs_traits.specs.Pieces.{SplitsPart, refused_splitting};
ghost use Rattle.zarr_codecs_traits.specs.ReadBytes.{slice_length};
ghost use Rattle.zarr_grids_boxes.specs.Subsets.{region_of};
ghost use Rattle.zarr_sharding_codec.specs.Pieces.{HasNoPiece, IsBehind, IsCutPart, PutsPart, ReadsMore, asked_piece, refused_reading};
ghost use Rattle.zarr_sharding_codec.specs.Reading.{IsTotalOf};
ghost use Rattle.zarr_sharding_index.specs.Present.{all_pairs};

use crate::box_reading::{AskedBox, BoxCut, IndexedPlaces};
use crate::codec::ShardingCodec;
use crate::partial::{NumberedPlaces, OpenedShard};
use std::alloc::{AllocError, Global};
use zarr_codecs_arrays::{ArrayBytes, CodecError, Elements};
use zarr_codecs_regions::{fill_asked, is_box_too_large};
use zarr_codecs_traits::{
    ArrayPart, ArrayToBytesCodecTraits, ByteRange, BytesPartialDecoderTraits, Indexer, PiecePlaces,
    PieceSlice, SplitValue, ValuePieces, WholeArray,
};
use zarr_grids_boxes::ArraySubset;
use zarr_grids_boxes::walk::count_places;
use zarr_sharding_index::fetched_index::fetch_slice;
use zarr_sharding_index::pair::is_absent;
use zarr_sharding_places::{
    BoxedElements, PlacedElements, insides_of, leading_group, positions_of,
};

impl<I: ArrayToBytesCodecTraits, X: ArrayToBytesCodecTraits> ShardingCodec<I, X> {
    ghost use Rattle.std.specs.Prelude.{◌≡◌, ◌≤◌, ◌+◌, [], length, nat_lt, true, unwrap_or, IfOk, IsTrue};
    ghost use Rattle.std.specs.List.{list_all};
    ghost use Rattle.zarr_codecs_arrays.specs.Views.{elements_of};
    ghost use Rattle.zarr_codecs_meaning.specs.Encoding.{index_size};
    ghost use Rattle.zarr_codecs_meaning.specs.Fits.{fits};
    ghost use Rattle.zarr_codecs_meaning.specs.Places.{index_shape, parts_of};
    ghost use Rattle.zarr_codecs_traits.specs.Arrays.{coded, coded_part};
    ghost use Rattle.zarr_codecs_traits.specs.Indexers.{are_inside, asked_of, in_box, listed, numbers_asked, numbers_of, shape_has};
    ghost use Rattle.zarr_codecs_traits.specs.Pieces.{SplitsPart, refused_splitting};
    ghost use Rattle.zarr_codecs_traits.specs.ReadBytes.{most_read};
    ghost use Rattle.zarr_grids_boxes.specs.Boxes.{product};
    ghost use Rattle.zarr_grids_boxes.specs.Subsets.{region_of};
    ghost use Rattle.zarr_sharding_codec.specs.BytesMet.{bytes_met};
    ghost use Rattle.zarr_sharding_codec.specs.Pieces.{ArePartRead, IsCutPart, asked_part, refused_reading};
    ghost use Rattle.zarr_sharding_codec.specs.Reading.{IsTotalOf};
    ghost use Rattle.zarr_sharding_codec.specs.Views.{index_of, shard_chain, subchunk_of};
    ghost use Rattle.zarr_sharding_index.specs.Present.{all_pairs};

    /// The slices of the present subchunks that the places lie in that are asked for, which are the
    /// array's, read of the shard that a source holds; its index has so many bytes. `Size` where a
    /// box has 2^63 elements or more, or as many bytes; else errors as those of `open_index`.
    pub(crate) fn cut_part<D: BytesPartialDecoderTraits>(
        &self,
        alloc: Global,
        source: &mut D,
        size: u64,
        part: ArrayPart<'_>,
    ) -> Result<SplitValue, CodecError>
        requires fit { fits (shard_chain I.meaning X.meaning self.now)
            (elements_of part.elements.now).type part.shape.now ≡ true }
        requires size { size ≡ index_size (X.meaning (index_of self.now))
            (index_shape part.shape.now (subchunk_of self.now)) }
        requires inside { are_inside part.shape.now (asked_of part.indexer) ≡ true }
        ensures part { IsTrue (D.is_honest source.old) → SplitsPart (IsCutPart (coded_part
            (shard_chain I.meaning X.meaning self.now) part.entry) (D.contents source.old)
            (asked_of part.entry.indexer))
            (coded_part (shard_chain I.meaning X.meaning self.now) part.entry)
            (D.contents source.old) (asked_of part.entry.indexer) result }
        ensures refused { D.refused_calls source.new ≡
            refused_splitting (D.refused_calls source.old) result }
        ensures given { IsTrue (D.is_honest source.old) → D.given_bytes source.new
            ≤ D.given_bytes source.old + most_read (shard_chain I.meaning X.meaning self.now)
            (elements_of part.entry.elements.now).type part.entry.shape.now
            (D.contents source.old) (asked_of part.entry.indexer) }
        ensures follows { D.follows source.old source.new }
    {
        if is_box_too_large(part) {
            return Err(CodecError::Size);
        }
        match self.open_index(alloc, source, size, part.shape) {
            Ok(Some(fetched)) => {
                let shard = OpenedShard {
                    pairs: &fetched.pairs,
                    total: fetched.total,
                    elements: part.elements,
                };
                let (shape, indexer) = (part.shape, part.indexer);
                let asked = IndexedPlaces { shape, indexer };
                Ok(SplitValue::Cut(self.cut_asked(alloc, source, shard, asked)?))
            }
            Ok(None) => fill_split(alloc, part),
            Err(error) => Err(error),
        }
    }

    /// The slices of the present subchunks that places lie in, which are the array's, read of the
    /// shard that a source holds, until one is refused. `Err` only where an allocation failed.
    fn cut_asked<D: BytesPartialDecoderTraits>(
        &self,
        alloc: Global,
        source: &mut D,
        shard: OpenedShard<'_>,
        asked: IndexedPlaces<'_>,
    ) -> Result<ValuePieces, AllocError>
        requires fit { fits (shard_chain I.meaning X.meaning self.now)
            (elements_of shard.elements.now).type asked.shape.now ≡ true }
        requires many { length (all_pairs shard.pairs.now)
            ≡ length (parts_of asked.shape.now (subchunk_of self.now)) }
        requires inside { are_inside asked.shape.now (asked_of asked.indexer) ≡ true }
        ensures part { IsTrue (D.is_honest source.old) → IsTotalOf (D.contents source.old)
            (all_pairs shard.entry.pairs.now) shard.entry.total → IfOk result (ArePartRead
            (asked_part (coded (shard_chain I.meaning X.meaning self.now)
            (elements_of shard.entry.elements.now) asked.entry.shape.now)
            (asked_of asked.entry.indexer) (unwrap_or (D.contents source.old) [])
            (all_pairs shard.entry.pairs.now))) }
        ensures refused { D.refused_calls source.new ≡
            refused_reading (D.refused_calls source.old) result }
        ensures given { IsTrue (D.is_honest source.old) → D.given_bytes source.new
            ≤ D.given_bytes source.old + bytes_met asked.entry.shape.now (subchunk_of self.now)
            (numbers_asked asked.entry.shape.now (asked_of asked.entry.indexer))
            (all_pairs shard.entry.pairs.now) shard.entry.total }
        ensures follows { D.follows source.old source.new }
    {
        let shape = asked.shape;
        match asked.indexer {
            Indexer::Subset(region) => {
                self.cut_box(alloc, source, shard, AskedBox { shape, region })
            }
            Indexer::List(numbers) => {
                let listed = NumberedPlaces { shape, numbers };
                self.cut_listed(alloc, source, shard, listed)
            }
        }
    }

    /// The slices of the present subchunks that the places of a box lie in, as `cut_asked` reads
    /// them.
    fn cut_box<D: BytesPartialDecoderTraits>(
        &self,
        alloc: Global,
        source: &mut D,
        shard: OpenedShard<'_>,
        asked: AskedBox<'_>,
    ) -> Result<ValuePieces, AllocError>
        requires fit { fits (shard_chain I.meaning X.meaning self.now)
            (elements_of shard.elements.now).type asked.shape.now ≡ true }
        requires many { length (all_pairs shard.pairs.now)
            ≡ length (parts_of asked.shape.now (subchunk_of self.now)) }
        requires inside { shape_has asked.shape.now (region_of asked.region.now) ≡ true }
        ensures part { IsTrue (D.is_honest source.old) → IsTotalOf (D.contents source.old)
            (all_pairs shard.entry.pairs.now) shard.entry.total → IfOk result (ArePartRead
            (asked_part (coded (shard_chain I.meaning X.meaning self.now)
            (elements_of shard.entry.elements.now) asked.entry.shape.now)
            (in_box (region_of asked.entry.region.now)) (unwrap_or (D.contents source.old) [])
            (all_pairs shard.entry.pairs.now))) }
        ensures refused { D.refused_calls source.new ≡
            refused_reading (D.refused_calls source.old) result }
        ensures given { IsTrue (D.is_honest source.old) → D.given_bytes source.new
            ≤ D.given_bytes source.old + bytes_met asked.entry.shape.now (subchunk_of self.now)
            (numbers_of asked.entry.shape.now (region_of asked.entry.region.now))
            (all_pairs shard.entry.pairs.now) shard.entry.total }
        ensures follows { D.follows source.old source.new }
    {
        let found = self.subchunks_met(alloc, asked.shape, asked.region)?;
        let met = found.as_slice();
        let mut pieces = no_pieces(alloc, asked.shape)?;
        for j in 0..met.len() {
            let number = met[j];
            let BoxCut { inside, target } = self.cut_at(alloc, asked.shape, asked.region, number)?;
            let inside = inside.region;
            let places = PiecePlaces::InBox { inside, target };
            pieces = read_more(alloc, source, shard, number, places, pieces)?;
            if pieces.stopped.is_some() {
                return Ok(pieces);
            }
        }
        Ok(pieces)
    }

    /// The slices of the present subchunks that listed places lie in, as `cut_asked` reads them.
    fn cut_listed<D: BytesPartialDecoderTraits>(
        &self,
        alloc: Global,
        source: &mut D,
        shard: OpenedShard<'_>,
        asked: NumberedPlaces<'_>,
    ) -> Result<ValuePieces, AllocError>
        requires fit { fits (shard_chain I.meaning X.meaning self.now)
            (elements_of shard.elements.now).type asked.shape.now ≡ true }
        requires many { length (all_pairs shard.pairs.now)
            ≡ length (parts_of asked.shape.now (subchunk_of self.now)) }
        requires below { list_all (λ n. nat_lt n (product asked.shape.now))
            asked.numbers.now ≡ true }
        ensures part { IsTrue (D.is_honest source.old) → IsTotalOf (D.contents source.old)
            (all_pairs shard.entry.pairs.now) shard.entry.total → IfOk result (ArePartRead
            (asked_part (coded (shard_chain I.meaning X.meaning self.now)
            (elements_of shard.entry.elements.now) asked.entry.shape.now)
            (listed asked.entry.numbers.now) (unwrap_or (D.contents source.old) [])
            (all_pairs shard.entry.pairs.now))) }
        ensures refused { D.refused_calls source.new ≡
            refused_reading (D.refused_calls source.old) result }
        ensures given { IsTrue (D.is_honest source.old) → D.given_bytes source.new
            ≤ D.given_bytes source.old + bytes_met asked.entry.shape.now (subchunk_of self.now)
            asked.entry.numbers.now (all_pairs shard.entry.pairs.now) shard.entry.total }
        ensures follows { D.follows source.old source.new }
    {
        let places = self.places_of(alloc, asked)?;
        let mut pieces = no_pieces(alloc, asked.shape)?;
        let mut rest = places.as_slice();
        while rest.len() > 0 {
            let (group, others) = leading_group(rest);
            let number = group[0].subchunk;
            let insides = insides_of(alloc, group)?;
            let positions = positions_of(alloc, group)?;
            let places = PiecePlaces::Listed { insides, positions };
            pieces = read_more(alloc, source, shard, number, places, pieces)?;
            if pieces.stopped.is_some() {
                return Ok(pieces);
            }
            rest = others;
        }
        Ok(pieces)
    }
}

/// The fill values of the places that are asked for, where nothing is stored.
fn fill_split(alloc: Global, part: ArrayPart<'_>) -> Result<SplitValue, CodecError>
    requires inside { are_inside part.shape.now (asked_of part.indexer) ≡ true }
    ensures part { (chain : Chain) → fits chain (elements_of part.entry.elements.now).type
        part.entry.shape.now ≡ true → SplitsPart (IsCutPart (coded_part chain part.entry) None
        (asked_of part.entry.indexer)) (coded_part chain part.entry) None
        (asked_of part.entry.indexer) result }
    ensures refused { (count : ℕ) → refused_splitting count result ≡ count }
{
    match fill_asked(alloc, part) {
        Ok(filled) => Ok(SplitValue::Decoded(filled)),
        Err(error) => Err(error),
    }
}

/// No slices of a shard of an array of this shape.
fn no_pieces(alloc: Global, shape: &[u64]) -> Result<ValuePieces, AllocError>
    ensures { IfOk result (HasNoPiece shape.now) }
{
    Ok(ValuePieces {
        data: Vec::new(alloc),
        shape: shape.to_vec(alloc)?,
        slices: Vec::new(alloc),
        stopped: None,
    })
}

/// The slices that were read, and that of the subchunk with this number behind them, if it is
/// present, or why it was refused.
fn read_more<D: BytesPartialDecoderTraits>(
    alloc: Global,
    source: &mut D,
    shard: OpenedShard<'_>,
    number: u64,
    places: PiecePlaces,
    pieces: ValuePieces,
) -> Result<ValuePieces, AllocError>
    requires below { number < length (all_pairs shard.pairs.now) }
    requires none { pieces.stopped ≡ None }
    ensures more { IsTrue (D.is_honest source.old) → IsTotalOf (D.contents source.old)
        (all_pairs shard.entry.pairs.now) shard.entry.total → IfOk result
        (ReadsMore (unwrap_or (D.contents source.old) []) (asked_piece
        (get_or (all_pairs shard.entry.pairs.now) number absent_pair) number places) pieces) }
    ensures refused { D.refused_calls source.new ≡
        refused_reading (D.refused_calls source.old) result }
    ensures given { IsTrue (D.is_honest source.old) → D.given_bytes source.new
        ≤ D.given_bytes source.old + slice_length shard.entry.total
        (get_or (all_pairs shard.entry.pairs.now) number absent_pair) }
    ensures follows { D.follows source.old source.new }
{
    let pair = shard.pairs.get(number as usize);
    if is_absent(pair) {
        return Ok(pieces);
    }
    match fetch_slice(alloc, source, shard.total, pair) {
        Ok(bytes) => push_read(pieces, number, places, bytes.as_slice()),
        Err(error) => {
            let mut stopped = pieces;
            stopped.stopped = Some(error);
            Ok(stopped)
        }
    }
}

/// The slices that were read, and behind them one of these bytes.
fn push_read(
    pieces: ValuePieces,
    number: u64,
    places: PiecePlaces,
    bytes: &[u8],
) -> Result<ValuePieces, AllocError>
    ensures { IfOk result (IsBehind number places bytes.now pieces) }
{
    let offset = pieces.data.len() as u64;
    let length = bytes.len() as u64;
    let range = ByteRange { offset, length };
    let mut pieces = pieces;
    pieces.data.extend_from_slice(bytes)?;
    pieces.slices.push(PieceSlice {
        number,
        range,
        places,
    })?;
    Ok(pieces)
}

/// The elements at the places that are asked for, where these are the ones of the slices that were
/// read for them, and fill values elsewhere. `Err` also where there is no element for a slice.
pub(crate) fn put_found(
    alloc: Global,
    slices: &[PieceSlice],
    found: &[ArrayBytes],
    elements: &Elements,
    indexer: Indexer<'_>,
) -> Result<ArrayBytes, AllocError>
    ensures { PutsPart (elements_of elements.now) (asked_of indexer.entry) slices.now found.now
        result }
{
    match indexer {
        Indexer::Subset(region) => put_boxes(alloc, slices, found, elements, region),
        Indexer::List(numbers) => put_listed(alloc, slices, found, elements, numbers.len()),
    }
}

/// The elements of a box, put together from those of boxes in it.
fn put_boxes(
    alloc: Global,
    slices: &[PieceSlice],
    found: &[ArrayBytes],
    elements: &Elements,
    region: &ArraySubset,
) -> Result<ArrayBytes, AllocError>
    ensures { PutsPart (elements_of elements.now) (in_box (region_of region.now)) slices.now
        found.now result }
{
    let shape = region.shape();
    let Some(count) = count_places(shape) else {
        return Err(AllocError);
    };
    let array = WholeArray { elements, shape };
    let filled = BoxedElements::new_fill_value(alloc, count as usize, elements)?;
    let mut all = filled;
    for j in 0..slices.len() {
        if j >= found.len() {
            return Err(AllocError);
        }
        match &slices[j].places {
            PiecePlaces::InBox { target, .. } => all = all.put(alloc, array, target, &found[j])?,
            _ => return Err(AllocError),
        }
    }
    all.into_bytes(alloc, elements)
}

/// So many elements, put together from those at some positions.
fn put_listed(
    alloc: Global,
    slices: &[PieceSlice],
    found: &[ArrayBytes],
    elements: &Elements,
    count: usize,
) -> Result<ArrayBytes, AllocError>
    ensures { (numbers : List ℕ) → length numbers ≡ count → PutsPart (elements_of elements.now)
        (listed numbers) slices.now found.now result }
{
    let filled = PlacedElements::new_fill_value(alloc, count, elements)?;
    let mut all = filled;
    for j in 0..slices.len() {
        if j >= found.len() {
            return Err(AllocError);
        }
        match &slices[j].places {
            PiecePlaces::Listed { positions, .. } => {
                all = all.put(alloc, positions.as_slice(), &found[j], elements)?;
            }
            _ => return Err(AllocError),
        }
    }
    all.gather(alloc, elements)
}
