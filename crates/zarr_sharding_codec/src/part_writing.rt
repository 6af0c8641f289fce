//! Parts of an array, written into its shard.

use crate::codec::ShardingCodec;
use crate::updating::{AskedElements, ShardInSource};
use std::alloc::Global;
use zarr_codecs_arrays::{ArrayBytes, CodecError};
use zarr_codecs_regions::{count_asked, test_asked};
use zarr_codecs_traits::{ArrayPart, ArrayToBytesCodecTraits, BytesPartialEncoderTraits};
use zarr_grids_boxes::walk::count_places;
use zarr_sharding_index::{KnownShard, SliceChange};

/// Elements that can be put at the places of an array that are asked for, one for each, and how
/// many bytes the index of the array's shard has.
#[derive(Clone, Copy)]
pub struct TestedPart<'a> {
    pub size: u64,
    pub bytes: &'a ArrayBytes,
}

impl<I: ArrayToBytesCodecTraits, X: ArrayToBytesCodecTraits> ShardingCodec<I, X> {
    ghost use Rattle.std.specs.Prelude.{◌≡◌, ◌+◌, ◌<◌, ◌≤◌, ℕ, List, Option, Some, true, length, IsTrue, IfOk};
    ghost use Rattle.std.specs.List.{list_all};
    ghost use Rattle.zarr_codecs_arrays.specs.Views.{payload_of};
    ghost use Rattle.zarr_codecs_meaning.specs.Encoding.{index_size};
    ghost use Rattle.zarr_codecs_traits.specs.Indexers.{asked_of, numbers_asked};
    ghost use Rattle.zarr_codecs_traits.specs.Arrays.{coded_part, update_part};
    ghost use Rattle.zarr_codecs_traits.specs.PartWriting.{NotEncodedInto};
    ghost use Rattle.zarr_codecs_traits.specs.ShardWrites.{most_to_write};
    ghost use Rattle.zarr_codecs_traits.specs.Sources.{refused_after};
    ghost use Rattle.zarr_sharding_changes.specs.Changes.{pairs_after};
    ghost use Rattle.zarr_sharding_codec.specs.Appending.{AppendsChanges, AppendsPart, ChangesUnwritten, IsTestedPart, TriedToWrite, most_tried, shard_write};
    ghost use Rattle.zarr_sharding_codec.specs.Views.{index_of, makes_a_function, shard_chain};
    ghost use Rattle.zarr_sharding_index.specs.Stored.{index_fits};
    ghost use Rattle.zarr_sharding_index.specs.Known.{end_of, pairs_in, known_index, known_length, known_shape};
    ghost use Rattle.zarr_sharding_index.specs.SliceChanges.{changes_of, is_below};

    /// How many bytes the index of the array's shard has, where elements can be put at the places
    /// that are asked for. `Fit` where the codec doesn't suit the array; `IncompatibleIndexer`
    /// where a place isn't one of the array's; `InvalidNumberOfElements`, `Expected..` or
    /// `CellOutOfRange` where these are not elements, one for each place; `Size` where the array
    /// has 2^63 places or more.
    #[tactic(auto, using(zarr_codecs_regions::proofs::AskedPlaces::asked_places))]
    pub fn index_size_for(
        &self,
        alloc: Global,
        bytes: &ArrayBytes,
        part: ArrayPart<'_>,
    ) -> Result<u64, CodecError>
        ensures ok { IfOk result (λ size. IsTestedPart
            (coded_part (shard_chain I.meaning X.meaning self.now) part.entry)
            (asked_of part.entry.indexer) (payload_of bytes.now) size
            (numbers_asked part.entry.shape.now (asked_of part.entry.indexer))) }
        ensures cause { (stored : Option (List ℕ)) → NotEncodedInto
            (coded_part (shard_chain I.meaning X.meaning self.now) part.entry)
            (update_part part.entry bytes.now stored) result }
        ensures no_source { (count : ℕ) → refused_after count result ≡ count }
    {
        let data_type = part.elements.data_type();
        let Some(size) = self.suited(alloc, data_type, part.shape)? else {
            return Err(CodecError::Fit);
        };
        if count_places(part.shape).is_none() {
            return Err(CodecError::Size);
        }
        if let Err(error) = test_asked(part.shape, part.indexer) {
            return Err(error);
        }
        let Some(count) = count_asked(part.shape, part.indexer) else {
            return Err(CodecError::Memory);
        };
        match bytes.validate(data_type, count) {
            Ok(()) => Ok(size),
            Err(error) => Err(error),
        }
    }

    /// Puts elements at places of the array of the shard that a source holds: the new slices of the
    /// subchunks that the places lie in are appended to the data part, and go out together with the
    /// index in one writing call. `false`, with nothing written, where the shard would then have
    /// 2^63 bytes or more. Errors as those of `partial_encode`.
    pub(crate) fn append_part<E: BytesPartialEncoderTraits>(
        &self,
        alloc: Global,
        source: &mut E,
        tested: TestedPart<'_>,
        part: ArrayPart<'_>,
    ) -> Result<bool, CodecError>
        requires tested { IsTestedPart
            (coded_part (shard_chain I.meaning X.meaning self.now) part) (asked_of part.indexer)
            (payload_of tested.bytes.now) tested.size
            (numbers_asked part.shape.now (asked_of part.indexer)) }
        ensures ok { IsTrue (E.is_honest source.old) → IfOk result (AppendsPart
            (coded_part (shard_chain I.meaning X.meaning self.now) part.entry)
            (makes_a_function I.is_function X.is_function self.now)
            (update_part part.entry tested.entry.bytes.now (E.contents source.old))
            (E.contents source.new)) }
        ensures cause { IsTrue (E.is_honest source.old) → NotEncodedInto
            (coded_part (shard_chain I.meaning X.meaning self.now) part.entry)
            (update_part part.entry tested.entry.bytes.now (E.contents source.old)) result }
        ensures given { IsTrue (E.is_honest source.old) →
            E.given_bytes source.new ≤ E.given_bytes source.old + most_to_write
            (coded_part (shard_chain I.meaning X.meaning self.now) part.entry)
            (update_part part.entry tested.entry.bytes.now (E.contents source.old))
            + most_tried (E.writes_ranges source.old) (E.contents source.old) result }
        ensures call { TriedToWrite E.BytesPartialEncoderTraits.own E.BytesPartialDecoderTraits
            source.old source.new result }
    {
        let bytes = tested.bytes.try_clone(alloc)?;
        match self.open_known(alloc, source, tested.size, part.shape) {
            Ok(known) => {
                let shard = ShardInSource {
                    known: &known,
                    elements: part.elements,
                };
                let given = AskedElements {
                    shape: part.shape,
                    indexer: part.indexer,
                    bytes,
                };
                match self.update_asked(alloc, source, shard, given) {
                    Ok(changes) => self.append_changes(alloc, source, known, changes),
                    Err(error) => Err(error),
                }
            }
            Err(error) => Err(error),
        }
    }

    /// Replaces the slices of some subchunks of a shard, as `KnownShard::write_given` does.
    /// `false`, with nothing written, where the shard would then have 2^63 bytes or more.
    fn append_changes<E: BytesPartialEncoderTraits>(
        &self,
        alloc: Global,
        source: &mut E,
        known: KnownShard,
        changes: Vec<SliceChange>,
    ) -> Result<bool, CodecError>
        requires fit { index_fits (X.meaning (index_of self.now)) (known_shape known) ≡ true }
        requires size { known_length known ≡ index_size (X.meaning (index_of self.now))
            (known_shape known) }
        requires below { list_all (is_below (length (pairs_in known))) changes.items ≡ true }
        ensures ok { IsTrue (E.is_honest source.old) → IfOk result
            (AppendsChanges (known_index (X.meaning (index_of self.now))
            (X.is_function (index_of self.now)) known) (shard_write (changes_of changes.items)
            (end_of known) (pairs_in known) (E.contents source.old)) (E.contents source.new)) }
        ensures cause { IsTrue (E.is_honest source.old) → ChangesUnwritten
            (X.meaning (index_of self.now)) (known_shape known)
            (pairs_after (end_of known) (changes_of changes.items) (pairs_in known)) result }
        ensures given { IsTrue (E.is_honest source.old) →
            E.given_bytes source.new ≤ E.given_bytes source.old
            + most_tried (E.writes_ranges source.old) (E.contents source.old) result }
        ensures call { TriedToWrite E.BytesPartialEncoderTraits.own E.BytesPartialDecoderTraits
            source.old source.new result }
    {
        if !known.has_room(changes.as_slice()) {
            return Ok(false);
        }
        let mut known = known;
        match known.write_given(alloc, source, &self.index_codecs, changes) {
            Ok(()) => Ok(true),
            Err(error) => Err(error),
        }
    }
}
