//! What is known of a shard in a source.
ghost use Rattle.std.specs.Prelude.{◌^◌, ◌<◌, ◌≡◌, ◌*◌, length};
ghost use Rattle.zarr_grids_boxes.specs.Boxes.{product};
ghost use Rattle.zarr_sharding_index.specs.Present.{all_pairs};

use crate::fetched_index::{IndexLayout, fetch_slice, fetch_whole_index};
use crate::fetched_shard::open_fetched;
use crate::location::ShardingIndexLocation;
use crate::pair::is_absent;
use crate::present::PresentPairs;
use crate::slice_changes::{
    ShardBytes, SliceChange, append_bytes, appended_length, changed_pairs, join_slices,
};
use crate::stored::write_index;
use std::alloc::Global;
use zarr_codecs_arrays::CodecError;
use zarr_codecs_traits::{
    ArrayToBytesCodecTraits, BytesPartialDecoderTraits, BytesPartialEncoderTraits,
};

/// What is known of one shard in a source of bytes, which each call is lent: its index, of which
/// the pairs of present subchunks are kept, how that is laid out, and the place where its data part
/// ends. Slices of subchunks are read by their pairs, and replaced by one writing call of the
/// source (this project's profile). A contract sees the pairs and the layout of the index, and the
/// end of the data part.
#[derive(Debug, Drop)]
pub struct KnownShard {
    pub(crate) pairs: PresentPairs,
    pub(crate) end: u64,
    pub(crate) location: ShardingIndexLocation,
    pub(crate) shape: Vec<u64>,
    pub(crate) size: u64,
    ghost small: { end < 2 ^ 63 },
    ghost low: { size < 2 ^ 63 },
    ghost many: { product shape.items ≡ 2 * length (all_pairs pairs) },
}

impl KnownShard {
    ghost use Rattle.std.specs.Prelude.{◌≡◌, ◌+◌, ◌%◌, ◌<◌, ◌≤◌, ◌^◌, [], ℕ, List, get_or, length, nat_lt, replicate, true, None, Some, Ok, unwrap_or, IfOk, IfErr, OnOk, OnErr, IsTrue};
    ghost use Rattle.std.specs.List.{list_all};
    ghost use Rattle.zarr_codecs_meaning.specs.Decoding.{is_absent};
    ghost use Rattle.zarr_codecs_meaning.specs.Encoding.{absent_pair, base_of, index_size};
    ghost use Rattle.zarr_codecs_traits.specs.ReadBytes.{slice_length};
    ghost use Rattle.zarr_codecs_traits.specs.Sources.{refused_after, value_length};
    ghost use Rattle.zarr_codecs_traits.specs.Writes.{WriteRefused, accepted_after};
    ghost use Rattle.zarr_grids_boxes.specs.Boxes.{product};
    ghost use Rattle.zarr_sharding_changes.specs.Changes.{appended};
    ghost use Rattle.zarr_sharding_index.specs.Present.{all_pairs};
    ghost use Rattle.zarr_sharding_index.specs.Stored.{index_fits, WritesIndex};
    ghost use Rattle.zarr_sharding_index.specs.Views.{location_of};
    ghost use Rattle.zarr_sharding_index.specs.Calls.{CalledToWrite, KnownAfter, IsLaidAlike};
    ghost use Rattle.zarr_sharding_index.specs.Held.{shard_length};
    ghost use Rattle.zarr_sharding_index.specs.Opened.{OpenRefused, IsLaid, IsOpenedAs};
    ghost use Rattle.zarr_sharding_index.specs.Known.{HasSliceAt, end_of, pairs_in, known_location, known_shape, known_length, held_by, known_index, known_total};
    ghost use Rattle.zarr_sharding_index.specs.SliceChanges.{changes_of, is_below};
    ghost use Rattle.zarr_sharding_index.specs.Written.{AppendRefused, with_slices, ChangesHeld, RefusesChanges};

    /// What is known of the shard in a source, whose index these codecs read, of which this is the
    /// shape and how many bytes it has. Where the source holds no value, each subchunk is absent.
    /// `Damage` where the value is shorter than the index, the index isn't decoded, or a present
    /// pair lies outside the data part; `Size` where the value has 2^63 bytes or more; `Source`
    /// where the source refuses. At most the bytes of the index are taken from an honest source.
    pub fn open<X: ArrayToBytesCodecTraits, D: BytesPartialDecoderTraits>(
        alloc: Global,
        source: &mut D,
        codecs: &X,
        layout: IndexLayout<'_>,
    ) -> Result<KnownShard, CodecError>
        requires fit { index_fits (X.meaning codecs.now) layout.shape.now ≡ true }
        requires even { product layout.shape.now % 2 ≡ 0 }
        requires size { layout.size ≡ index_size (X.meaning codecs.now) layout.shape.now }
        requires low { layout.size < 2 ^ 63 }
        ensures opened { IsTrue (D.is_honest source.old) → IfOk result
            (IsOpenedAs (X.meaning codecs.now) (location_of layout.entry.location)
            layout.entry.shape.now (D.contents source.old)) }
        ensures laid { IfOk result (IsLaid (location_of layout.entry.location)
            layout.entry.shape.now layout.entry.size) }
        ensures cause { IsTrue (D.is_honest source.old) → IfErr result
            (OpenRefused (X.meaning codecs.now) (location_of layout.entry.location)
            layout.entry.shape.now (D.contents source.old)) }
        ensures refused { D.refused_calls source.new ≡
            refused_after (D.refused_calls source.old) result }
        ensures given { IsTrue (D.is_honest source.old) →
            D.given_bytes source.new ≤ D.given_bytes source.old + layout.entry.size }
        ensures within { IsTrue (D.is_honest source.old) → D.given_bytes source.new
            ≤ D.given_bytes source.old + value_length (D.contents source.old) }
        ensures follows { D.follows source.old source.new }
    {
        match fetch_whole_index(alloc, codecs, source, layout) {
            Ok(fetched) => open_fetched(alloc, fetched, layout),
            Err(error) => Err(error),
        }
    }

    /// How many subchunks the shard has.
    pub fn len(&self) -> usize
        ensures { result ≡ length (pairs_in self.now) }
    {
        self.pairs.len()
    }

    /// The pairs of the index: where the slice of each subchunk stands.
    pub fn pairs(&self) -> &PresentPairs
        ensures { all_pairs result.now ≡ pairs_in self.now }
    {
        &self.pairs
    }

    /// How many bytes the shard has, where the source holds one.
    pub fn total(&self) -> u64
        ensures { result ≡ known_total self.now }
    {
        match self.location {
            ShardingIndexLocation::Start => self.end,
            ShardingIndexLocation::End => self.end + self.size,
        }
    }

    /// The encoded bytes of a subchunk, by its row-major number, or `None` where it is absent.
    /// `Source` where the source refuses; `Damage` where the source no longer holds the slice. An
    /// honest source gives at most as many bytes as the slice has, and none where the pair ends
    /// past the end of the shard.
    pub fn retrieve_subchunk_encoded<D: BytesPartialDecoderTraits>(
        &self,
        alloc: Global,
        source: &mut D,
        n: usize,
    ) -> Result<Option<Vec<u8>>, CodecError>
        requires below { n < length (pairs_in self.now) }
        ensures absent { is_absent (get_or (pairs_in self.now) n absent_pair) ≡ true →
            result ≡ Ok None }
        ensures slice { IsTrue (D.is_honest source.old) → (value : List ℕ)
            → D.contents source.old ≡ Some value → length value ≡ known_total self.now
            → HasSliceAt value (get_or (pairs_in self.now) n absent_pair) result }
        ensures refused { D.refused_calls source.new ≡
            refused_after (D.refused_calls source.old) result }
        ensures given { IsTrue (D.is_honest source.old) → D.given_bytes source.new
            ≤ D.given_bytes source.old + slice_length (known_total self.now)
            (get_or (pairs_in self.now) n absent_pair) }
        ensures follows { D.follows source.old source.new }
    {
        let pair = self.pairs.get(n);
        if is_absent(pair) {
            return Ok(None);
        }
        match fetch_slice(alloc, source, self.total(), pair) {
            Ok(bytes) => Ok(Some(bytes)),
            Err(error) => Err(error),
        }
    }

    /// Takes the shard away, so that each subchunk is absent. An `Err` leaves the shard and what is
    /// known of it as they were. `Source` where the source refuses. No byte is given to do so.
    pub fn erase<E: BytesPartialEncoderTraits>(
        &mut self,
        alloc: Global,
        source: &mut E,
    ) -> Result<(), CodecError>
        ensures ok { OnOk result ((pairs_in self.new
            ≡ replicate (length (pairs_in self.old)) absent_pair)
            × (end_of self.new ≡ base_of (known_location self.old) (known_length self.old))) }
        ensures erased { IsTrue (E.is_honest source.old) →
            OnOk result (E.contents source.new ≡ None) }
        ensures err { IsTrue (E.is_honest source.old) →
            OnErr result (E.contents source.new ≡ E.contents source.old) }
        ensures same { OnErr result ((pairs_in self.new ≡ pairs_in self.old)
            × (end_of self.new ≡ end_of self.old)) }
        ensures laid { IsLaidAlike self.old self.new }
        ensures cause { WriteRefused result }
        ensures refused { E.refused_calls source.new ≡
            refused_after (E.refused_calls source.old) result }
        ensures given { E.given_bytes source.new ≡ E.given_bytes source.old }
        ensures accepted { E.accepted_writes source.new ≡
            accepted_after (E.accepted_writes source.old) result }
        ensures rewrites { E.rewrites source.old source.new }
    {
        let pairs = PresentPairs::all_absent(alloc, self.pairs.len());
        match source.erase() {
            Ok(()) => {
                let base = self.location.base(self.size);
                self.keep(pairs, base);
                Ok(())
            }
            Err(error) => Err(error),
        }
    }

    /// Whether the shard has fewer than 2^63 bytes after the slices of changes were appended.
    pub fn has_room(&self, changes: &[SliceChange]) -> bool
        ensures { result ≡ nat_lt (shard_length (known_location self.now) (known_length self.now)
            (end_of self.now + length (appended (changes_of changes.now)))) (2 ^ 63) }
    {
        let Some(slices) = appended_length(changes) else {
            return false;
        };
        let Some(end) = self.end.checked_add(slices) else {
            return false;
        };
        match self.location {
            ShardingIndexLocation::Start => end <= 0x7fff_ffff_ffff_ffff,
            ShardingIndexLocation::End => match end.checked_add(self.size) {
                Some(total) => total <= 0x7fff_ffff_ffff_ffff,
                None => false,
            },
        }
    }

    /// Replaces slices of subchunks: new ones are appended, and go out with the index in one
    /// writing call; where no subchunk is left, the shard is erased, and no index is made.
    /// `Codec` where a caller's codec refuses the index, `Size` where the shard would have 2^63
    /// bytes or more, `Source` where the source refuses; a refusal changes nothing.
    #[tactic(auto, using(crate::proofs::Appending::index_unwritten))]
    pub fn write_slices<X: ArrayToBytesCodecTraits, E: BytesPartialEncoderTraits>(
        &mut self,
        alloc: Global,
        source: &mut E,
        codecs: &X,
        changes: &[SliceChange],
    ) -> Result<(), CodecError>
        requires fit { index_fits (X.meaning codecs.now) (known_shape self.old) ≡ true }
        requires size { known_length self.old
            ≡ index_size (X.meaning codecs.now) (known_shape self.old) }
        requires below { list_all (is_below (length (pairs_in self.old))) changes.now ≡ true }
        ensures known { KnownAfter (changes_of changes.now) self.old self.new result }
        ensures ok { IsTrue (E.is_honest source.old) → OnOk result (ChangesHeld
            (known_index (X.meaning codecs.now) (X.is_function codecs.now) self.old)
            (changes_of changes.now) (held_by (E.contents source.old) self.old)
            (held_by (E.contents source.new) self.new)) }
        ensures cause { IsTrue (E.is_honest source.old) → RefusesChanges
            (known_index (X.meaning codecs.now) (X.is_function codecs.now) self.old)
            (changes_of changes.now) (held_by (E.contents source.old) self.old) result }
        ensures call { CalledToWrite E.BytesPartialEncoderTraits.own E.BytesPartialDecoderTraits
            source.old source.new result }
    {
        let slices = join_slices(alloc, changes)?;
        if slices.len() as u64 > 0x7fff_ffff_ffff_ffff - self.end {
            return Err(CodecError::Size);
        }
        let pairs = changed_pairs(alloc, &self.pairs, changes, self.end)?;
        if pairs.are_absent() {
            match source.erase() {
                Ok(()) => {
                    let end = self.location.base(self.size);
                    self.keep(pairs, end);
                    Ok(())
                }
                Err(error) => Err(error),
            }
        } else {
            match self.written_index(alloc, codecs, &pairs) {
                Ok(made) => {
                    let (index, slices) = (made.as_slice(), slices.as_slice());
                    let bytes = ShardBytes { index, slices };
                    self.append(alloc, source, pairs, bytes)
                }
                Err(error) => Err(error),
            }
        }
    }

    /// Appends slices to the data part, and puts another index, which is that of these pairs, in
    /// the place of the one that was there. An `Err` leaves the shard and what is known of it as
    /// they were.
    fn append<E: BytesPartialEncoderTraits>(
        &mut self,
        alloc: Global,
        source: &mut E,
        pairs: PresentPairs,
        bytes: ShardBytes<'_>,
    ) -> Result<(), CodecError>
        requires room { end_of self.old + length bytes.slices.now < 2 ^ 63 }
        requires many { length (all_pairs pairs) ≡ length (pairs_in self.old) }
        ensures pairs { OnOk result (pairs_in self.new ≡ all_pairs pairs) }
        ensures end { OnOk result (end_of self.new
            ≡ end_of self.old + length bytes.entry.slices.now) }
        ensures ok { IsTrue (E.is_honest source.old) → OnOk result
            (E.contents source.new ≡ Some (with_slices (known_location self.old)
            (end_of self.old) bytes.entry.index.now bytes.entry.slices.now
            (unwrap_or (E.contents source.old) []))) }
        ensures same { OnErr result ((pairs_in self.new ≡ pairs_in self.old)
            × (end_of self.new ≡ end_of self.old)) }
        ensures laid { IsLaidAlike self.old self.new }
        ensures cause { IsTrue (E.is_honest source.old) → AppendRefused
            (shard_length (known_location self.old) (length bytes.entry.index.now)
            (end_of self.old + length bytes.entry.slices.now)) result }
        ensures call { CalledToWrite E.BytesPartialEncoderTraits.own E.BytesPartialDecoderTraits
            source.old source.new result }
    {
        let end = self.end + bytes.slices.len() as u64;
        match append_bytes(alloc, source, self.location, self.end, bytes) {
            Ok(()) => {
                self.keep(pairs, end);
                Ok(())
            }
            Err(error) => Err(error),
        }
    }

    /// The bytes that these codecs make of the index of pairs, of which there are as many as are
    /// known. Errors as those of `write_index`.
    pub(crate) fn written_index<X: ArrayToBytesCodecTraits>(
        &self,
        alloc: Global,
        codecs: &X,
        pairs: &PresentPairs,
    ) -> Result<Vec<u8>, CodecError>
        requires fit { index_fits (X.meaning codecs.now) (known_shape self.now) ≡ true }
        requires many { length (all_pairs pairs.now) ≡ length (pairs_in self.now) }
        ensures { WritesIndex (X.meaning codecs.now) (X.is_function codecs.now)
            (known_shape self.now) (all_pairs pairs.now) result }
    {
        let index = pairs.to_index(alloc)?;
        write_index(alloc, codecs, index, self.shape.as_slice())
    }

    /// Keeps other pairs, as many as before, and where the data part ends with them.
    fn keep(&mut self, pairs: PresentPairs, end: u64)
        requires many { length (all_pairs pairs) ≡ length (pairs_in self.old) }
        requires small { end < 2 ^ 63 }
        ensures pairs { pairs_in self.new ≡ all_pairs pairs }
        ensures end { end_of self.new ≡ end }
        ensures laid { IsLaidAlike self.old self.new }
    {
        self.pairs = pairs;
        self.end = end;
    }
}
