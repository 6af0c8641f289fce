//! Changes of a shard that are given away with their slices.
ghost use Rattle.std.specs.Prelude.{◌<◌, ◌^◌};

use crate::known_shard::KnownShard;
use crate::slice_changes::{ShardBytes, SliceChange, append_bytes, take_only_slice};
use std::alloc::Global;
use zarr_codecs_arrays::CodecError;
use zarr_codecs_traits::{ArrayToBytesCodecTraits, ByteRange, BytesPartialEncoderTraits};

/// The new slice of the subchunk with this number.
#[derive(Drop)]
struct GivenSlice {
    number: usize,
    slice: Vec<u8>,
}

impl KnownShard {
    ghost use Rattle.std.specs.Prelude.{◌≡◌, ◌≢◌, ◌⊎◌, ◌+◌, ◌<◌, ◌^◌, length, false, true, IfNone, IfSome, OnOk, IsTrue};
    ghost use Rattle.std.specs.List.{list_all};
    ghost use Rattle.zarr_codecs_meaning.specs.Encoding.{index_size};
    ghost use Rattle.zarr_codecs_meaning.specs.Standing.{index_layout};
    ghost use Rattle.zarr_sharding_index.specs.Stored.{IsIndexWritten, index_fits};
    ghost use Rattle.zarr_codecs_traits.specs.Capabilities.{encodes_as_is};
    ghost use Rattle.zarr_sharding_index.specs.Calls.{CalledToWrite, KnownAfter, change_given};
    ghost use Rattle.zarr_sharding_index.specs.Listed.{count_present};
    ghost use Rattle.zarr_sharding_index.specs.Held.{are_absent, held_as};
    ghost use Rattle.zarr_sharding_index.specs.Known.{end_of, pairs_in, known_location, known_shape, known_length, held_by, known_index};
    ghost use Rattle.zarr_sharding_index.specs.SliceChanges.{changes_of, is_below};
    ghost use Rattle.zarr_sharding_index.specs.Written.{ChangesRefused, IsAppended, ChangesHeld, RefusesChanges};

    /// Replaces the slices of some subchunks, as `write_slices` does, with its errors. The slice of
    /// a change that is the only one isn't copied before it goes out.
    pub fn write_given<X: ArrayToBytesCodecTraits, E: BytesPartialEncoderTraits>(
        &mut self,
        alloc: Global,
        source: &mut E,
        codecs: &X,
        changes: Vec<SliceChange>,
    ) -> Result<(), CodecError>
        requires fit { index_fits (X.meaning codecs.now) (known_shape self.old) ≡ true }
        requires size { known_length self.old
            ≡ index_size (X.meaning codecs.now) (known_shape self.old) }
        requires below { list_all (is_below (length (pairs_in self.old))) changes.items ≡ true }
        ensures known { KnownAfter (changes_of changes.items) self.old self.new result }
        ensures ok { IsTrue (E.is_honest source.old) → OnOk result (ChangesHeld
            (known_index (X.meaning codecs.now) (X.is_function codecs.now) self.old)
            (changes_of changes.items) (held_by (E.contents source.old) self.old)
            (held_by (E.contents source.new) self.new)) }
        ensures cause { IsTrue (E.is_honest source.old) → RefusesChanges
            (known_index (X.meaning codecs.now) (X.is_function codecs.now) self.old)
            (changes_of changes.items) (held_by (E.contents source.old) self.old) result }
        ensures call { CalledToWrite E.BytesPartialEncoderTraits.own E.BytesPartialDecoderTraits
            source.old source.new result }
    {
        let mut changes = changes;
        match take_only_slice(&mut changes) {
            Some((number, slice)) => {
                let given = GivenSlice { number, slice };
                self.write_slice(alloc, source, codecs, given)
            }
            None => self.write_slices(alloc, source, codecs, changes.as_slice()),
        }
    }

    /// Replaces the slice of one subchunk, as `write_slices` does.
    #[tactic(auto, using(crate::proofs::Counts::put_count))]
    fn write_slice<X: ArrayToBytesCodecTraits, E: BytesPartialEncoderTraits>(
        &mut self,
        alloc: Global,
        source: &mut E,
        codecs: &X,
        given: GivenSlice,
    ) -> Result<(), CodecError>
        requires fit { index_fits (X.meaning codecs.now) (known_shape self.old) ≡ true }
        requires size { known_length self.old
            ≡ index_size (X.meaning codecs.now) (known_shape self.old) }
        requires below { given.number < length (pairs_in self.old) }
        ensures known { KnownAfter (change_given given) self.old self.new result }
        ensures ok { IsTrue (E.is_honest source.old) → OnOk result (ChangesHeld
            (known_index (X.meaning codecs.now) (X.is_function codecs.now) self.old)
            (change_given given) (held_by (E.contents source.old) self.old)
            (held_by (E.contents source.new) self.new)) }
        ensures cause { IsTrue (E.is_honest source.old) → RefusesChanges
            (known_index (X.meaning codecs.now) (X.is_function codecs.now) self.old)
            (change_given given) (held_by (E.contents source.old) self.old) result }
        ensures call { CalledToWrite E.BytesPartialEncoderTraits.own E.BytesPartialDecoderTraits
            source.old source.new result }
    {
        let number = given.number;
        let length = given.slice.len() as u64;
        if length > 0x7fff_ffff_ffff_ffff - self.end {
            return Err(CodecError::Size);
        }
        let offset = self.end;
        let before = self.pairs.get(number);
        self.pairs.put(alloc, number, ByteRange { offset, length })?;
        match self.append_slice(alloc, source, codecs, given) {
            Ok(()) => {
                self.end = offset + length;
                Ok(())
            }
            Err(error) => {
                self.pairs.replace(number, before);
                Err(error)
            }
        }
    }

    /// Appends a slice to the data part, and writes the index of the pairs that are known, some of
    /// which are present. An `Err` leaves the shard as it was; what is known of it stays.
    #[tactic(auto, using(crate::proofs::Appending::index_unwritten))]
    fn append_slice<X: ArrayToBytesCodecTraits, E: BytesPartialEncoderTraits>(
        &self,
        alloc: Global,
        source: &mut E,
        codecs: &X,
        given: GivenSlice,
    ) -> Result<(), CodecError>
        requires fit { index_fits (X.meaning codecs.now) (known_shape self.now) ≡ true }
        requires room { end_of self.now + length given.slice.items < 2 ^ 63 }
        requires some { are_absent (pairs_in self.now) ≡ false }
        ensures ok { IsTrue (E.is_honest source.old) → OnOk result
            (IsAppended (known_index (X.meaning codecs.now) (X.is_function codecs.now) self.now)
            (change_given given) (E.contents source.old) (end_of self.now)
            (held_as (E.contents source.new) (pairs_in self.now)
            (end_of self.now + length given.slice.items))) }
        ensures cause { IsTrue (E.is_honest source.old) → ChangesRefused
            (index_layout (X.meaning codecs.now) (known_location self.now) (known_shape self.now))
            (change_given given) (end_of self.now) (pairs_in self.now) result }
        ensures call { CalledToWrite E.BytesPartialEncoderTraits.own E.BytesPartialDecoderTraits
            source.old source.new result }
    {
        let slices = given.slice.as_slice();
        if let Some(index) = self.index_as_is(codecs) {
            let bytes = ShardBytes { index, slices };
            return append_bytes(alloc, source, self.location, self.end, bytes);
        }
        match self.written_index(alloc, codecs, &self.pairs) {
            Ok(made) => {
                let index = made.as_slice();
                let bytes = ShardBytes { index, slices };
                append_bytes(alloc, source, self.location, self.end, bytes)
            }
            Err(error) => Err(error),
        }
    }

    /// The bytes of the index of the pairs that are known, where each subchunk is present and these
    /// codecs store an index as it stands in memory.
    fn index_as_is<X: ArrayToBytesCodecTraits>(&self, codecs: &X) -> Option<&[u8]>
        requires { index_fits (X.meaning codecs.now) (known_shape self.now) ≡ true }
        ensures lent { IfSome result (λ index. IsIndexWritten (X.meaning codecs.now)
            (X.is_function codecs.now) (known_shape self.now) (pairs_in self.now) index.now) }
        ensures made { IfNone result ((encodes_as_is (X.meaning codecs.now) ≡ false)
            ⊎ (count_present (pairs_in self.now) ≢ length (pairs_in self.now))) }
    {
        if !codecs.encodes_as_is() {
            return None;
        }
        let index = self.pairs.full()?;
        Some(index.as_bytes())
    }
}
