//! Parts of an array written into its shard.
use crate::given_elements::test_given;
use crate::shard_state::ShardState;
use std::alloc::Global;
use std::marker::Sync;
use std::thread::Threads;
use zarr_codecs_arrays::{ArrayBytes, CodecError};
use zarr_codecs_options::CodecOptions;
use zarr_codecs_traits::{ArrayToBytesCodecTraits, BytesPartialEncoderTraits, Indexer, WholeArray};
use zarr_sharding_codec::{AskedElements, ShardInSource};

impl<
    'a,
    I: ArrayToBytesCodecTraits + Sync,
    X: ArrayToBytesCodecTraits + Sync,
    E: BytesPartialEncoderTraits,
> ShardState<'a, I, X, E> {
    ghost use Rattle.std.specs.Prelude.{List, IfErr, IsTrue, OnOk};
    ghost use Rattle.zarr_codecs_meaning.specs.Types.{Cell};
    ghost use Rattle.zarr_codecs_traits.specs.Indexers.{asked_of};
    ghost use Rattle.zarr_sharding_partial.specs.Calls.{CalledToWrite, GivesToWrite, known_slices_met};
    ghost use Rattle.zarr_sharding_partial.specs.Puts.{IsPutInto, NotPutInto};
    ghost use Rattle.zarr_sharding_partial.specs.Tables.{IsTold};
    ghost use Rattle.zarr_sharding_partial.specs.States.{held_of, known_of, putting_of, shard_of, source_of};

    /// Puts elements at the places that are asked for, as
    /// `ArrayToBytesCodecTraits::partial_encode` does, with its errors; `Size` also where the shard
    /// would have 2^63 bytes or more: slices are only appended. An `Err` leaves the shard as it
    /// was. An honest source gives at most the slices that are met, and, where it writes no ranges,
    /// the value once.
    pub fn partial_encode<R: Threads + Sync>(
        &mut self,
        rt: &R,
        alloc: Global,
        indexer: Indexer<'_>,
        bytes: ArrayBytes,
        options: &CodecOptions,
    ) -> Result<(), CodecError>
        ensures ok { IsTrue (E.is_honest (source_of self.old)) → IsTold
            (shard_of I.meaning X.meaning self.old) (held_of E.contents self.old) → OnOk result
            ((cells : List Cell) × IsPutInto (putting_of self.old indexer.entry bytes) cells
            (held_of E.contents self.old) (held_of E.contents self.new)) }
        ensures cause { IsTrue (E.is_honest (source_of self.old)) → IsTold
            (shard_of I.meaning X.meaning self.old) (held_of E.contents self.old) → IfErr result
            (NotPutInto (putting_of self.old indexer.entry bytes) (held_of E.contents self.old)) }
        ensures given { GivesToWrite self.old self.new (known_slices_met
            (shard_of I.meaning X.meaning self.old) (known_of self.old)
            (asked_of indexer.entry)) result }
        ensures call { CalledToWrite self.old self.new result }
    {
        let array = WholeArray {
            elements: self.elements,
            shape: self.shape,
        };
        match test_given(array, indexer, &bytes) {
            Ok(()) => self.put_asked(alloc, indexer, bytes),
            Err(error) => Err(error),
        }
    }
}

impl<
    'a,
    I: ArrayToBytesCodecTraits,
    X: ArrayToBytesCodecTraits,
    E: BytesPartialEncoderTraits,
> ShardState<'a, I, X, E> {
    ghost use Rattle.std.specs.Prelude.{◌≡◌, true, IsTrue, OnOk};
    ghost use Rattle.zarr_codecs_traits.specs.Indexers.{are_inside, asked_of};
    ghost use Rattle.zarr_codecs_traits.specs.Writes.{WriteRefused};
    ghost use Rattle.zarr_sharding_partial.specs.Calls.{CalledToWrite, GivesToWrite, known_slices_met};
    ghost use Rattle.zarr_sharding_partial.specs.Puts.{ValidNotWritten, WritesValid};
    ghost use Rattle.zarr_sharding_partial.specs.Tables.{IsErased, IsTold};
    ghost use Rattle.zarr_sharding_partial.specs.States.{held_of, known_of, putting_of, shard_of, source_of};

    /// Puts elements at the places that are asked for, which are the array's. Errors as those of
    /// `partial_encode`.
    fn put_asked(
        &mut self,
        alloc: Global,
        indexer: Indexer<'_>,
        bytes: ArrayBytes,
    ) -> Result<(), CodecError>
        requires { are_inside (shard_of I.meaning X.meaning self.old).shape (asked_of indexer)
            ≡ true }
        ensures ok { IsTrue (E.is_honest (source_of self.old)) → IsTold
            (shard_of I.meaning X.meaning self.old) (held_of E.contents self.old) → WritesValid
            (putting_of self.old indexer.entry bytes) (held_of E.contents self.old)
            (held_of E.contents self.new) result }
        ensures cause { IsTrue (E.is_honest (source_of self.old)) → IsTold
            (shard_of I.meaning X.meaning self.old) (held_of E.contents self.old)
            → ValidNotWritten (putting_of self.old indexer.entry bytes)
            (held_of E.contents self.old) result }
        ensures given { GivesToWrite self.old self.new (known_slices_met
            (shard_of I.meaning X.meaning self.old) (known_of self.old)
            (asked_of indexer.entry)) result }
        ensures call { CalledToWrite self.old self.new result }
    {
        let shard = ShardInSource {
            known: &self.known,
            elements: self.elements,
        };
        let given = AskedElements {
            shape: self.shape,
            indexer,
            bytes,
        };
        match self
            .codec
            .update_asked(alloc, &mut self.source, shard, given)
        {
            Ok(changes) => {
                let codecs = self.codec.index_codecs();
                self.known
                    .write_given(alloc, &mut self.source, codecs, changes)
            }
            Err(error) => Err(error),
        }
    }

    /// Takes the shard away, so that all elements are the fill value, by one writing call. An `Err`
    /// leaves what the source holds and what is known of it as they were: `Source` where the source
    /// refuses. No byte is given to do so.
    pub fn erase(&mut self, alloc: Global) -> Result<(), CodecError>
        ensures ok { IsTrue (E.is_honest (source_of self.old)) → OnOk result (IsErased
            (shard_of I.meaning X.meaning self.old) (held_of E.contents self.new)) }
        ensures cause { WriteRefused result }
        ensures given { E.given_bytes (source_of self.new) ≡ E.given_bytes (source_of self.old) }
        ensures call { CalledToWrite self.old self.new result }
    {
        self.known.erase(alloc, &mut self.source)
    }
}
