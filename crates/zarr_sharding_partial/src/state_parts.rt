//! Elements read from the shard of an array.
use crate::shard_state::ShardState;
use std::alloc::Global;
use std::marker::Sync;
use std::thread::Threads;
use zarr_codecs_arrays::{ArrayBytes, CodecError};
use zarr_codecs_options::CodecOptions;
use zarr_codecs_regions::test_asked;
use zarr_codecs_traits::{ArrayToBytesCodecTraits, BytesPartialEncoderTraits, Indexer};
use zarr_sharding_codec::{IndexedPlaces, OpenedShard};

impl<
    'a,
    I: ArrayToBytesCodecTraits + Sync,
    X: ArrayToBytesCodecTraits + Sync,
    E: BytesPartialEncoderTraits,
> ShardState<'a, I, X, E> {
    ghost use Rattle.std.specs.Prelude.{◌≡◌, ◌≤◌, ◌+◌, IsTrue};
    ghost use Rattle.zarr_codecs_traits.specs.Indexers.{asked_of};
    ghost use Rattle.zarr_codecs_traits.specs.Sources.{CountsRead};
    ghost use Rattle.zarr_sharding_partial.specs.Calls.{known_slices_met};
    ghost use Rattle.zarr_sharding_partial.specs.Tables.{IsTold};
    ghost use Rattle.zarr_sharding_partial.specs.States.{codec_of, held_of, known_of, shard_of, source_of};
    ghost use Rattle.zarr_sharding_partial.specs.Parts.{ReadsPart};

    /// The elements at the places that are asked for, in their order; each is the fill value where
    /// its subchunk is absent. The index that is kept says where each subchunk stands: each slice
    /// that the places lie in is fetched once, and nothing else. `IncompatibleIndexer` where a
    /// place isn't one of the array's; `Damage` where a place that is asked for cannot be decoded;
    /// `Size` where the array has 2^63 bytes or more; `Source` where the source refuses.
    #[tactic(auto, using(zarr_codecs_traits::proofs::CountedReads::read_counted, zarr_codecs_traits::proofs::CountedReads::refusal_counted))]
    pub fn partial_decode<R: Threads + Sync>(
        &mut self,
        rt: &R,
        alloc: Global,
        indexer: Indexer<'_>,
        options: &CodecOptions,
    ) -> Result<ArrayBytes, CodecError>
        ensures part { IsTrue (E.is_honest (source_of self.old)) → IsTold
            (shard_of I.meaning X.meaning self.old) (held_of E.contents self.old) → ReadsPart
            (shard_of I.meaning X.meaning self.old) (E.contents (source_of self.old))
            (asked_of indexer.entry) result }
        ensures refused { CountsRead (E.refused_calls (source_of self.old)) result
            (E.refused_calls (source_of self.new)) }
        ensures given { IsTrue (E.is_honest (source_of self.old)) →
            E.given_bytes (source_of self.new) ≤ E.given_bytes (source_of self.old)
            + known_slices_met (shard_of I.meaning X.meaning self.old) (known_of self.old)
            (asked_of indexer.entry) }
        ensures follows { E.follows (source_of self.old) (source_of self.new) }
        ensures held { held_of E.contents self.new ≡ held_of E.contents self.old }
        ensures codec { codec_of self.new ≡ codec_of self.old }
        ensures shard { shard_of I.meaning X.meaning self.new
            ≡ shard_of I.meaning X.meaning self.old }
    {
        if let Err(error) = test_asked(self.shape, indexer) {
            return Err(error);
        }
        let shard = OpenedShard {
            pairs: self.known.pairs(),
            total: self.known.total(),
            elements: self.elements,
        };
        let asked = IndexedPlaces {
            shape: self.shape,
            indexer,
        };
        self.codec.read_asked(alloc, &mut self.source, shard, asked)
    }
}
