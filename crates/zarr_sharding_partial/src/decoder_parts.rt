//! Elements read from a shard.
use crate::partial_decoder::ShardingPartialDecoder;
use std::alloc::Global;
use std::marker::Sync;
use std::thread::Threads;
use zarr_codecs_arrays::{ArrayBytes, CodecError};
use zarr_codecs_options::CodecOptions;
use zarr_codecs_regions::{fill_asked, test_asked};
use zarr_codecs_traits::{
    ArrayBytesDecodeIntoTarget, ArrayPart, ArrayToBytesCodecTraits, BytesPartialDecoderTraits,
    Indexer,
};
use zarr_grids_boxes::walk::count_places;
use zarr_sharding_codec::{IndexedPlaces, OpenedShard};

impl<
    'a,
    I: ArrayToBytesCodecTraits + Sync,
    X: ArrayToBytesCodecTraits + Sync,
    D: BytesPartialDecoderTraits,
> ShardingPartialDecoder<'a, I, X, D> {
    ghost use Rattle.std.specs.Prelude.{◌≡◌, ◌≤◌, ◌+◌, IfErr, IsTrue, OnErr, OnOk};
    ghost use Rattle.zarr_codecs_traits.specs.Indexers.{asked_of};
    ghost use Rattle.zarr_codecs_traits.specs.Sources.{CountsRead, IsRefusedAfter};
    ghost use Rattle.zarr_sharding_partial.specs.Parts.{GivesPart, IsPartInto, NotPartInto, ReadsPart, slices_met};
    ghost use Rattle.zarr_sharding_partial.specs.Decoders.{pairs_held, reference_of, shard_of, source_of};

    /// The elements at the places that are asked for, in their order; each is the fill value where
    /// the source holds no value, or its subchunk is absent. Each slice that the places lie in is
    /// fetched once, and nothing else. `IncompatibleIndexer` where a place isn't one of the
    /// array's; `Damage` where the pair of a subchunk that is met ends past the end of the shard,
    /// or a place that is asked for cannot be decoded; `Size` where the array has 2^63 elements or
    /// bytes or more; `Source` where the source refuses.
    #[tactic(auto, using(zarr_codecs_traits::proofs::CountedReads::read_counted, zarr_codecs_traits::proofs::CountedReads::refusal_counted))]
    pub fn partial_decode<R: Threads + Sync>(
        &mut self,
        rt: &R,
        alloc: Global,
        indexer: Indexer<'_>,
        options: &CodecOptions,
    ) -> Result<ArrayBytes, CodecError>
        ensures part { IsTrue (D.is_honest (source_of self.old)) → ReadsPart
            (shard_of I.meaning X.meaning self.old) (D.contents (source_of self.old))
            (asked_of indexer.entry) result }
        ensures refused { CountsRead (D.refused_calls (source_of self.old)) result
            (D.refused_calls (source_of self.new)) }
        ensures given { IsTrue (D.is_honest (source_of self.old)) →
            D.given_bytes (source_of self.new) ≤ D.given_bytes (source_of self.old) + slices_met
            (shard_of I.meaning X.meaning self.old) (D.contents (source_of self.old))
            (asked_of indexer.entry) }
        ensures follows { D.follows (source_of self.old) (source_of self.new) }
        ensures same_reference { reference_of self.new ≡ reference_of self.old }
        ensures shard { shard_of I.meaning X.meaning self.new
            ≡ shard_of I.meaning X.meaning self.old }
        ensures pairs { pairs_held self.new ≡ pairs_held self.old }
    {
        if let Err(error) = test_asked(self.shape, indexer) {
            return Err(error);
        }
        if count_places(self.shape).is_none() {
            return Err(CodecError::Size);
        }
        let Some(fetched) = &self.held else {
            let part = ArrayPart {
                elements: self.elements,
                shape: self.shape,
                indexer,
            };
            return fill_asked(alloc, part);
        };
        let shard = OpenedShard {
            pairs: &fetched.pairs,
            total: fetched.total,
            elements: self.elements,
        };
        let asked = IndexedPlaces {
            shape: self.shape,
            indexer,
        };
        self.codec.read_asked(alloc, self.source, shard, asked)
    }

    /// Reads as `partial_decode` does, and puts the elements over those of a target. A refusal
    /// leaves the target as it was. Errors as those of `partial_decode`, and of the target's `put`.
    pub fn partial_decode_into<R: Threads + Sync, T: ArrayBytesDecodeIntoTarget>(
        &mut self,
        rt: &R,
        alloc: Global,
        indexer: Indexer<'_>,
        target: &mut T,
        options: &CodecOptions,
    ) -> Result<(), CodecError>
        ensures ok { IsTrue (D.is_honest (source_of self.old)) → OnOk result (IsPartInto
            (shard_of I.meaning X.meaning self.old) (D.contents (source_of self.old))
            (asked_of indexer.entry) (λ payload. T.puts target.old payload target.new)) }
        ensures err { OnErr result (target.new ≡ target.old) }
        ensures cause { IsTrue (D.is_honest (source_of self.old)) → IfErr result (NotPartInto
            (shard_of I.meaning X.meaning self.old) (D.contents (source_of self.old))
            (asked_of indexer.entry) (T.misfits target.old)) }
        ensures refused { IsRefusedAfter (λ payload. IsTrue (D.is_honest (source_of self.old)) →
            GivesPart (shard_of I.meaning X.meaning self.old) (D.contents (source_of self.old))
            (asked_of indexer.entry) payload) (T.misfits target.old)
            (D.refused_calls (source_of self.old)) result (D.refused_calls (source_of self.new)) }
        ensures follows { D.follows (source_of self.old) (source_of self.new) }
        ensures given { IsTrue (D.is_honest (source_of self.old)) →
            D.given_bytes (source_of self.new) ≤ D.given_bytes (source_of self.old) + slices_met
            (shard_of I.meaning X.meaning self.old) (D.contents (source_of self.old))
            (asked_of indexer.entry) }
        ensures same_reference { reference_of self.new ≡ reference_of self.old }
        ensures shard { shard_of I.meaning X.meaning self.new
            ≡ shard_of I.meaning X.meaning self.old }
        ensures pairs { pairs_held self.new ≡ pairs_held self.old }
    {
        match self.partial_decode(rt, alloc, indexer, options) {
            Ok(elements) => target.put(alloc, &elements),
            Err(error) => Err(error),
        }
    }
}
