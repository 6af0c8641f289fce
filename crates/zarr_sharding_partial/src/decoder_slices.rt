//! The slices of a shard's subchunks.
use crate::partial_decoder::ShardingPartialDecoder;
use std::alloc::Global;
use zarr_codecs_arrays::CodecError;
use zarr_codecs_traits::{ArrayToBytesCodecTraits, ByteRange, BytesPartialDecoderTraits};
use zarr_grids_boxes::ravel_indices;
use zarr_sharding_index::fetched_index::fetch_slice;
use zarr_sharding_index::pair::is_absent;

impl<
    'a,
    I: ArrayToBytesCodecTraits,
    X: ArrayToBytesCodecTraits,
    D: BytesPartialDecoderTraits,
> ShardingPartialDecoder<'a, I, X, D> {
    ghost use Rattle.std.specs.Prelude.{◌≡◌, ◌≤◌, ◌+◌, ℕ, IsTrue};
    ghost use Rattle.zarr_codecs_traits.specs.Sources.{refused_after, value_length};
    ghost use Rattle.zarr_sharding_partial.specs.Pairs.{FindsPair, RetrievesSlice, stored_slice};
    ghost use Rattle.zarr_sharding_partial.specs.Decoders.{pairs_held, reference_of, shard_of, source_of};

    /// Where the encoded bytes of the subchunk at these indices stand in the shard, or `None` where
    /// the subchunk is absent. Whether the range ends past the end of the shard isn't asked.
    /// `IncompatibleIndexer` where there is no such subchunk.
    pub fn subchunk_byte_range(
        &self,
        subchunk_indices: &[u64],
    ) -> Result<Option<ByteRange>, CodecError>
        ensures pair { IsTrue (D.is_honest (source_of self.now)) → FindsPair
            (shard_of I.meaning X.meaning self.now) (D.contents (source_of self.now))
            subchunk_indices.now result }
        ensures no_source { (count : ℕ) → refused_after count result ≡ count }
    {
        let Some(number) = ravel_indices(subchunk_indices, self.grid.as_slice()) else {
            return Err(CodecError::IncompatibleIndexer);
        };
        let Some(held) = &self.held else {
            return Ok(None);
        };
        let pair = held.pairs.get(number as usize);
        if is_absent(pair) {
            return Ok(None);
        }
        Ok(Some(pair))
    }

    /// The encoded bytes of the subchunk at these indices, or `None` where the subchunk is absent.
    /// Nothing else is fetched. `IncompatibleIndexer` where there is no such subchunk; `Damage`
    /// where its pair ends past the end of the shard; `Source` where the source refuses.
    pub fn retrieve_subchunk_encoded(
        &mut self,
        alloc: Global,
        subchunk_indices: &[u64],
    ) -> Result<Option<Vec<u8>>, CodecError>
        ensures slice { IsTrue (D.is_honest (source_of self.old)) → RetrievesSlice
            (shard_of I.meaning X.meaning self.old) (D.contents (source_of self.old))
            subchunk_indices.now result }
        ensures refused { D.refused_calls (source_of self.new) ≡
            refused_after (D.refused_calls (source_of self.old)) result }
        ensures given { IsTrue (D.is_honest (source_of self.old)) →
            D.given_bytes (source_of self.new) ≤ D.given_bytes (source_of self.old) + value_length
            (stored_slice (shard_of I.meaning X.meaning self.old) (D.contents (source_of self.old))
            subchunk_indices.now) }
        ensures follows { D.follows (source_of self.old) (source_of self.new) }
        ensures same_reference { reference_of self.new ≡ reference_of self.old }
        ensures shard { shard_of I.meaning X.meaning self.new
            ≡ shard_of I.meaning X.meaning self.old }
        ensures pairs { pairs_held self.new ≡ pairs_held self.old }
    {
        let range = match self.subchunk_byte_range(subchunk_indices) {
            Ok(Some(range)) => range,
            Ok(None) => return Ok(None),
            Err(error) => return Err(error),
        };
        let Some(held) = &self.held else {
            return Ok(None);
        };
        match fetch_slice(alloc, self.source, held.total, range) {
            Ok(slice) => Ok(Some(slice)),
            Err(error) => Err(error),
        }
    }
}
