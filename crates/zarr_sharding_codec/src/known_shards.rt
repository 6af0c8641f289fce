//! What is known of the shard of an array in a source.
use crate::codec::ShardingCodec;
use std::alloc::Global;
use zarr_codecs_arrays::CodecError;
use zarr_codecs_traits::{ArrayToBytesCodecTraits, BytesPartialDecoderTraits};
use zarr_sharding_index::shapes::index_shape;
use zarr_sharding_index::{IndexLayout, KnownShard};

impl<I: ArrayToBytesCodecTraits, X: ArrayToBytesCodecTraits> ShardingCodec<I, X> {
    ghost use Rattle.std.specs.Prelude.{◌≡◌, ◌≤◌, ◌+◌, length, true, IfErr, IfOk, IsTrue};
    ghost use Rattle.zarr_codecs_meaning.specs.Encoding.{index_size};
    ghost use Rattle.zarr_codecs_meaning.specs.Places.{index_shape};
    ghost use Rattle.zarr_codecs_traits.specs.Sources.{refused_after, value_length};
    ghost use Rattle.zarr_sharding_codec.specs.Views.{index_of, place_of_index, subchunk_of};
    ghost use Rattle.zarr_sharding_index.specs.Opened.{IsLaid, IsOpenedAs, OpenRefused};
    ghost use Rattle.zarr_sharding_index.specs.Stored.{index_fits};

    /// What is known of the shard of an array of this shape that a source holds; its index has so
    /// many bytes. Errors as those of `KnownShard::open`.
    pub fn open_known<D: BytesPartialDecoderTraits>(
        &self,
        alloc: Global,
        source: &mut D,
        size: u64,
        shape: &[u64],
    ) -> Result<KnownShard, CodecError>
        requires rank { length shape.now ≡ length (subchunk_of self.now) }
        requires fit { index_fits (X.meaning (index_of self.now))
            (index_shape shape.now (subchunk_of self.now)) ≡ true }
        requires size { size ≡ index_size (X.meaning (index_of self.now))
            (index_shape shape.now (subchunk_of self.now)) }
        ensures opened { IsTrue (D.is_honest source.old) → IfOk result (IsOpenedAs
            (X.meaning (index_of self.now)) (place_of_index self.now)
            (index_shape shape.now (subchunk_of self.now)) (D.contents source.old)) }
        ensures laid { IfOk result (IsLaid (place_of_index self.now)
            (index_shape shape.now (subchunk_of self.now)) size) }
        ensures cause { IsTrue (D.is_honest source.old) → IfErr result (OpenRefused
            (X.meaning (index_of self.now)) (place_of_index self.now)
            (index_shape shape.now (subchunk_of self.now)) (D.contents source.old)) }
        ensures refused { D.refused_calls source.new ≡
            refused_after (D.refused_calls source.old) result }
        ensures given { IsTrue (D.is_honest source.old) →
            D.given_bytes source.new ≤ D.given_bytes source.old + size }
        ensures within { IsTrue (D.is_honest source.old) → D.given_bytes source.new
            ≤ D.given_bytes source.old + value_length (D.contents source.old) }
        ensures follows { D.follows source.old source.new }
    {
        let pairs_shape = index_shape(alloc, shape, &self.subchunk_shape)?;
        let layout = IndexLayout {
            location: self.index_location,
            shape: pairs_shape.as_slice(),
            size,
        };
        KnownShard::open(alloc, source, &self.index_codecs, layout)
    }
}
