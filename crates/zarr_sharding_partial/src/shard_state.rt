//! The shard of an array over a source of its own.
ghost use Rattle.std.specs.Prelude.{◌≡◌, ◌<◌, ◌^◌, IsTrue, true};
ghost use Rattle.std.proofs.Props.{props};
ghost use Rattle.zarr_codecs_arrays.specs.Views.{elements_of};
ghost use Rattle.zarr_codecs_meaning.specs.Encoding.{index_size};
ghost use Rattle.zarr_codecs_meaning.specs.Fits.{fits, is_lossless};
ghost use Rattle.zarr_codecs_meaning.specs.Places.{index_shape};
ghost use Rattle.zarr_codecs_meaning.specs.Types.{uint64};
ghost use Rattle.zarr_grids_boxes.specs.Boxes.{product};
ghost use Rattle.zarr_sharding_partial.specs.Tables.{TellsAgain};
ghost use Rattle.zarr_sharding_codec.specs.Views.{index_of, shard_chain, subchunk_of, place_of_index};
ghost use Rattle.zarr_sharding_partial.specs.Decoders.{shard_in};
ghost use Rattle.zarr_sharding_index.specs.Known.{end_of, pairs_in, known_location, known_shape, known_length};

use zarr_codecs_arrays::Elements;
use zarr_codecs_traits::{ArrayToBytesCodecTraits, BytesPartialEncoderTraits};
use zarr_sharding_codec::ShardingCodec;
use zarr_sharding_index::KnownShard;

/// The shard of an array over a source of its own, or none, whose elements are all the fill value
/// then. Its index is kept from one write to the next. Parts of the array are written by appending
/// the subchunks that they meet. Where the codecs of the index keep every bit, what is known of the
/// shard is what an honest source holds, after each call.
#[derive(Drop)]
pub struct ShardState<
    'a,
    I: ArrayToBytesCodecTraits,
    X: ArrayToBytesCodecTraits,
    E: BytesPartialEncoderTraits,
> {
    pub(crate) codec: &'a ShardingCodec<I, X>,
    pub(crate) elements: &'a Elements,
    pub(crate) shape: &'a [u64],
    pub(crate) source: E,
    pub(crate) known: KnownShard,
    ghost fit: { fits (shard_chain I.meaning X.meaning codec.now) (elements_of elements.now).type
        shape.now ≡ true },
    ghost small: { product shape.now < 2 ^ 63 },
    ghost located: { known_location known ≡ place_of_index codec.now },
    ghost cut: { known_shape known ≡ index_shape shape.now (subchunk_of codec.now) },
    ghost sized: { known_length known ≡ index_size (X.meaning (index_of codec.now))
        (index_shape shape.now (subchunk_of codec.now)) },
    ghost told: { IsTrue (E.is_honest source) →
        is_lossless (X.meaning (index_of codec.now)) uint64 ≡ true → TellsAgain
        (shard_in I.meaning X.meaning codec.now (elements_of elements.now) shape.now)
        (E.contents source) (pairs_in known) (end_of known) } by { Prim.hlevel props },
}

impl<
    'a,
    I: ArrayToBytesCodecTraits,
    X: ArrayToBytesCodecTraits,
    E: BytesPartialEncoderTraits,
> ShardState<'a, I, X, E> {
    ghost use Rattle.std.specs.Prelude.{◌≡◌, IsTrue, true};
    ghost use Rattle.zarr_codecs_meaning.specs.Fits.{is_lossless};
    ghost use Rattle.zarr_codecs_meaning.specs.Types.{uint64};
    ghost use Rattle.zarr_sharding_partial.specs.Tables.{IsTold};
    ghost use Rattle.zarr_sharding_partial.specs.States.{codec_of, held_of, shard_of, source_of};
    ghost use Rattle.zarr_sharding_codec.specs.Views.{index_of};

    /// Does nothing: its contract is a law. Where the codecs of the index keep every bit, what is
    /// known of the shard is what an honest source holds.
    pub fn is_told(&self)
        ensures { IsTrue (E.is_honest (source_of self.now)) →
            is_lossless (X.meaning (index_of (codec_of self.now))) uint64 ≡ true → IsTold
            (shard_of I.meaning X.meaning self.now) (held_of E.contents self.now) }
    {}

    /// The source.
    pub fn into_source(self) -> E
        ensures { result ≡ source_of self.entry }
    {
        self.source
    }
}
