//! Shards with the options that no document says.
use crate::codec::ShardingCodec;
use zarr_codecs_traits::ArrayToBytesCodecTraits;
use zarr_sharding_inner::{IndexCodec, ShardingCodecOptions, TakesShardingOptions};

impl<I: TakesShardingOptions, X: IndexCodec> TakesShardingOptions for ShardingCodec<I, X> {
    ghost use Rattle.std.specs.Prelude.{◌≡◌, ◌∷◌, ◌&&◌};
    ghost use Rattle.zarr_sharding_codec.specs.Views.{index_of, inner_of, order_of};

    ghost orders = { λ codec. order_of codec ∷ I.orders (inner_of codec) };

    ghost can_be_exact = { λ codec. I.can_be_exact (inner_of codec)
        && X.is_function (index_of codec) };

    ghost same_codecs = { λ codec other. I.same_codecs (inner_of codec) (inner_of other)
        × (index_of other ≡ index_of codec) };

    fn with_codec_specific_options(self, options: ShardingCodecOptions) -> Self {
        let ShardingCodec {
            subchunk_shape,
            inner_codecs,
            index_codecs,
            index_location,
            subchunk_write_order: _,
        } = self;
        ShardingCodec {
            subchunk_shape,
            inner_codecs: inner_codecs.with_codec_specific_options(options),
            index_codecs,
            index_location,
            subchunk_write_order: options.subchunk_write_order,
        }
    }
}

impl<I: TakesShardingOptions, X: ArrayToBytesCodecTraits> ShardingCodec<I, X> {
    ghost use Rattle.std.specs.Prelude.{◌≡◌, ◌∷◌, map};
    ghost use Rattle.zarr_sharding_codec.specs.Views.{index_of, inner_of, order_of, shard_chain};

    /// The codec with these options, for itself and for each shard inside of it.
    pub fn with_options(self, options: ShardingCodecOptions) -> ShardingCodec<I, X>
        ensures meaning { shard_chain I.meaning X.meaning result
            ≡ shard_chain I.meaning X.meaning self }
        ensures order { order_of result ≡ options.subchunk_write_order }
        ensures codecs { I.same_codecs (inner_of self) (inner_of result) }
        ensures inside { I.orders (inner_of result)
            ≡ map (λ _. options.subchunk_write_order) (I.orders (inner_of self)) }
        ensures index { index_of result ≡ index_of self }
    {
        let ShardingCodec {
            subchunk_shape,
            inner_codecs,
            index_codecs,
            index_location,
            subchunk_write_order: _,
        } = self;
        ShardingCodec {
            subchunk_shape,
            inner_codecs: inner_codecs.with_codec_specific_options(options),
            index_codecs,
            index_location,
            subchunk_write_order: options.subchunk_write_order,
        }
    }
}
