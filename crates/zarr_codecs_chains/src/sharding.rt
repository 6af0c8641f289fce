//! Chains without shards in shards: what they make depends on the elements alone, and options for
//! shards leave them as they are.
use crate::chain::CodecChain;
use zarr_codecs_traits::BytesToBytesCodecTraits;
use zarr_sharding_inner::{IndexCodec, ShardingCodecOptions, TakesShardingOptions};

impl<B: BytesToBytesCodecTraits> IndexCodec for CodecChain<B> {
    ghost use Rattle.std.specs.Prelude.{refl};

    ghost alike = { λ codec. refl };
}

impl<B: BytesToBytesCodecTraits> TakesShardingOptions for CodecChain<B> {
    ghost use Rattle.std.specs.Prelude.{◌≡◌, [], true};

    ghost orders = { λ _. [] };

    ghost can_be_exact = { λ _. true };

    ghost same_codecs = { λ chain other. other ≡ chain };

    fn with_codec_specific_options(self, _: ShardingCodecOptions) -> CodecChain<B> {
        self
    }
}
