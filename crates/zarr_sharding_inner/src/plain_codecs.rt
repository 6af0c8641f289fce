//! Codecs in which there are no shards: options for shards leave them as they are.
use crate::options::{ShardingCodecOptions, TakesShardingOptions};
use zarr_codecs_bytes::BytesCodec;
use zarr_codecs_packbits::PackBitsCodec;

impl TakesShardingOptions for BytesCodec {
    ghost use Rattle.std.specs.Prelude.{◌≡◌, [], true};

    ghost orders = { λ _. [] };

    ghost can_be_exact = { λ _. true };

    ghost same_codecs = { λ codec other. other ≡ codec };

    fn with_codec_specific_options(self, _: ShardingCodecOptions) -> BytesCodec {
        self
    }
}

impl TakesShardingOptions for PackBitsCodec {
    ghost use Rattle.std.specs.Prelude.{◌≡◌, [], true};

    ghost orders = { λ _. [] };

    ghost can_be_exact = { λ _. true };

    ghost same_codecs = { λ codec other. other ≡ codec };

    fn with_codec_specific_options(self, _: ShardingCodecOptions) -> PackBitsCodec {
        self
    }
}
