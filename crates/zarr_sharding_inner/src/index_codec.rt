//! Codecs that can encode the index of a shard.
ghost use Rattle.std.specs.Prelude.{◌≡◌, true};

use zarr_codecs_bytes::BytesCodec;
use zarr_codecs_packbits::PackBitsCodec;
use zarr_codecs_traits::ArrayToBytesCodecTraits;

/// A codec between arrays and bytes of which what it makes of elements depends on these alone, so
/// that the bytes of a shard's index depend on its pairs alone.
pub trait IndexCodec: ArrayToBytesCodecTraits {
    ghost alike: { (codec : Self) → Self.is_function codec ≡ true };
}

impl IndexCodec for BytesCodec {
    ghost use Rattle.std.specs.Prelude.{refl};

    ghost alike = { λ codec. refl };
}

impl IndexCodec for PackBitsCodec {
    ghost use Rattle.std.specs.Prelude.{refl};

    ghost alike = { λ codec. refl };
}
