//! Where the array to array codecs of a chain stand.
ghost use Rattle.std.specs.Prelude.{◌≡◌};
ghost use Rattle.zarr_codecs_metadata.specs.Allowed.{has_no_array_codec, is_allowed};
ghost use Rattle.zarr_codecs_chains.specs.Views.{codec_chain, meaning_of};

use crate::array_to_bytes::ArrayToBytesCodec;
use crate::chain::CodecChain;
use crate::fitting::takes_each_shape;
use zarr_codecs_traits::BytesToBytesCodecTraits;

/// Whether array to array codecs stand in a chain only where they may.
#[cycle(allowing)]
pub(crate) fn is_allowed<B: BytesToBytesCodecTraits>(chain: &CodecChain<B>) -> bool
    ensures { result ≡ is_allowed (meaning_of B.meaning chain.now) }
{
    codec_is_allowed(&chain.others.array_to_bytes)
}

/// Whether they do in an array to bytes codec.
#[cycle(allowing)]
pub(crate) fn codec_is_allowed<B: BytesToBytesCodecTraits>(codec: &ArrayToBytesCodec<B>) -> bool
    ensures { result ≡ is_allowed (codec_chain B.meaning codec.now) }
{
    match codec {
        ArrayToBytesCodec::Bytes(_) | ArrayToBytesCodec::PackBits(_) => true,
        ArrayToBytesCodec::Vlen(codec) => {
            is_allowed(&codec.index_codecs)
                && has_no_array_codec(&codec.data_codecs)
                && is_allowed(&codec.data_codecs)
        }
        ArrayToBytesCodec::Optional(codec) => {
            is_allowed(&codec.mask_codecs) && takes_each_shape(&codec.data_codecs)
        }
    }
}

/// Whether a chain itself has no array to array codec.
pub(crate) fn has_no_array_codec<B: BytesToBytesCodecTraits>(chain: &CodecChain<B>) -> bool
    ensures { result ≡ has_no_array_codec (meaning_of B.meaning chain.now) }
{
    chain.array_to_array.is_empty()
}
