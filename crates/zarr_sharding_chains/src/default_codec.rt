//! The codecs between arrays and bytes that data types have where none is said.
ghost use Rattle.std.specs.Prelude.{◌≡◌, None, IfOk};
ghost use Rattle.zarr_codecs_types.specs.Views.{type_of};
ghost use Rattle.zarr_codecs_chains.specs.Views.{codec_chain, meaning_of};
ghost use Rattle.zarr_codecs_meaning.specs.Chains.Chain.{optional, packbits};
ghost use Rattle.zarr_codecs_meaning.specs.Chains.Padding.{no_padding_byte};
ghost use Rattle.zarr_sharding_chains.specs.Builders.{default_chain};

use std::alloc::{AllocError, Global};
use zarr_codecs_bytes::BytesCodec;
use zarr_codecs_chains::{ArrayToBytesCodec, CodecChain, OptionalCodec, VlenCodec};
use zarr_codecs_packbits::PackBitsCodec;
use zarr_codecs_traits::BytesToBytesCodecTraits;
use zarr_codecs_types::DataType;

/// The codec of a data type. `Err` only where an allocation failed.
pub(crate) fn default_codec<B: BytesToBytesCodecTraits>(
    alloc: Global,
    data_type: &DataType,
) -> Result<ArrayToBytesCodec<B>, AllocError>
    ensures { IfOk result
        (λ codec. codec_chain B.meaning codec ≡ default_chain (type_of data_type.now)) }
{
    match data_type {
        DataType::Optional(inner) => {
            let values = default_codec(alloc, inner)?;
            default_optional(alloc, values)
        }
        DataType::String | DataType::Bytes => {
            let codec = VlenCodec::new_default(alloc);
            Ok(ArrayToBytesCodec::Vlen(Box::new(alloc, codec)?))
        }
        _ => Ok(ArrayToBytesCodec::Bytes(BytesCodec::little())),
    }
}

/// `optional` with a mask by `packbits` and this codec of the elements that are present, which
/// takes each shape. `Err` only where an allocation failed.
fn default_optional<B: BytesToBytesCodecTraits>(
    alloc: Global,
    values: ArrayToBytesCodec<B>,
) -> Result<ArrayToBytesCodec<B>, AllocError>
    ensures { IfOk result (λ codec. codec_chain B.meaning codec
        ≡ optional (packbits no_padding_byte 0 None) (codec_chain B.meaning values)) }
{
    let mask = alone(alloc, ArrayToBytesCodec::PackBits(PackBitsCodec::default()));
    match OptionalCodec::new(mask, alone(alloc, values)) {
        Ok(codec) => Ok(ArrayToBytesCodec::Optional(Box::new(alloc, codec)?)),
        Err(_refused) => Err(AllocError),
    }
}

/// The chain of a codec alone.
fn alone<B: BytesToBytesCodecTraits>(alloc: Global, codec: ArrayToBytesCodec<B>) -> CodecChain<B>
    ensures { meaning_of B.meaning result ≡ codec_chain B.meaning codec }
{
    CodecChain::new(Vec::new(alloc), codec, Vec::new(alloc))
}
