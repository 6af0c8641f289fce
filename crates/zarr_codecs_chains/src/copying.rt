//! Copies of a chain, and of the chains inside of it.
ghost use Rattle.std.specs.Prelude.{◌≡◌, IfOk};
ghost use Rattle.zarr_grids_metadata.specs.ExtensionPoints.{ExtensionPoint};
ghost use Rattle.zarr_codecs_chains.specs.Names.{WritesAlike, optional_name, vlen_name};
ghost use Rattle.zarr_codecs_chains.specs.Views.{codec_chain, codec_point, given_to_optional, given_to_vlen, meaning_of, optional_chain, points_of, vlen_chain};

use crate::array_to_bytes::ArrayToBytesCodec;
use crate::bytes_chain::BytesChain;
use crate::chain::CodecChain;
use crate::optional::OptionalCodec;
use crate::vlen::VlenCodec;
use std::alloc::{AllocError, Global};
use zarr_codecs_around::array_metadata::array_copies;
use zarr_codecs_around::byte_codecs::copies;
use zarr_codecs_traits::BytesToBytesCodecTraits;

/// An equal chain, whose codecs keep their names. `Err` only where an allocation failed.
#[cycle(copying)]
#[tactic(auto, using(zarr_codecs_around::proofs::Copied::described_alike))]
pub(crate) fn copy_chain<B: BytesToBytesCodecTraits>(
    chain: &CodecChain<B>,
    alloc: Global,
) -> Result<CodecChain<B>, AllocError>
    ensures meaning { IfOk result
        (λ copy. meaning_of B.meaning copy ≡ meaning_of B.meaning chain.now) }
    ensures written { (described : B → ExtensionPoint) → WritesAlike B.meaning described
        → IfOk result (λ copy. points_of described copy ≡ points_of described chain.now) }
{
    let array_to_array = array_copies(alloc, chain.array_to_array.as_slice())?;
    let array_to_bytes = copy_codec(&chain.others.array_to_bytes, alloc)?;
    let bytes_to_bytes = copies(alloc, chain.others.bytes_to_bytes.as_slice())?;
    let others = BytesChain {
        array_to_bytes,
        bytes_to_bytes,
    };
    Ok(CodecChain {
        array_to_array,
        others,
    })
}

/// An equal array to bytes codec, under its name. `Err` only where an allocation failed.
#[cycle(copying)]
pub(crate) fn copy_codec<B: BytesToBytesCodecTraits>(
    codec: &ArrayToBytesCodec<B>,
    alloc: Global,
) -> Result<ArrayToBytesCodec<B>, AllocError>
    ensures meaning { IfOk result
        (λ copy. codec_chain B.meaning copy ≡ codec_chain B.meaning codec.now) }
    ensures written { (described : B → ExtensionPoint) → WritesAlike B.meaning described
        → IfOk result (λ copy. codec_point described copy ≡ codec_point described codec.now) }
{
    match codec {
        ArrayToBytesCodec::Bytes(codec) => Ok(ArrayToBytesCodec::Bytes(*codec)),
        ArrayToBytesCodec::PackBits(codec) => Ok(ArrayToBytesCodec::PackBits(*codec)),
        ArrayToBytesCodec::Vlen(codec) => {
            let copy = copy_vlen(codec, alloc)?;
            Ok(ArrayToBytesCodec::Vlen(Box::new(alloc, copy)?))
        }
        ArrayToBytesCodec::Optional(codec) => {
            let copy = copy_optional(codec, alloc)?;
            Ok(ArrayToBytesCodec::Optional(Box::new(alloc, copy)?))
        }
    }
}

/// An equal codec `vlen`, under its name.
#[cycle(copying)]
fn copy_vlen<B: BytesToBytesCodecTraits>(
    codec: &VlenCodec<B>,
    alloc: Global,
) -> Result<VlenCodec<B>, AllocError>
    ensures meaning { IfOk result
        (λ copy. vlen_chain B.meaning copy ≡ vlen_chain B.meaning codec.now) }
    ensures name { IfOk result (λ copy. vlen_name copy ≡ vlen_name codec.now) }
    ensures written { (described : B → ExtensionPoint) → WritesAlike B.meaning described → IfOk
        result (λ copy. given_to_vlen described copy ≡ given_to_vlen described codec.now) }
{
    let index_codecs = copy_chain(&codec.index_codecs, alloc)?;
    let data_codecs = copy_chain(&codec.data_codecs, alloc)?;
    Ok(VlenCodec {
        index_codecs,
        data_codecs,
        index_data_type: codec.index_data_type,
        index_location: codec.index_location,
        name: codec.name,
    })
}

/// An equal codec `optional`, under its name.
#[cycle(copying)]
fn copy_optional<B: BytesToBytesCodecTraits>(
    codec: &OptionalCodec<B>,
    alloc: Global,
) -> Result<OptionalCodec<B>, AllocError>
    ensures meaning { IfOk result
        (λ copy. optional_chain B.meaning copy ≡ optional_chain B.meaning codec.now) }
    ensures name { IfOk result (λ copy. optional_name copy ≡ optional_name codec.now) }
    ensures written { (described : B → ExtensionPoint) → WritesAlike B.meaning described → IfOk
        result (λ copy. given_to_optional described copy ≡ given_to_optional described codec.now) }
{
    let mask_codecs = copy_chain(&codec.mask_codecs, alloc)?;
    let data_codecs = copy_chain(&codec.data_codecs, alloc)?;
    Ok(OptionalCodec {
        mask_codecs,
        data_codecs,
        name: codec.name,
    })
}
