//! Which arrays a chain suits.
ghost use Rattle.std.specs.Prelude.{◌≡◌, ◌<◌, ◌≤◌, ◌+◌, ◌^◌, ℕ, List, IfOk, [], ◌∷◌, ◌&&◌, true};
ghost use Rattle.zarr_grids_boxes.specs.Boxes.{product};
ghost use Rattle.zarr_codecs_meaning.specs.Fits.{fits, takes_each_shape};
ghost use Rattle.zarr_codecs_meaning.specs.Types.{integer, unsigned};
ghost use Rattle.zarr_codecs_sections.specs.Views.{width_of};
ghost use Rattle.zarr_codecs_types.specs.Views.{type_of};
ghost use Rattle.zarr_codecs_chains.specs.Views.{codec_chain, meaning_of, optional_chain, vlen_chain};

use crate::array_to_bytes::ArrayToBytesCodec;
use crate::chain::CodecChain;
use crate::optional::OptionalCodec;
use crate::vlen::VlenCodec;
use std::alloc::{AllocError, Global};
use zarr_codecs_around::array_codecs::shape_after;
use zarr_codecs_arrays::CodecError;
use zarr_codecs_sections::VlenIndexDataType;
use zarr_codecs_traits::{ArrayToBytesCodecTraits, BytesToBytesCodecTraits};
use zarr_codecs_types::DataType;
use zarr_grids_boxes::walk::count_places;

/// Whether a chain suits arrays of a data type and a shape. `Err` only where an allocation failed.
#[cycle(fitting)]
pub(crate) fn fits_chain<B: BytesToBytesCodecTraits>(
    chain: &CodecChain<B>,
    alloc: Global,
    data_type: &DataType,
    shape: &[u64],
) -> Result<bool, AllocError>
    ensures { IfOk result (λ fit. fit ≡ fits (meaning_of B.meaning chain.now)
        (type_of data_type.now) shape.now) }
{
    let codec = &chain.others.array_to_bytes;
    if chain.array_to_array.is_empty() {
        return fits_codec(codec, alloc, data_type, shape);
    }
    match shape_after(alloc, chain.array_to_array.as_slice(), shape) {
        Ok(last) => fits_codec(codec, alloc, data_type, last.as_slice()),
        Err(CodecError::Fit) => Ok(false),
        Err(_) => Err(AllocError),
    }
}

/// Whether an array to bytes codec suits them.
#[cycle(fitting)]
pub(crate) fn fits_codec<B: BytesToBytesCodecTraits>(
    codec: &ArrayToBytesCodec<B>,
    alloc: Global,
    data_type: &DataType,
    shape: &[u64],
) -> Result<bool, AllocError>
    ensures { IfOk result (λ fit. fit ≡ fits (codec_chain B.meaning codec.now)
        (type_of data_type.now) shape.now) }
{
    match codec {
        ArrayToBytesCodec::Bytes(codec) => codec.fits(alloc, data_type, shape),
        ArrayToBytesCodec::PackBits(codec) => codec.fits(alloc, data_type, shape),
        ArrayToBytesCodec::Vlen(codec) => fits_vlen(codec, alloc, data_type, shape),
        ArrayToBytesCodec::Optional(codec) => fits_optional(codec, alloc, data_type, shape),
    }
}

/// Whether `vlen` suits them.
#[cycle(fitting)]
pub(crate) fn fits_vlen<B: BytesToBytesCodecTraits>(
    codec: &VlenCodec<B>,
    alloc: Global,
    data_type: &DataType,
    shape: &[u64],
) -> Result<bool, AllocError>
    ensures { IfOk result (λ fit. fit ≡ fits (vlen_chain B.meaning codec.now)
        (type_of data_type.now) shape.now) }
{
    if !data_type.is_variable() {
        return Ok(false);
    }
    if !fits_offsets(&codec.index_codecs, alloc, codec.index_data_type, shape)? {
        return Ok(false);
    }
    fits_each_shape(&codec.data_codecs, alloc, &DataType::UInt8)
}

/// Whether a chain suits the offsets of an array's elements, which are one more than these.
#[cycle(fitting)]
fn fits_offsets<B: BytesToBytesCodecTraits>(
    chain: &CodecChain<B>,
    alloc: Global,
    index_data_type: VlenIndexDataType,
    shape: &[u64],
) -> Result<bool, AllocError>
    ensures { IfOk result (λ fit. fit ≡ fits (meaning_of B.meaning chain.now)
        (integer unsigned (width_of index_data_type)) ((product shape.now + 1) ∷ [])) }
{
    let offsets = index_data_type.data_type();
    fits_chain(chain, alloc, &offsets, &[count_offsets(shape)])
}

/// How many offsets `vlen` keeps for an array: one more than there are elements. 2^63 stands for
/// each larger number, since chains suit these alike.
fn count_offsets(shape: &[u64]) -> u64
    ensures few { product shape.now < 2 ^ 63 → result ≡ product shape.now + 1 }
    ensures many { 2 ^ 63 ≤ product shape.now → result ≡ 2 ^ 63 }
{
    match count_places(shape) {
        Some(count) => count + 1,
        None => 1 << 63,
    }
}

/// Whether `optional` suits them.
#[cycle(fitting)]
pub(crate) fn fits_optional<B: BytesToBytesCodecTraits>(
    codec: &OptionalCodec<B>,
    alloc: Global,
    data_type: &DataType,
    shape: &[u64],
) -> Result<bool, AllocError>
    ensures { IfOk result (λ fit. fit ≡ fits (optional_chain B.meaning codec.now)
        (type_of data_type.now) shape.now) }
{
    let Some(inner) = data_type.inner() else {
        return Ok(false);
    };
    if !fits_chain(&codec.mask_codecs, alloc, &DataType::Bool, shape)? {
        return Ok(false);
    }
    fits_each_shape(&codec.data_codecs, alloc, inner)
}

/// Whether a chain does the same for each shape, and suits arrays of a data type.
fn fits_each_shape<B: BytesToBytesCodecTraits>(
    chain: &CodecChain<B>,
    alloc: Global,
    data_type: &DataType,
) -> Result<bool, AllocError>
    ensures { IfOk result (λ fit. fit ≡ (takes_each_shape (meaning_of B.meaning chain.now)
        && fits (meaning_of B.meaning chain.now) (type_of data_type.now) (0 ∷ []))) }
{
    if !takes_each_shape(chain) {
        return Ok(false);
    }
    fits_alike(chain, alloc, data_type)
}

/// Whether a chain that does the same for each shape suits arrays of a data type. That those inside
/// of it do the same isn't asked again.
#[cycle(fitting_alike)]
fn fits_alike<B: BytesToBytesCodecTraits>(
    chain: &CodecChain<B>,
    alloc: Global,
    data_type: &DataType,
) -> Result<bool, AllocError>
    ensures { (shape : List ℕ) → takes_each_shape (meaning_of B.meaning chain.now) ≡ true
        → IfOk result (λ fit. fit ≡ fits (meaning_of B.meaning chain.now)
        (type_of data_type.now) shape) }
{
    codec_fits_alike(&chain.others.array_to_bytes, alloc, data_type)
}

/// Whether an array to bytes codec does that does the same for each shape.
#[cycle(fitting_alike)]
fn codec_fits_alike<B: BytesToBytesCodecTraits>(
    codec: &ArrayToBytesCodec<B>,
    alloc: Global,
    data_type: &DataType,
) -> Result<bool, AllocError>
    ensures { (shape : List ℕ) → takes_each_shape (codec_chain B.meaning codec.now) ≡ true
        → IfOk result
        (λ fit. fit ≡ fits (codec_chain B.meaning codec.now) (type_of data_type.now) shape) }
{
    match codec {
        ArrayToBytesCodec::Bytes(codec) => codec.fits(alloc, data_type, &[]),
        ArrayToBytesCodec::PackBits(codec) => codec.fits(alloc, data_type, &[]),
        ArrayToBytesCodec::Vlen(codec) => vlen_fits_alike(codec, alloc, data_type),
        ArrayToBytesCodec::Optional(codec) => optional_fits_alike(codec, alloc, data_type),
    }
}

/// Whether `vlen` does that does the same for each shape.
#[cycle(fitting_alike)]
fn vlen_fits_alike<B: BytesToBytesCodecTraits>(
    codec: &VlenCodec<B>,
    alloc: Global,
    data_type: &DataType,
) -> Result<bool, AllocError>
    ensures { (shape : List ℕ) → takes_each_shape (vlen_chain B.meaning codec.now) ≡ true
        → IfOk result
        (λ fit. fit ≡ fits (vlen_chain B.meaning codec.now) (type_of data_type.now) shape) }
{
    if !data_type.is_variable() {
        return Ok(false);
    }
    let offsets = codec.index_data_type.data_type();
    if !fits_alike(&codec.index_codecs, alloc, &offsets)? {
        return Ok(false);
    }
    fits_alike(&codec.data_codecs, alloc, &DataType::UInt8)
}

/// Whether `optional` does that does the same for each shape.
#[cycle(fitting_alike)]
fn optional_fits_alike<B: BytesToBytesCodecTraits>(
    codec: &OptionalCodec<B>,
    alloc: Global,
    data_type: &DataType,
) -> Result<bool, AllocError>
    ensures { (shape : List ℕ) → takes_each_shape (optional_chain B.meaning codec.now) ≡ true
        → IfOk result (λ fit. fit ≡ fits (optional_chain B.meaning codec.now)
        (type_of data_type.now) shape) }
{
    let Some(inner) = data_type.inner() else {
        return Ok(false);
    };
    if !fits_alike(&codec.mask_codecs, alloc, &DataType::Bool)? {
        return Ok(false);
    }
    fits_alike(&codec.data_codecs, alloc, inner)
}

/// Whether a chain does the same for each shape: it holds no array to array codec, nor does a chain
/// inside of it.
#[cycle(taking)]
pub(crate) fn takes_each_shape<B: BytesToBytesCodecTraits>(chain: &CodecChain<B>) -> bool
    ensures { result ≡ takes_each_shape (meaning_of B.meaning chain.now) }
{
    chain.array_to_array.is_empty() && codec_takes_each_shape(&chain.others.array_to_bytes)
}

/// Whether an array to bytes codec does.
#[cycle(taking)]
fn codec_takes_each_shape<B: BytesToBytesCodecTraits>(codec: &ArrayToBytesCodec<B>) -> bool
    ensures { result ≡ takes_each_shape (codec_chain B.meaning codec.now) }
{
    match codec {
        ArrayToBytesCodec::Bytes(_) | ArrayToBytesCodec::PackBits(_) => true,
        ArrayToBytesCodec::Vlen(codec) => {
            takes_each_shape(&codec.index_codecs) && takes_each_shape(&codec.data_codecs)
        }
        ArrayToBytesCodec::Optional(codec) => {
            takes_each_shape(&codec.mask_codecs) && takes_each_shape(&codec.data_codecs)
        }
    }
}
