//! Elements encoded by a chain, and by the chains inside of it.
ghost use Rattle.std.specs.Prelude.{◌≡◌, ◌+◌, ◌<◌, ◌^◌, ℕ, List, [], ◌∷◌, Some, length, true, IsTrue};
ghost use Rattle.zarr_grids_boxes.specs.Boxes.{product};
ghost use Rattle.zarr_codecs_meaning.specs.Chains.{Chain};
ghost use Rattle.zarr_codecs_meaning.specs.Fits.{fits, takes_each_shape};
ghost use Rattle.zarr_codecs_meaning.specs.Payloads.{Payload};
ghost use Rattle.zarr_codecs_meaning.specs.Types as types;
ghost use Rattle.zarr_codecs_meaning.specs.Types.{is_value, IsTooLarge};
ghost use Rattle.zarr_codecs_types.specs.Views.{type_of};
ghost use Rattle.zarr_codecs_arrays.specs.Outcomes.{IsValid};
ghost use Rattle.zarr_codecs_arrays.specs.Views.{payload_of, elements_of};
ghost use Rattle.zarr_codecs_traits.specs.Arrays.{coded, coded_array};
ghost use Rattle.zarr_codecs_traits.specs.Outcomes.{Encodes};
ghost use Rattle.zarr_codecs_sections.specs.Outcomes.{IsContent, IsSplit};
ghost use Rattle.zarr_codecs_sections.specs.Views.{width_of};
ghost use Rattle.zarr_codecs_chains.specs.Chosen.{AreChosen, AreCounted, MakesChosen, SuitsChosen, chosen_type};
ghost use Rattle.zarr_codecs_chains.specs.Inside.{MakesContent, MakesInner, MakesSome};
ghost use Rattle.zarr_codecs_chains.specs.Views.{codec_chain, meaning_of, optional_chain, vlen_chain};

use crate::array_to_bytes::ArrayToBytesCodec;
use crate::chain::CodecChain;
use crate::chosen::{Chosen, choose};
use crate::fitting::{fits_codec, fits_optional, fits_vlen};
use crate::optional::OptionalCodec;
use crate::vlen::VlenCodec;
use std::alloc::Global;
use zarr_codecs_around::array_codecs::{move_all, shape_after};
use zarr_codecs_around::byte_codecs::{encode_all, encode_made};
use zarr_codecs_arrays::{ArrayBytes, CodecError, Elements};
use zarr_codecs_sections::{
    SplitOptions, choose_elements, join_index, join_mask, joined_bytes, offset_elements,
    split_chosen, split_options, zero_filled,
};
use zarr_codecs_traits::{ArrayToBytesCodecTraits, BytesToBytesCodecTraits, WholeArray};
use zarr_codecs_types::DataType;
use zarr_grids_boxes::walk::count_places;

/// What a chain makes of the elements of an array.
#[cycle(encoding)]
pub(crate) fn encode_chain<B: BytesToBytesCodecTraits>(
    chain: &CodecChain<B>,
    alloc: Global,
    bytes: ArrayBytes,
    array: WholeArray<'_>,
) -> Result<Vec<u8>, CodecError>
    ensures { Encodes (coded_array (meaning_of B.meaning chain.now) array.entry) true
        (payload_of bytes) result }
{
    let elements = array.elements;
    let codecs = chain.array_to_array.as_slice();
    let codec = &chain.others.array_to_bytes;
    let last = match shape_after(alloc, codecs, array.shape) {
        Ok(last) => last,
        Err(error) => return Err(error),
    };
    if !fits_codec(codec, alloc, elements.data_type(), last.as_slice())? {
        return Err(CodecError::Fit);
    }
    let moved = match move_all(alloc, codecs, bytes, elements, array.shape) {
        Ok(moved) => moved,
        Err(error) => return Err(error),
    };
    let inner = WholeArray {
        elements,
        shape: last.as_slice(),
    };
    let made = encode_codec(codec, alloc, moved, inner);
    encode_made(alloc, chain.others.bytes_to_bytes.as_slice(), made)
}

/// What an array to bytes codec makes of them.
#[cycle(encoding)]
pub(crate) fn encode_codec<B: BytesToBytesCodecTraits>(
    codec: &ArrayToBytesCodec<B>,
    alloc: Global,
    bytes: ArrayBytes,
    array: WholeArray<'_>,
) -> Result<Vec<u8>, CodecError>
    ensures { Encodes (coded_array (codec_chain B.meaning codec.now) array.entry) true
        (payload_of bytes) result }
{
    match codec {
        ArrayToBytesCodec::Bytes(codec) => {
            codec.encode_in_order(alloc, bytes, array.elements, array.shape)
        }
        ArrayToBytesCodec::PackBits(codec) => {
            codec.encode_in_order(alloc, bytes, array.elements, array.shape)
        }
        ArrayToBytesCodec::Vlen(codec) => encode_vlen(codec, alloc, bytes, array),
        ArrayToBytesCodec::Optional(codec) => encode_optional(codec, alloc, bytes, array),
    }
}

/// What `vlen` makes of them.
#[cycle(encoding)]
fn encode_vlen<B: BytesToBytesCodecTraits>(
    codec: &VlenCodec<B>,
    alloc: Global,
    bytes: ArrayBytes,
    array: WholeArray<'_>,
) -> Result<Vec<u8>, CodecError>
    ensures { Encodes (coded_array (vlen_chain B.meaning codec.now) array.entry) true
        (payload_of bytes) result }
{
    let data_type = array.elements.data_type();
    if !fits_vlen(codec, alloc, data_type, array.shape)? {
        return Err(CodecError::Fit);
    }
    let Some(count) = count_places(array.shape) else {
        return Err(CodecError::Size);
    };
    if let Err(error) = bytes.validate(data_type, count) {
        return Err(error);
    }
    encode_sections(codec, alloc, bytes, count)
}

/// What `vlen` makes of so many elements that it suits.
#[cycle(encoding)]
fn encode_sections<B: BytesToBytesCodecTraits>(
    codec: &VlenCodec<B>,
    alloc: Global,
    bytes: ArrayBytes,
    count: u64,
) -> Result<Vec<u8>, CodecError>
    requires { count < 2 ^ 63 }
    ensures { (elements : types.Elements) (shape : List ℕ) (cells : List types.Cell) → product shape
        ≡ count → is_value elements.type elements.fill ≡ true → fits
        (vlen_chain B.meaning codec.now) elements.type shape ≡ true → IsValid elements.type
        (payload_of bytes) count cells → Encodes (coded (vlen_chain B.meaning codec.now) elements
        shape) true (payload_of bytes) result }
{
    let offsets = match offset_elements(alloc, &bytes, codec.index_data_type) {
        Ok(offsets) => offsets,
        Err(CodecError::Size) => return Err(CodecError::Size),
        Err(_) => return Err(CodecError::Memory),
    };
    let content = joined_bytes(alloc, bytes)?;
    let front = match encode_offsets(codec, alloc, offsets, count) {
        Ok(front) => front,
        Err(error) => return Err(error),
    };
    match encode_content(codec, alloc, content) {
        Ok(back) => Ok(join_index(
            alloc,
            codec.index_location,
            front.as_slice(),
            back.as_slice(),
        )?),
        Err(error) => Err(error),
    }
}

/// What the chain of the index makes of offsets, one more than there are elements.
#[cycle(encoding)]
fn encode_offsets<B: BytesToBytesCodecTraits>(
    codec: &VlenCodec<B>,
    alloc: Global,
    offsets: ArrayBytes,
    count: u64,
) -> Result<Vec<u8>, CodecError>
    requires { count < 2 ^ 63 }
    ensures { (cells : List types.Cell) → IsValid (types.integer types.unsigned
        (width_of codec.now.index_data_type)) (payload_of offsets) (count + 1) cells
        → MakesInner (meaning_of B.meaning codec.now.index_codecs) (types.zero_filled
        (types.integer types.unsigned (width_of codec.now.index_data_type)))
        ((count + 1) ∷ []) cells result }
{
    let elements = zero_filled(alloc, codec.index_data_type.data_type())?;
    let shape = [count + 1];
    let array = WholeArray {
        elements: &elements,
        shape: &shape,
    };
    encode_inner(&codec.index_codecs, alloc, offsets, array)
}

/// What the chain of the data makes of the elements' joined bytes; nothing where there are none.
#[cycle(encoding)]
fn encode_content<B: BytesToBytesCodecTraits>(
    codec: &VlenCodec<B>,
    alloc: Global,
    content: Vec<u8>,
) -> Result<Vec<u8>, CodecError>
    ensures { (cells : List types.Cell) → IsContent cells content.items
        → MakesContent (meaning_of B.meaning codec.now.data_codecs) cells result }
{
    if content.is_empty() {
        return Ok(Vec::new(alloc));
    }
    let elements = zero_filled(alloc, DataType::UInt8)?;
    let shape = [content.len() as u64];
    let array = WholeArray {
        elements: &elements,
        shape: &shape,
    };
    let bytes = ArrayBytes::Fixed(content);
    encode_inner(&codec.data_codecs, alloc, bytes, array)
}

/// What a chain makes of the elements of an inner array.
#[cycle(encoding)]
fn encode_inner<B: BytesToBytesCodecTraits>(
    chain: &CodecChain<B>,
    alloc: Global,
    bytes: ArrayBytes,
    array: WholeArray<'_>,
) -> Result<Vec<u8>, CodecError>
    ensures { (cells : List types.Cell) → IsValid (elements_of array.entry.elements.now).type
        (payload_of bytes) (product array.entry.shape.now) cells
        → MakesInner (meaning_of B.meaning chain.now) (elements_of array.entry.elements.now)
        array.entry.shape.now cells result }
{
    if !is_small(array.elements.data_type(), array.shape) {
        return Err(CodecError::Memory);
    }
    made_inside(encode_chain(chain, alloc, bytes, array))
}

/// What is made of an inner array, whose elements are valid and few.
fn made_inside(made: Result<Vec<u8>, CodecError>) -> Result<Vec<u8>, CodecError>
    ensures { (chain : Chain) (elements : types.Elements) (shape : List ℕ) (payload : Payload)
        (cells : List types.Cell) → (IsTooLarge elements.type (product shape) → ⊥) → IsValid
        elements.type payload (product shape) cells → Encodes (coded chain elements shape) true
        payload made → MakesInner chain elements shape cells result }
{
    match made {
        Ok(value) => Ok(value),
        Err(CodecError::Codec) => Err(CodecError::Codec),
        Err(CodecError::Size) => Err(CodecError::Size),
        Err(_) => Err(CodecError::Memory),
    }
}

/// Whether an array has fewer than 2^63 elements, and these fewer than 2^63 bytes, where they have
/// one size. Each array that stands in memory has.
fn is_small(data_type: &DataType, shape: &[u64]) -> bool
    ensures { IsTrue result → IsTooLarge (type_of data_type.now) (product shape.now) → ⊥ }
{
    let Some(count) = count_places(shape) else {
        return false;
    };
    match data_type.byte_width() {
        Some(width) => match count.checked_mul(width as u64) {
            Some(bytes) => bytes < 1 << 63,
            None => false,
        },
        None => !data_type.is_fixed(),
    }
}

/// What `optional` makes of them.
#[cycle(encoding)]
fn encode_optional<B: BytesToBytesCodecTraits>(
    codec: &OptionalCodec<B>,
    alloc: Global,
    bytes: ArrayBytes,
    array: WholeArray<'_>,
) -> Result<Vec<u8>, CodecError>
    ensures { Encodes (coded_array (optional_chain B.meaning codec.now) array.entry) true
        (payload_of bytes) result }
{
    let data_type = array.elements.data_type();
    if !fits_optional(codec, alloc, data_type, array.shape)? {
        return Err(CodecError::Fit);
    }
    let Some(count) = count_places(array.shape) else {
        return Err(CodecError::Size);
    };
    if let Err(error) = bytes.validate(data_type, count) {
        return Err(error);
    }
    let Some(inner) = data_type.inner() else {
        return Err(CodecError::Fit);
    };
    let parts = split_options(alloc, bytes)?;
    let shape = array.shape;
    encode_parts(codec, alloc, parts, Masked { inner, shape })
}

/// The inner type of optional elements, and the shape of their mask.
#[derive(Clone, Copy)]
struct Masked<'t, 's> {
    inner: &'t DataType,
    shape: &'s [u64],
}

/// What `optional` makes of elements that it suits, split.
#[cycle(encoding)]
fn encode_parts<B: BytesToBytesCodecTraits>(
    codec: &OptionalCodec<B>,
    alloc: Global,
    parts: SplitOptions,
    masked: Masked<'_, '_>,
) -> Result<Vec<u8>, CodecError>
    ensures { (elements : types.Elements) (cells : List types.Cell)
        → types.inner_type elements.type ≡ Some (type_of masked.entry.inner.now)
        → takes_each_shape (meaning_of B.meaning codec.now.data_codecs) ≡ true
        → fits (meaning_of B.meaning codec.now.data_codecs) (type_of masked.entry.inner.now)
        (0 ∷ []) ≡ true
        → length cells ≡ product masked.entry.shape.now
        → IsSplit (type_of masked.entry.inner.now) cells parts
        → MakesInner (optional_chain B.meaning codec.now) elements masked.entry.shape.now cells
        result }
{
    let SplitOptions { mask, marks, below } = parts;
    let mask = ArrayBytes::Fixed(mask);
    let front = match encode_mask(codec, alloc, mask, masked.shape) {
        Ok(front) => front,
        Err(error) => return Err(error),
    };
    let chosen = choose(marks.as_slice(), masked.inner);
    match encode_chosen(&codec.data_codecs, alloc, below, chosen) {
        Ok(back) => Ok(join_mask(alloc, front.as_slice(), back.as_slice())?),
        Err(error) => Err(error),
    }
}

/// What the chain of the mask makes of a mask.
#[cycle(encoding)]
fn encode_mask<B: BytesToBytesCodecTraits>(
    codec: &OptionalCodec<B>,
    alloc: Global,
    mask: ArrayBytes,
    shape: &[u64],
) -> Result<Vec<u8>, CodecError>
    ensures { (cells : List types.Cell)
        → IsValid types.bool (payload_of mask) (product shape.now) cells
        → MakesInner (meaning_of B.meaning codec.now.mask_codecs) (types.zero_filled types.bool)
        shape.now cells result }
{
    let elements = zero_filled(alloc, DataType::Bool)?;
    let array = WholeArray {
        elements: &elements,
        shape,
    };
    encode_inner(&codec.mask_codecs, alloc, mask, array)
}

/// What a chain that does the same for each shape makes of the elements that are encoded; nothing
/// where there are none.
#[cycle(encoding)]
fn encode_chosen<B: BytesToBytesCodecTraits>(
    chain: &CodecChain<B>,
    alloc: Global,
    bytes: ArrayBytes,
    chosen: Chosen<'_, '_>,
) -> Result<Vec<u8>, CodecError>
    requires { AreCounted chosen }
    ensures { (cells : List types.Cell)
        → SuitsChosen (meaning_of B.meaning chain.now) chosen.entry
        → AreChosen chosen.entry cells (payload_of bytes)
        → MakesSome (meaning_of B.meaning chain.now) (chosen_type chosen.entry) cells result }
{
    if chosen.count == 0 {
        return Ok(Vec::new(alloc));
    }
    let codec = &chain.others.array_to_bytes;
    match encode_chosen_by(codec, alloc, bytes, chosen) {
        Ok(made) => encode_all(alloc, chain.others.bytes_to_bytes.as_slice(), made),
        Err(error) => Err(error),
    }
}

/// What an array to bytes codec makes of them that does the same for each shape.
#[cycle(encoding)]
fn encode_chosen_by<B: BytesToBytesCodecTraits>(
    codec: &ArrayToBytesCodec<B>,
    alloc: Global,
    bytes: ArrayBytes,
    chosen: Chosen<'_, '_>,
) -> Result<Vec<u8>, CodecError>
    requires { AreCounted chosen }
    ensures { (cells : List types.Cell)
        → SuitsChosen (codec_chain B.meaning codec.now) chosen.entry
        → AreChosen chosen.entry cells (payload_of bytes)
        → MakesChosen (codec_chain B.meaning codec.now) chosen.entry cells result }
{
    match codec {
        ArrayToBytesCodec::Bytes(codec) => encode_alone(codec, alloc, bytes, chosen),
        ArrayToBytesCodec::PackBits(codec) => encode_alone(codec, alloc, bytes, chosen),
        ArrayToBytesCodec::Vlen(codec) => encode_texts(codec, alloc, bytes, chosen),
        ArrayToBytesCodec::Optional(codec) => { encode_below(codec, alloc, bytes, chosen) }
    }
}

/// What a codec without chains inside of it makes of them, which it is given alone.
fn encode_alone<C: ArrayToBytesCodecTraits>(
    codec: &C,
    alloc: Global,
    bytes: ArrayBytes,
    chosen: Chosen<'_, '_>,
) -> Result<Vec<u8>, CodecError>
    requires { AreCounted chosen }
    ensures { (cells : List types.Cell) → C.is_function codec.now ≡ true
        → AreChosen chosen.entry cells (payload_of bytes)
        → MakesChosen (C.meaning codec.now) chosen.entry cells result }
{
    let data_type = chosen.data_type;
    let elements = zero_filled(alloc, data_type.try_clone(alloc)?)?;
    let present = choose_elements(alloc, bytes, data_type, chosen.marks)?;
    let shape = [chosen.count];
    if !is_small(data_type, &shape) {
        return Err(CodecError::Memory);
    }
    made_inside(codec.encode_in_order(alloc, present, &elements, &shape))
}

/// What `vlen` makes of them.
#[cycle(encoding)]
fn encode_texts<B: BytesToBytesCodecTraits>(
    codec: &VlenCodec<B>,
    alloc: Global,
    bytes: ArrayBytes,
    chosen: Chosen<'_, '_>,
) -> Result<Vec<u8>, CodecError>
    requires { AreCounted chosen }
    ensures { (cells : List types.Cell)
        → SuitsChosen (vlen_chain B.meaning codec.now) chosen.entry
        → AreChosen chosen.entry cells (payload_of bytes)
        → MakesChosen (vlen_chain B.meaning codec.now) chosen.entry cells result }
{
    if chosen.count >= 1 << 63 || !is_small(chosen.data_type, &[chosen.count]) {
        return Err(CodecError::Memory);
    }
    let present = choose_elements(alloc, bytes, chosen.data_type, chosen.marks)?;
    made_inside(encode_sections(codec, alloc, present, chosen.count))
}

/// What `optional` makes of them.
#[cycle(encoding)]
fn encode_below<B: BytesToBytesCodecTraits>(
    codec: &OptionalCodec<B>,
    alloc: Global,
    bytes: ArrayBytes,
    chosen: Chosen<'_, '_>,
) -> Result<Vec<u8>, CodecError>
    requires { AreCounted chosen }
    ensures { (cells : List types.Cell)
        → SuitsChosen (optional_chain B.meaning codec.now) chosen.entry
        → AreChosen chosen.entry cells (payload_of bytes)
        → MakesChosen (optional_chain B.meaning codec.now) chosen.entry cells result }
{
    let Some(inner) = chosen.data_type.inner() else {
        return Err(CodecError::Memory);
    };
    let parts = split_chosen(alloc, bytes, chosen.marks)?;
    let shape = [chosen.count];
    let masked = Masked {
        inner,
        shape: &shape,
    };
    encode_parts(codec, alloc, parts, masked)
}
