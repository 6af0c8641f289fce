//! Values decoded by a chain, and by the chains inside of it.
ghost use Rattle.std.specs.Prelude.{◌≡◌, ◌≢◌, ◌+◌, ◌<◌, ◌^◌, ℕ, List, [], ◌∷◌, Some, option_map, length, replicate, true, IfOk, IfErr};
ghost use Rattle.zarr_grids_boxes.specs.Boxes.{product};
ghost use Rattle.zarr_codecs_meaning.specs.Decoding.{count_present, decoded, read_unless_none};
ghost use Rattle.zarr_codecs_meaning.specs.Fits.{takes_each_shape};
ghost use Rattle.zarr_codecs_meaning.specs.Keeping.{spread};
ghost use Rattle.zarr_codecs_meaning.specs.Payloads.{cells_in};
ghost use Rattle.zarr_codecs_meaning.specs.Types as types;
ghost use Rattle.zarr_codecs_types.specs.Views.{type_of};
ghost use Rattle.zarr_codecs_arrays.specs.Views.{elements_of, payload_of};
ghost use Rattle.zarr_codecs_traits.specs.Arrays.{coded_array};
ghost use Rattle.zarr_codecs_traits.specs.Outcomes.{Decodes};
ghost use Rattle.zarr_codecs_sections.specs.Laws.{found_read};
ghost use Rattle.zarr_codecs_sections.specs.Marks.{IsMask, IsSpreadMask, count_ones};
ghost use Rattle.zarr_codecs_sections.specs.Views.{width_of};
ghost use Rattle.zarr_codecs_chains.specs.Chosen.{AreCounted, FindsChosen, chosen_type};
ghost use Rattle.zarr_codecs_chains.specs.Inside.{FindsInner, FindsMarked, FindsOffsets};
ghost use Rattle.zarr_codecs_chains.specs.Views.{codec_chain, meaning_of, optional_chain, vlen_chain};

use crate::array_to_bytes::ArrayToBytesCodec;
use crate::chain::CodecChain;
use crate::chosen::{Chosen, choose};
use crate::fitting::{fits_codec, fits_optional, fits_vlen};
use crate::optional::OptionalCodec;
use crate::vlen::VlenCodec;
use std::alloc::Global;
use zarr_codecs_around::array_codecs::{shape_after, undo_all};
use zarr_codecs_around::byte_codecs::decode_all;
use zarr_codecs_arrays::{ArrayBytes, CodecError, Elements};
use zarr_codecs_sections::{
    cut_elements, last_offset, marks_of, mask_elements, read_offsets, split_index, split_mask,
    spread_elements, spread_marks, zero_filled,
};
use zarr_codecs_traits::{ArrayToBytesCodecTraits, BytesToBytesCodecTraits, WholeArray};
use zarr_codecs_types::DataType;
use zarr_grids_boxes::walk::count_places;

/// The elements of an array that a chain decodes a value to.
#[cycle(decoding)]
pub(crate) fn decode_chain<B: BytesToBytesCodecTraits>(
    chain: &CodecChain<B>,
    alloc: Global,
    value: Vec<u8>,
    array: WholeArray<'_>,
) -> Result<ArrayBytes, CodecError>
    ensures { Decodes (coded_array (meaning_of B.meaning chain.now) array.entry) value.items result }
{
    let elements = array.elements;
    let codecs = chain.array_to_array.as_slice();
    let codec = &chain.others.array_to_bytes;
    let last = match shape_after(alloc, codecs, array.shape) {
        Ok(last) => last,
        Err(error) => return Err(error),
    };
    if !fits_codec(codec, alloc, elements.data_type(), last.as_slice())? {
        return Err(CodecError::Fit);
    }
    let inside = match decode_all(alloc, chain.others.bytes_to_bytes.as_slice(), value) {
        Ok(inside) => inside,
        Err(error) => return Err(error),
    };
    let inner = WholeArray {
        elements,
        shape: last.as_slice(),
    };
    match decode_codec(codec, alloc, inside, inner) {
        Ok(found) => undo_all(alloc, codecs, found, elements, array.shape),
        Err(error) => Err(error),
    }
}

/// The elements that an array to bytes codec decodes a value to.
#[cycle(decoding)]
pub(crate) fn decode_codec<B: BytesToBytesCodecTraits>(
    codec: &ArrayToBytesCodec<B>,
    alloc: Global,
    value: Vec<u8>,
    array: WholeArray<'_>,
) -> Result<ArrayBytes, CodecError>
    ensures { Decodes (coded_array (codec_chain B.meaning codec.now) array.entry) value.items result }
{
    match codec {
        ArrayToBytesCodec::Bytes(codec) => {
            codec.decode_in_order(alloc, value, array.elements, array.shape)
        }
        ArrayToBytesCodec::PackBits(codec) => {
            codec.decode_in_order(alloc, value, array.elements, array.shape)
        }
        ArrayToBytesCodec::Vlen(codec) => decode_vlen(codec, alloc, value, array),
        ArrayToBytesCodec::Optional(codec) => decode_optional(codec, alloc, value, array),
    }
}

/// The elements that `vlen` decodes a value to.
#[cycle(decoding)]
fn decode_vlen<B: BytesToBytesCodecTraits>(
    codec: &VlenCodec<B>,
    alloc: Global,
    value: Vec<u8>,
    array: WholeArray<'_>,
) -> Result<ArrayBytes, CodecError>
    ensures { Decodes (coded_array (vlen_chain B.meaning codec.now) array.entry) value.items result }
{
    if !fits_vlen(codec, alloc, array.elements.data_type(), array.shape)? {
        return Err(CodecError::Fit);
    }
    let Some(count) = count_places(array.shape) else {
        return Err(CodecError::Size);
    };
    decode_sections(codec, alloc, value.as_slice(), count)
}

/// So many elements that `vlen` decodes a value to.
#[cycle(decoding)]
fn decode_sections<B: BytesToBytesCodecTraits>(
    codec: &VlenCodec<B>,
    alloc: Global,
    value: &[u8],
    count: u64,
) -> Result<ArrayBytes, CodecError>
    requires { count < 2 ^ 63 }
    ensures { (elements : types.Elements) (shape : List ℕ) → product shape ≡ count
        → types.is_variable elements.type ≡ true
        → FindsInner (decoded (vlen_chain B.meaning codec.now) elements shape value.now)
        elements.type result }
{
    let Some(sections) = split_index(value, codec.index_location) else {
        return Err(CodecError::Damage);
    };
    let offsets = match decode_offsets(codec, alloc, sections.first, count) {
        Ok(offsets) => offsets,
        Err(error) => return Err(error),
    };
    let long = last_offset(offsets.as_slice());
    match decode_content(codec, alloc, sections.second, long) {
        Ok(content) => match cut_elements(offsets, content) {
            Some(found) => Ok(found),
            None => Err(CodecError::Damage),
        },
        Err(error) => Err(error),
    }
}

/// The offsets that the index of `vlen` is decoded to, one more than there are elements.
#[cycle(decoding)]
fn decode_offsets<B: BytesToBytesCodecTraits>(
    codec: &VlenCodec<B>,
    alloc: Global,
    section: &[u8],
    count: u64,
) -> Result<Vec<u64>, CodecError>
    requires { count < 2 ^ 63 }
    ensures { FindsOffsets (decoded (meaning_of B.meaning codec.now.index_codecs) (types.zero_filled
        (types.integer types.unsigned (width_of codec.now.index_data_type)))
        ((count + 1) ∷ []) section.now) result }
{
    let elements = zero_filled(alloc, codec.index_data_type.data_type())?;
    let shape = [count + 1];
    let array = WholeArray {
        elements: &elements,
        shape: &shape,
    };
    match decode_inner(&codec.index_codecs, alloc, section, array) {
        Ok(found) => Ok(read_offsets(alloc, &found, codec.index_data_type)?),
        Err(error) => Err(error),
    }
}

/// So many joined bytes that the chain of the data decodes a section to; none are decoded from
/// nothing alone.
#[cycle(decoding)]
fn decode_content<B: BytesToBytesCodecTraits>(
    codec: &VlenCodec<B>,
    alloc: Global,
    section: &[u8],
    count: u64,
) -> Result<ArrayBytes, CodecError>
    ensures { FindsInner (read_unless_none count section.now (decoded
        (meaning_of B.meaning codec.now.data_codecs) (types.zero_filled types.uint8)
        (count ∷ []))) types.uint8 result }
{
    let elements = zero_filled(alloc, DataType::UInt8)?;
    if count == 0 {
        return none_decoded(alloc, section, &elements, 0);
    }
    let shape = [count];
    let array = WholeArray {
        elements: &elements,
        shape: &shape,
    };
    decode_inner(&codec.data_codecs, alloc, section, array)
}

/// As many fill values as asked for, where there is nothing to decode. `Damage` where a section
/// has bytes.
fn none_decoded(
    alloc: Global,
    section: &[u8],
    elements: &Elements,
    count: u64,
) -> Result<ArrayBytes, CodecError>
    ensures found { IfOk result (λ made. cells_in (elements_of elements.now).type (payload_of made)
        ≡ Some (replicate count (elements_of elements.now).fill)) }
    ensures nothing { IfOk result (λ _. length section.now ≡ 0) }
    ensures cause { IfErr result (λ e. e ≢ CodecError.Memory
        → (e ≡ CodecError.Damage) × (0 < length section.now)) }
{
    if !section.is_empty() {
        return Err(CodecError::Damage);
    }
    Ok(ArrayBytes::fill_values(alloc, elements, count as usize)?)
}

/// The elements of an inner array that a chain decodes a section to. `Damage` where there are none.
#[cycle(decoding)]
fn decode_inner<B: BytesToBytesCodecTraits>(
    chain: &CodecChain<B>,
    alloc: Global,
    section: &[u8],
    array: WholeArray<'_>,
) -> Result<ArrayBytes, CodecError>
    ensures { FindsInner (decoded (meaning_of B.meaning chain.now)
        (elements_of array.entry.elements.now) array.entry.shape.now section.now)
        (elements_of array.entry.elements.now).type result }
{
    let value = section.to_vec(alloc)?;
    match decode_chain(chain, alloc, value, array) {
        Ok(found) => Ok(found),
        Err(CodecError::Damage) => Err(CodecError::Damage),
        Err(_) => Err(CodecError::Memory),
    }
}

/// The elements that `optional` decodes a value to.
#[cycle(decoding)]
fn decode_optional<B: BytesToBytesCodecTraits>(
    codec: &OptionalCodec<B>,
    alloc: Global,
    value: Vec<u8>,
    array: WholeArray<'_>,
) -> Result<ArrayBytes, CodecError>
    ensures { Decodes (coded_array (optional_chain B.meaning codec.now) array.entry) value.items
        result }
{
    let data_type = array.elements.data_type();
    if !fits_optional(codec, alloc, data_type, array.shape)? {
        return Err(CodecError::Fit);
    }
    if count_places(array.shape).is_none() {
        return Err(CodecError::Size);
    }
    let Some(inner) = data_type.inner() else {
        return Err(CodecError::Fit);
    };
    let Some(sections) = split_mask(value.as_slice()) else {
        return Err(CodecError::Damage);
    };
    let mask = match decode_mask(codec, alloc, sections.first, array.shape) {
        Ok(mask) => mask,
        Err(error) => return Err(error),
    };
    let marks = marks_of(alloc, &mask)?;
    decode_below(codec, alloc, sections.second, Marked { marks, inner })
}

/// The mask that the chain of the mask decodes a section to.
#[cycle(decoding)]
fn decode_mask<B: BytesToBytesCodecTraits>(
    codec: &OptionalCodec<B>,
    alloc: Global,
    section: &[u8],
    shape: &[u64],
) -> Result<ArrayBytes, CodecError>
    ensures { FindsInner (decoded (meaning_of B.meaning codec.now.mask_codecs)
        (types.zero_filled types.bool) shape.now section.now) types.bool result }
{
    let elements = zero_filled(alloc, DataType::Bool)?;
    let array = WholeArray {
        elements: &elements,
        shape,
    };
    decode_inner(&codec.mask_codecs, alloc, section, array)
}

/// The marks of all elements below a mask, 1 for each that is present, and their type.
#[derive(Drop)]
struct Marked<'a> {
    marks: Vec<u8>,
    inner: &'a DataType,
}

/// Elements of an optional type, of which those that are present are decoded from a section.
#[cycle(decoding)]
fn decode_below<B: BytesToBytesCodecTraits>(
    codec: &OptionalCodec<B>,
    alloc: Global,
    section: &[u8],
    marked: Marked<'_>,
) -> Result<ArrayBytes, CodecError>
    ensures all { (masks : List types.Cell)
        → takes_each_shape (meaning_of B.meaning codec.now.data_codecs) ≡ true
        → IsMask masks marked.entry.marks.items
        → count_ones marked.entry.marks.items ≡ count_present masks
        → FindsInner (option_map (spread masks) (found_read (λ count. decoded
        (meaning_of B.meaning codec.now.data_codecs)
        (types.zero_filled (type_of marked.entry.inner.now)) (count ∷ [])) masks section.now))
        (types.optional_of (type_of marked.entry.inner.now)) result }
    ensures chosen { (outer : List ℕ) (masks : List types.Cell)
        → takes_each_shape (meaning_of B.meaning codec.now.data_codecs) ≡ true
        → IsSpreadMask outer masks marked.entry.marks.items → length masks ≡ count_ones outer
        → count_ones marked.entry.marks.items ≡ count_present masks
        → FindsMarked (option_map (spread masks) (found_read (λ count. decoded
        (meaning_of B.meaning codec.now.data_codecs)
        (types.zero_filled (type_of marked.entry.inner.now)) (count ∷ [])) masks section.now))
        (types.optional_of (type_of marked.entry.inner.now)) outer result }
{
    let chosen = choose(marked.marks.as_slice(), marked.inner);
    match decode_chosen(&codec.data_codecs, alloc, section, chosen) {
        Ok(below) => Ok(mask_elements(alloc, below, marked.marks)?),
        Err(error) => Err(error),
    }
}

/// As many elements as there are marks that are 1, decoded from a section by a chain that does the
/// same for each shape, and put to where these marks are.
#[cycle(decoding)]
fn decode_chosen<B: BytesToBytesCodecTraits>(
    chain: &CodecChain<B>,
    alloc: Global,
    section: &[u8],
    chosen: Chosen<'_, '_>,
) -> Result<ArrayBytes, CodecError>
    requires { AreCounted chosen }
    ensures { takes_each_shape (meaning_of B.meaning chain.now) ≡ true
        → FindsMarked (read_unless_none chosen.entry.count section.now
        (decoded (meaning_of B.meaning chain.now) (types.zero_filled (chosen_type chosen.entry))
        (chosen.entry.count ∷ []))) (chosen_type chosen.entry) chosen.entry.marks.now result }
{
    if chosen.count == 0 {
        let elements = zero_filled(alloc, chosen.data_type.try_clone(alloc)?)?;
        return none_decoded(alloc, section, &elements, chosen.marks.len() as u64);
    }
    let codec = &chain.others.array_to_bytes;
    let codecs = chain.others.bytes_to_bytes.as_slice();
    if codecs.is_empty() {
        return decode_chosen_by(codec, alloc, section, chosen);
    }
    match decode_all(alloc, codecs, section.to_vec(alloc)?) {
        Ok(inside) => decode_chosen_by(codec, alloc, inside.as_slice(), chosen),
        Err(error) => Err(error),
    }
}

/// The same of an array to bytes codec.
#[cycle(decoding)]
fn decode_chosen_by<B: BytesToBytesCodecTraits>(
    codec: &ArrayToBytesCodec<B>,
    alloc: Global,
    section: &[u8],
    chosen: Chosen<'_, '_>,
) -> Result<ArrayBytes, CodecError>
    requires { AreCounted chosen }
    ensures { takes_each_shape (codec_chain B.meaning codec.now) ≡ true
        → FindsChosen (codec_chain B.meaning codec.now) chosen.entry section.now result }
{
    match codec {
        ArrayToBytesCodec::Bytes(codec) => decode_alone(codec, alloc, section, chosen),
        ArrayToBytesCodec::PackBits(codec) => decode_alone(codec, alloc, section, chosen),
        ArrayToBytesCodec::Vlen(codec) => decode_texts(codec, alloc, section, chosen),
        ArrayToBytesCodec::Optional(codec) => { decode_options(codec, alloc, section, chosen) }
    }
}

/// The same of a codec without chains inside of it.
fn decode_alone<C: ArrayToBytesCodecTraits>(
    codec: &C,
    alloc: Global,
    section: &[u8],
    chosen: Chosen<'_, '_>,
) -> Result<ArrayBytes, CodecError>
    requires { AreCounted chosen }
    ensures { FindsChosen (C.meaning codec.now) chosen.entry section.now result }
{
    let elements = zero_filled(alloc, chosen.data_type.try_clone(alloc)?)?;
    let shape = [chosen.count];
    let value = section.to_vec(alloc)?;
    match codec.decode_in_order(alloc, value, &elements, &shape) {
        Ok(found) => Ok(spread_elements(alloc, found, chosen.data_type, chosen.marks)?),
        Err(CodecError::Damage) => Err(CodecError::Damage),
        Err(_) => Err(CodecError::Memory),
    }
}

/// The same of `vlen`.
#[cycle(decoding)]
fn decode_texts<B: BytesToBytesCodecTraits>(
    codec: &VlenCodec<B>,
    alloc: Global,
    section: &[u8],
    chosen: Chosen<'_, '_>,
) -> Result<ArrayBytes, CodecError>
    requires { AreCounted chosen }
    ensures { FindsChosen (vlen_chain B.meaning codec.now) chosen.entry section.now result }
{
    if chosen.count >= 1 << 63 || !chosen.data_type.is_variable() {
        return Err(CodecError::Memory);
    }
    match decode_sections(codec, alloc, section, chosen.count) {
        Ok(found) => Ok(spread_elements(alloc, found, chosen.data_type, chosen.marks)?),
        Err(error) => Err(error),
    }
}

/// The same of `optional`.
#[cycle(decoding)]
fn decode_options<B: BytesToBytesCodecTraits>(
    codec: &OptionalCodec<B>,
    alloc: Global,
    section: &[u8],
    chosen: Chosen<'_, '_>,
) -> Result<ArrayBytes, CodecError>
    requires { AreCounted chosen }
    ensures { takes_each_shape (optional_chain B.meaning codec.now) ≡ true
        → FindsChosen (optional_chain B.meaning codec.now) chosen.entry section.now result }
{
    let Some(inner) = chosen.data_type.inner() else {
        return Err(CodecError::Memory);
    };
    let Some(sections) = split_mask(section) else {
        return Err(CodecError::Damage);
    };
    let mask = match decode_mask(codec, alloc, sections.first, &[chosen.count]) {
        Ok(mask) => mask,
        Err(error) => return Err(error),
    };
    let marks = spread_marks(alloc, &mask, chosen.marks)?;
    decode_below(codec, alloc, sections.second, Marked { marks, inner })
}
