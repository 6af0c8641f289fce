//! Parts of arrays, read from values and written into them.
use crate::arrays::{Array, array_in, whole};
use crate::counting_source::CountingSource;
use crate::elements::{given_in, json};
use crate::sources::{counting_in, value_of};
use anyhow::{Context, Result};
use std::alloc::Global;
use std::marker::Sync;
use std::thread::Threads;
use zarr_calls_grids::words::{
    box_in, bytes_in, counted, cut, digits, numbers_in, push_word, refused, word,
};
use zarr_codecs_arrays::{ArrayBytes, CodecError};
use zarr_codecs_coders::{CodecPartialDecoder, CodecPartialEncoder};
use zarr_codecs_traits::{
    ArrayPart, ArrayToBytesCodecTraits, Indexer, TargetBytes, ValuePatch, ValuePatches,
};
use zarr_codecs_types::DataType;
use zarr_grids_boxes::ArraySubset;

/// What a call on parts gives.
pub(crate) fn answer<R: Threads + Sync, C: ArrayToBytesCodecTraits + Sync>(
    rt: &R,
    alloc: Global,
    chain: &C,
    name: &str,
    rest: &str,
) -> Option<Result<String>> {
    match name {
        "read" => Some(read(rt, alloc, chain, rest)),
        "into" => Some(into(rt, alloc, chain, rest)),
        "put" => Some(put(rt, alloc, chain, rest)),
        "patches" => Some(patches(alloc, chain, rest)),
        _ => None,
    }
}

/// Places of an array: those of a box, or those with some numbers.
#[derive(Drop)]
pub enum Places {
    Region(ArraySubset),
    Numbers(Vec<u64>),
}

impl Places {
    /// The places as codecs take them.
    pub fn indexer(&self) -> Indexer<'_> {
        match self {
            Places::Region(region) => Indexer::Subset(region),
            Places::Numbers(numbers) => Indexer::List(numbers.as_slice()),
        }
    }
}

/// The places of an argument: `box` and a list of pairs, or `places` and a list of numbers.
pub fn places_in(alloc: Global, text: &str) -> Result<Places> {
    if let Some(pairs) = text.strip_prefix("box ") {
        return Ok(Places::Region(box_in(alloc, pairs)?));
    }
    let numbers = text.strip_prefix("places ");
    let numbers = numbers.context("an argument has no places")?;
    Ok(Places::Numbers(numbers_in(alloc, numbers)?))
}

/// An array, and places of it.
#[derive(Drop)]
struct Part {
    array: Array,
    places: Places,
}

/// The part of an array that the first four arguments say, and the others.
fn part_in(alloc: Global, text: &str) -> Result<(Part, &str)> {
    let (array, rest) = array_in(alloc, text)?;
    let (places, rest) = cut_places(alloc, rest)?;
    Ok((Part { array, places }, rest))
}

/// The places of the first argument, and the others.
fn cut_places(alloc: Global, text: &str) -> Result<(Places, &str)> {
    let (places, rest) = cut(text)?;
    Ok((places_in(alloc, places)?, rest))
}

/// The part as codecs take it.
fn asked(part: &Part) -> ArrayPart<'_> {
    ArrayPart {
        elements: &part.array.elements,
        shape: part.array.shape.as_slice(),
        indexer: part.places.indexer(),
    }
}

/// The cells of a part, by the decoder of its array, which is asked once more where memory ran out.
fn cells_of<R: Threads + Sync, C: ArrayToBytesCodecTraits + Sync>(
    rt: &R,
    alloc: Global,
    chain: &C,
    part: &Part,
    source: &mut CountingSource,
) -> Result<ArrayBytes, CodecError> {
    let (options, asked) = (&part.array.options, part.places.indexer());
    let mut decoder = CodecPartialDecoder::new(chain, source, whole(&part.array));
    match decoder.partial_decode(rt, alloc, asked, options) {
        Err(CodecError::Memory) => decoder.partial_decode(rt, alloc, asked, options),
        said => said,
    }
}

/// The cells at places that are read of a value, how many calls read it, and how many bytes these
/// took.
fn read<R: Threads + Sync, C: ArrayToBytesCodecTraits + Sync>(
    rt: &R,
    alloc: Global,
    chain: &C,
    rest: &str,
) -> Result<String> {
    let (part, value) = part_in(alloc, rest)?;
    let mut source = counting_in(alloc, value)?;
    read_of(rt, alloc, chain, &part, &mut source)
}

fn read_of<R: Threads + Sync, C: ArrayToBytesCodecTraits + Sync>(
    rt: &R,
    alloc: Global,
    chain: &C,
    part: &Part,
    source: &mut CountingSource,
) -> Result<String> {
    match cells_of(rt, alloc, chain, part, source) {
        Ok(cells) => told(alloc, part.array.elements.data_type(), &cells, source),
        Err(error) => refused(alloc, &error),
    }
}

/// Cells, and what a source was asked for.
fn told(
    alloc: Global,
    data_type: &DataType,
    cells: &ArrayBytes,
    source: &CountingSource,
) -> Result<String> {
    let cells = json(alloc, data_type, cells)?;
    let bytes = counted(alloc, source.given, "byte")?;
    let calls = counted(alloc, source.reads, "call")?;
    Ok(format!(in alloc; "{cells} of {bytes} by {calls}")?)
}

/// Puts cells at the places of a part, by the encoder of its array, which is asked once more where
/// memory ran out.
fn put_cells<R: Threads + Sync, C: ArrayToBytesCodecTraits + Sync>(
    rt: &R,
    alloc: Global,
    chain: &C,
    part: &Part,
    source: &mut CountingSource,
    cells: (ArrayBytes, ArrayBytes),
) -> Result<(), CodecError> {
    let (options, places) = (&part.array.options, part.places.indexer());
    let (cells, again) = cells;
    let mut encoder = CodecPartialEncoder::new(chain, source, whole(&part.array));
    match encoder.partial_encode(rt, alloc, places, cells, options) {
        Err(CodecError::Memory) => encoder.partial_encode(rt, alloc, places, again, options),
        said => said,
    }
}

/// The value once cells are put at places, how many calls wrote it, how many bytes were read to do
/// so, and by how many calls.
fn put<R: Threads + Sync, C: ArrayToBytesCodecTraits + Sync>(
    rt: &R,
    alloc: Global,
    chain: &C,
    rest: &str,
) -> Result<String> {
    let (part, rest) = part_in(alloc, rest)?;
    let (value, cells) = cut(rest)?;
    let cells = given_in(alloc, part.array.elements.data_type(), cells)?;
    put_into(rt, alloc, chain, &part, cells, value)
}

fn put_into<R: Threads + Sync, C: ArrayToBytesCodecTraits + Sync>(
    rt: &R,
    alloc: Global,
    chain: &C,
    part: &Part,
    cells: ArrayBytes,
    value: &str,
) -> Result<String> {
    let again = cells.try_clone(alloc)?;
    let mut source = counting_in(alloc, value)?;
    match put_cells(rt, alloc, chain, part, &mut source, (cells, again)) {
        Ok(()) => left(alloc, source),
        Err(error) => left_by(alloc, &error, source),
    }
}

/// What a source holds, and what it was asked for.
pub fn left(alloc: Global, source: CountingSource) -> Result<String> {
    let writes = counted(alloc, source.writes, "call")?;
    let bytes = counted(alloc, source.given, "byte")?;
    let reads = counted(alloc, source.reads, "call")?;
    let value = value_of(alloc, source.inner)?;
    Ok(format!(in alloc; "{value}, written by {writes}, {bytes} read by {reads}")?)
}

/// The same after a refusal.
pub fn left_by(alloc: Global, error: &CodecError, source: CountingSource) -> Result<String> {
    let left = left(alloc, source)?;
    Ok(format!(in alloc; "refused {error:?}: {left}")?)
}

/// Puts cells, of a byte each, over all bytes but the first and the last one.
fn put_over<R: Threads + Sync, C: ArrayToBytesCodecTraits + Sync>(
    rt: &R,
    alloc: Global,
    decoder: &mut CodecPartialDecoder<'_, C, CountingSource>,
    part: &Part,
    bytes: &mut [u8],
) -> Result<(), CodecError> {
    let shape = [bytes.len() as u64];
    let region = ArraySubset::new_with_ranges(alloc, &[1..shape[0].saturating_sub(1)])?;
    let mut target = TargetBytes {
        bytes,
        shape: &shape,
        region: &region,
        width: 1,
    };
    let asked = part.places.indexer();
    decoder.partial_decode_into(rt, alloc, asked, &mut target, &part.array.options)
}

/// Some bytes once cells are put over those inside, by a decoder that is asked once more where
/// memory ran out and left them.
fn put_over_at_last<R: Threads + Sync, C: ArrayToBytesCodecTraits + Sync>(
    rt: &R,
    alloc: Global,
    decoder: &mut CodecPartialDecoder<'_, C, CountingSource>,
    part: &Part,
    text: &str,
) -> Result<String> {
    let (old, mut bytes) = (bytes_in(alloc, text)?, bytes_in(alloc, text)?);
    let mut done = put_over(rt, alloc, decoder, part, bytes.as_mut_slice());
    if matches!(done, Err(CodecError::Memory)) && bytes.as_slice() == old.as_slice() {
        done = put_over(rt, alloc, decoder, part, bytes.as_mut_slice());
    }
    put_or_not(alloc, bytes.as_slice(), done)
}

/// Bytes that cells were put over, or not.
pub fn put_or_not(alloc: Global, bytes: &[u8], done: Result<(), CodecError>) -> Result<String> {
    let bytes = digits(alloc, bytes)?;
    match done {
        Ok(()) => Ok(bytes),
        Err(error) => Ok(format!(in alloc; "refused {error:?}: {bytes}")?),
    }
}

/// Some bytes once the cells of a part of a value are put over those inside.
fn into<R: Threads + Sync, C: ArrayToBytesCodecTraits + Sync>(
    rt: &R,
    alloc: Global,
    chain: &C,
    rest: &str,
) -> Result<String> {
    let (part, rest) = part_in(alloc, rest)?;
    let (value, bytes) = cut(rest)?;
    let mut source = counting_in(alloc, value)?;
    let mut decoder = CodecPartialDecoder::new(chain, &mut source, whole(&part.array));
    put_over_at_last(rt, alloc, &mut decoder, &part, bytes)
}

/// What is written for cells at the places of a part.
fn patches_for<C: ArrayToBytesCodecTraits>(
    alloc: Global,
    chain: &C,
    part: &Part,
    cells: ArrayBytes,
) -> Result<Option<ValuePatches>, CodecError> {
    chain.encode_patches(alloc, cells, asked(part))
}

/// The ranges that are written for cells at places.
fn patches<C: ArrayToBytesCodecTraits>(alloc: Global, chain: &C, rest: &str) -> Result<String> {
    let (part, cells) = part_in(alloc, rest)?;
    let cells = given_in(alloc, part.array.elements.data_type(), cells)?;
    match patches_for(alloc, chain, &part, cells) {
        Ok(patches) => texts_or_none(alloc, &patches),
        Err(error) => refused(alloc, &error),
    }
}

fn texts_or_none(alloc: Global, patches: &Option<ValuePatches>) -> Result<String> {
    match patches {
        Some(patches) => texts(alloc, patches.lend(alloc)?.as_slice()),
        None => word(alloc, "none"),
    }
}

/// A range by where it starts and its bytes.
fn text_of(alloc: Global, patch: &ValuePatch<'_>) -> Result<String> {
    let bytes = digits(alloc, patch.bytes)?;
    let offset = patch.offset;
    Ok(format!(in alloc; "{offset}:{bytes}")?)
}

/// Each range by where it starts and its bytes.
fn texts(alloc: Global, patches: &[ValuePatch<'_>]) -> Result<String> {
    if patches.is_empty() {
        return word(alloc, "no range");
    }
    let mut all = String::new(alloc);
    for patch in patches {
        push_patch(alloc, &mut all, patch)?;
    }
    Ok(all)
}

fn push_patch(alloc: Global, all: &mut String, patch: &ValuePatch<'_>) -> Result<()> {
    Ok(push_word(all, text_of(alloc, patch)?.as_str())?)
}
