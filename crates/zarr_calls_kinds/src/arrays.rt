//! Arrays that chains encode and decode whole.
use crate::elements::{given_in, json};
use crate::raw::raw;
use crate::types::elements_in;
use anyhow::Result;
use std::alloc::Global;
use std::marker::Sync;
use std::thread::Threads;
use zarr_calls_grids::words::{bytes_in, cut, digits, numbers_in, refused, word};
use zarr_codecs_arrays::{ArrayBytes, CodecError, Elements};
use zarr_codecs_options::CodecOptions;
use zarr_codecs_traits::{ArrayToBytesCodecTraits, WholeArray};
use zarr_codecs_types::DataType;

/// An array that a chain may encode: its elements, its shape, and the options that it is encoded and
/// decoded with.
#[derive(Drop)]
pub struct Array {
    pub elements: Elements,
    pub shape: Vec<u64>,
    pub options: CodecOptions,
}

/// The array as codecs take it.
pub(crate) fn whole(array: &Array) -> WholeArray<'_> {
    WholeArray {
        elements: &array.elements,
        shape: array.shape.as_slice(),
    }
}

/// What a call on whole arrays gives.
pub(crate) fn answer<R: Threads + Sync, C: ArrayToBytesCodecTraits + Sync>(
    rt: &R,
    alloc: Global,
    chain: &C,
    name: &str,
    rest: &str,
) -> Option<Result<String>> {
    match name {
        "encode" => Some(encode(rt, alloc, chain, rest)),
        "decode" => Some(decode(rt, alloc, chain, rest, false)),
        "decode_raw" => Some(decode(rt, alloc, chain, rest, true)),
        "compact" => Some(compact(rt, alloc, chain, rest)),
        _ => None,
    }
}

/// The array of a data type, a fill value and a shape, and the other arguments.
pub fn array_in(alloc: Global, text: &str) -> Result<(Array, &str)> {
    let (data_type, rest) = cut(text)?;
    let (fill, rest) = cut(rest)?;
    let (shape, rest) = cut(rest)?;
    let elements = elements_in(alloc, data_type, fill)?;
    Ok((shaped(alloc, elements, shape)?, rest))
}

/// The array of elements and of a shape, behind which ` workers` may stand.
fn shaped(alloc: Global, elements: Elements, text: &str) -> Result<Array> {
    let (text, workers) = match text.strip_suffix(" workers") {
        Some(text) => (text, true),
        None => (text, false),
    };
    let shape = numbers_in(alloc, text)?;
    let options = CodecOptions::default().with_workers(workers);
    Ok(Array {
        elements,
        shape,
        options,
    })
}

/// What cells are encoded to.
fn encoded<R: Threads + Sync, C: ArrayToBytesCodecTraits + Sync>(
    rt: &R,
    alloc: Global,
    chain: &C,
    array: &Array,
    cells: ArrayBytes,
) -> Result<Vec<u8>, CodecError> {
    chain.encode(rt, alloc, cells, whole(array), &array.options)
}

/// The value of cells.
fn encode<R: Threads + Sync, C: ArrayToBytesCodecTraits + Sync>(
    rt: &R,
    alloc: Global,
    chain: &C,
    rest: &str,
) -> Result<String> {
    let (array, cells) = array_in(alloc, rest)?;
    let cells = given_in(alloc, array.elements.data_type(), cells)?;
    match encoded(rt, alloc, chain, &array, cells) {
        Ok(value) => digits(alloc, value.as_slice()),
        Err(error) => refused(alloc, &error),
    }
}

/// What a value is decoded to.
fn decoded<R: Threads + Sync, C: ArrayToBytesCodecTraits + Sync>(
    rt: &R,
    alloc: Global,
    chain: &C,
    array: &Array,
    value: Vec<u8>,
) -> Result<ArrayBytes, CodecError> {
    chain.decode(rt, alloc, value, whole(array), &array.options)
}

/// The cells of a value, as JSON or by their bytes.
fn decode<R: Threads + Sync, C: ArrayToBytesCodecTraits + Sync>(
    rt: &R,
    alloc: Global,
    chain: &C,
    rest: &str,
    is_raw: bool,
) -> Result<String> {
    let (array, value) = array_in(alloc, rest)?;
    let value = bytes_in(alloc, value)?;
    match decoded(rt, alloc, chain, &array, value) {
        Ok(cells) => told(alloc, array.elements.data_type(), &cells, is_raw),
        Err(error) => refused(alloc, &error),
    }
}

fn told(alloc: Global, data_type: &DataType, cells: &ArrayBytes, is_raw: bool) -> Result<String> {
    if is_raw {
        raw(alloc, cells)
    } else {
        json(alloc, data_type, cells)
    }
}

/// What a value is compacted to.
fn compacted<R: Threads + Sync, C: ArrayToBytesCodecTraits + Sync>(
    rt: &R,
    alloc: Global,
    chain: &C,
    array: &Array,
    value: &[u8],
) -> Result<Option<Vec<u8>>, CodecError> {
    chain.compact(rt, alloc, value, whole(array), &array.options)
}

/// The value with what it holds of shards written anew, or `none` where nothing is gained.
fn compact<R: Threads + Sync, C: ArrayToBytesCodecTraits + Sync>(
    rt: &R,
    alloc: Global,
    chain: &C,
    rest: &str,
) -> Result<String> {
    let (array, value) = array_in(alloc, rest)?;
    let value = bytes_in(alloc, value)?;
    match compacted(rt, alloc, chain, &array, value.as_slice()) {
        Ok(compacted) => digits_or_none(alloc, &compacted),
        Err(error) => refused(alloc, &error),
    }
}

fn digits_or_none(alloc: Global, value: &Option<Vec<u8>>) -> Result<String> {
    match value {
        Some(value) => digits(alloc, value.as_slice()),
        None => word(alloc, "none"),
    }
}
