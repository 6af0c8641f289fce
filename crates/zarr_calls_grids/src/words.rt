//! The arguments of calls, and what is common to answers.
use anyhow::{Context, Result, bail};
use serde_json::Value;
use std::alloc::{AllocError, Global};
use std::fmt::Debug;
use std::ops::Range;
use zarr_grids_boxes::ArraySubset;
use zarr_grids_metadata::MetadataV3;

/// The first argument of some, and the others.
pub fn cut(text: &str) -> Result<(&str, &str)> {
    text.split_once(" | ")
        .context("a call has too few arguments")
}

/// The number of a text.
pub fn number_in(text: &str) -> Result<u64> {
    Ok(text.parse()?)
}

/// The values of a JSON list.
pub fn list_in(alloc: Global, text: &str) -> Result<Vec<Value>> {
    match Value::from_str(alloc, text)? {
        Value::Array(values) => Ok(values),
        _ => bail!("an argument is no list"),
    }
}

/// The numbers of values.
fn numbers_of(alloc: Global, values: &[Value]) -> Result<Vec<u64>> {
    let mut numbers = Vec::new(alloc);
    for value in values {
        push_number(&mut numbers, value)?;
    }
    Ok(numbers)
}

fn push_number(numbers: &mut Vec<u64>, value: &Value) -> Result<()> {
    let number = value.as_u64().context("an argument has no number")?;
    Ok(numbers.push(number)?)
}

/// The numbers of a JSON list.
pub fn numbers_in(alloc: Global, text: &str) -> Result<Vec<u64>> {
    let values = list_in(alloc, text)?;
    numbers_of(alloc, values.as_slice())
}

/// The range of a pair of numbers.
fn range_of(pair: &Value) -> Option<Range<u64>> {
    match pair.as_array()?.as_slice() {
        [start, end] => Some(start.as_u64()?..end.as_u64()?),
        _ => None,
    }
}

/// The box of a JSON list of pairs, each of a start and an end.
pub fn box_in(alloc: Global, text: &str) -> Result<ArraySubset> {
    let pairs = list_in(alloc, text)?;
    let ranges = ranges_of(alloc, pairs.as_slice())?;
    Ok(ArraySubset::new_with_ranges(alloc, ranges.as_slice())?)
}

/// The ranges of pairs.
fn ranges_of(alloc: Global, pairs: &[Value]) -> Result<Vec<Range<u64>>> {
    let mut ranges = Vec::new(alloc);
    for pair in pairs {
        push_range(&mut ranges, pair)?;
    }
    Ok(ranges)
}

fn push_range(ranges: &mut Vec<Range<u64>>, pair: &Value) -> Result<()> {
    let range = range_of(pair).context("a box has no pair")?;
    Ok(ranges.push(range)?)
}

/// The metadata of a text.
pub fn metadata_in(alloc: Global, text: &str) -> Result<MetadataV3> {
    Ok(MetadataV3::from_text(alloc, text)?)
}

/// The metadata of a JSON list.
pub fn metadatas_in(alloc: Global, text: &str) -> Result<Vec<MetadataV3>> {
    let values = list_in(alloc, text)?;
    let mut metadatas = Vec::new(alloc);
    for value in &values {
        push_metadata(alloc, &mut metadatas, value)?;
    }
    Ok(metadatas)
}

fn push_metadata(alloc: Global, metadatas: &mut Vec<MetadataV3>, value: &Value) -> Result<()> {
    let metadata = MetadataV3::from_value(alloc, value)?;
    Ok(metadatas.push(metadata.context("an argument is no metadata")?)?)
}

/// The text of metadata.
pub fn text_of(alloc: Global, metadata: &MetadataV3) -> Result<String> {
    Ok(metadata.to_value(alloc)?.to_string(alloc)?)
}

/// The texts of metadata, with a space between them.
pub fn texts_of(alloc: Global, metadatas: &[MetadataV3]) -> Result<String> {
    let mut all = String::new(alloc);
    for metadata in metadatas {
        push_text(alloc, &mut all, metadata)?;
    }
    Ok(all)
}

fn push_text(alloc: Global, all: &mut String, metadata: &MetadataV3) -> Result<()> {
    Ok(push_word(all, text_of(alloc, metadata)?.as_str())?)
}

/// The answer of a call that is refused.
pub fn refused<E: Debug>(alloc: Global, error: &E) -> Result<String> {
    Ok(format!(in alloc; "refused {error:?}")?)
}

/// The answer that is a word.
pub fn word(alloc: Global, text: &str) -> Result<String> {
    Ok(String::from_str(alloc, text)?)
}

/// So many of what a word names, as `1 call` and `2 calls`.
pub fn counted(alloc: Global, count: u64, word: &str) -> Result<String> {
    let ending = if count == 1 { "" } else { "s" };
    Ok(format!(in alloc; "{count} {word}{ending}")?)
}

/// Appends a word, after a space where it isn't the first.
pub fn push_word(all: &mut String, text: &str) -> Result<(), AllocError> {
    if !all.is_empty() {
        all.push_str(" ")?;
    }
    Ok(all.push_str(text)?)
}

/// The answer that is true or false.
pub fn truth(alloc: Global, is_true: bool) -> Result<String> {
    word(alloc, if is_true { "true" } else { "false" })
}

/// The answer that is a list of numbers.
pub fn numbers(alloc: Global, numbers: &[u64]) -> Result<String> {
    Ok(format!(in alloc; "{numbers:?}")?)
}

/// The bytes of hexadecimal digits, or none of `empty`.
pub fn bytes_in(alloc: Global, text: &str) -> Result<Vec<u8>> {
    match text {
        "empty" => Ok(Vec::new(alloc)),
        _ => Ok(hex::decode(alloc, text)?),
    }
}

/// Bytes as hexadecimal digits, or as `empty`.
pub fn digits(alloc: Global, bytes: &[u8]) -> Result<String> {
    if bytes.is_empty() {
        return word(alloc, "empty");
    }
    Ok(hex::encode(alloc, bytes)?)
}
