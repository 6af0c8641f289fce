//! Elements of data types: as JSON, by their bytes, and as many fill values.
use crate::raw::{raw, raw_in};
use crate::types::{elements_in, type_in};
use anyhow::{Context, Result};
use std::alloc::Global;
use zarr_calls_grids::words::{cut, list_in, number_in, numbers, numbers_in, refused, truth, word};
use zarr_codecs_arrays::{ArrayBytes, ArrayBytesOffsets, Elements};
use zarr_codecs_json::{Printed, push_elements};
use zarr_codecs_types::DataType;

/// What a call of elements gives.
pub(crate) fn answer(alloc: Global, name: &str, rest: &str) -> Option<Result<String>> {
    match name {
        "cells" => Some(read(alloc, rest)),
        "text" => Some(printed(alloc, rest)),
        "valid" => Some(validated(alloc, rest)),
        "filled" => Some(filled(alloc, rest)),
        "fills" => Some(are_fill(alloc, rest)),
        "offsets" => Some(cut_at(alloc, rest)),
        _ => None,
    }
}

/// The bytes of the elements that a JSON list says.
fn read(alloc: Global, rest: &str) -> Result<String> {
    let (type_text, text) = cut(rest)?;
    let data_type = type_in(alloc, type_text)?;
    match values_in(alloc, &data_type, text)? {
        Some(elements) => raw(alloc, &elements),
        None => word(alloc, "none"),
    }
}

/// The elements of a type that a JSON list says, or `None` where it has other values.
fn values_in(alloc: Global, data_type: &DataType, text: &str) -> Result<Option<ArrayBytes>> {
    let values = list_in(alloc, text)?;
    Ok(zarr_codecs_json::elements_in(alloc, data_type, values.as_slice())?)
}

/// The elements of a type that an argument says, as JSON or by their bytes.
pub fn given_in(alloc: Global, data_type: &DataType, text: &str) -> Result<ArrayBytes> {
    if !text.starts_with('[') {
        return raw_in(alloc, text);
    }
    values_in(alloc, data_type, text)?.context("the cells are none of their type")
}

/// The JSON list of elements.
pub fn json(alloc: Global, data_type: &DataType, elements: &ArrayBytes) -> Result<String> {
    let mut text = Vec::new(alloc);
    match push_elements(&mut text, data_type, elements)? {
        Printed::Whole => Ok(
            String::from_utf8(text)
                .ok()
                .context("the cells are no text")?,
        ),
        Printed::NoText => word(alloc, "no text"),
    }
}

/// The JSON list of elements that are given.
fn printed(alloc: Global, rest: &str) -> Result<String> {
    let (type_text, text) = cut(rest)?;
    let data_type = type_in(alloc, type_text)?;
    json(alloc, &data_type, &given_in(alloc, &data_type, text)?)
}

/// Whether elements are so many of a type.
fn validated(alloc: Global, rest: &str) -> Result<String> {
    let (type_text, rest) = cut(rest)?;
    let (count, text) = cut(rest)?;
    let count = number_in(count)?;
    let data_type = type_in(alloc, type_text)?;
    let elements = raw_in(alloc, text)?;
    match elements.validate(&data_type, count) {
        Ok(()) => word(alloc, "valid"),
        Err(error) => refused(alloc, &error),
    }
}

/// The bytes of so many fill values, where they count as fill values.
fn filled(alloc: Global, rest: &str) -> Result<String> {
    let (type_text, rest) = cut(rest)?;
    let (fill, count) = cut(rest)?;
    let count = number_in(count)?;
    let elements = elements_in(alloc, type_text, fill)?;
    match ArrayBytes::new_fill_value(alloc, &elements, count) {
        Ok(made) => told(alloc, &made, &elements),
        Err(error) => refused(alloc, &error),
    }
}

/// The bytes of the copy of elements, where they count as fill values.
fn told(alloc: Global, made: &ArrayBytes, elements: &Elements) -> Result<String> {
    if !made.is_fill_value(elements) {
        return word(alloc, "no fill values");
    }
    raw(alloc, &made.try_clone(alloc)?)
}

/// Whether bytes are fill values.
fn are_fill(alloc: Global, rest: &str) -> Result<String> {
    let (type_text, rest) = cut(rest)?;
    let (fill, text) = cut(rest)?;
    let elements = elements_in(alloc, type_text, fill)?;
    truth(alloc, is_filled(alloc, text, &elements)?)
}

/// Whether bytes are fill values of the copy of elements.
fn is_filled(alloc: Global, text: &str, elements: &Elements) -> Result<bool> {
    let copy = elements.try_clone(alloc)?;
    Ok(raw_in(alloc, text)?.is_fill_value(&copy))
}

/// The copy of offsets, or `none` of numbers that are no offsets.
fn cut_at(alloc: Global, rest: &str) -> Result<String> {
    match ArrayBytesOffsets::new(numbers_in(alloc, rest)?) {
        Some(offsets) => numbers(alloc, offsets.try_clone(alloc)?.as_slice()),
        None => word(alloc, "none"),
    }
}
