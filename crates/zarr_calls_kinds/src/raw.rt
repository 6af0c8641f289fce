//! Elements by their bytes.
//!
//! Elements of one size are written as hexadecimal digits; elements of variable length as those of
//! the joined bytes, a space and the list of the offsets; optional elements as those of the values,
//! ` mask ` and those of the mask.
use anyhow::{Context, Result, bail};
use std::alloc::Global;
use zarr_calls_grids::words::{bytes_in, digits, numbers_in};
use zarr_codecs_arrays::{ArrayBytes, ArrayBytesOffsets};

/// The elements of a text.
pub(crate) fn raw_in(alloc: Global, text: &str) -> Result<ArrayBytes> {
    let Some((joined, rest)) = text.split_once(' ') else {
        return Ok(ArrayBytes::Fixed(bytes_in(alloc, text)?));
    };
    let bytes = bytes_in(alloc, joined)?;
    if let Some(mask) = rest.strip_prefix("mask ") {
        let inner = Box::new(alloc, ArrayBytes::Fixed(bytes))?;
        return Ok(ArrayBytes::Optional(inner, bytes_in(alloc, mask)?));
    }
    let offsets = ArrayBytesOffsets::new(numbers_in(alloc, rest)?);
    Ok(ArrayBytes::Variable(bytes, offsets.context("offsets fall")?))
}

/// The text of elements.
pub(crate) fn raw(alloc: Global, elements: &ArrayBytes) -> Result<String> {
    match elements {
        ArrayBytes::Fixed(bytes) => digits(alloc, bytes.as_slice()),
        ArrayBytes::Variable(bytes, offsets) => {
            let bytes = digits(alloc, bytes.as_slice())?;
            let offsets = offsets.as_slice();
            Ok(format!(in alloc; "{bytes} {offsets:?}")?)
        }
        ArrayBytes::Optional(inner, mask) => {
            let ArrayBytes::Fixed(bytes) = &**inner else {
                bail!("the values of optional elements have no one size");
            };
            let bytes = digits(alloc, bytes.as_slice())?;
            let mask = digits(alloc, mask.as_slice())?;
            Ok(format!(in alloc; "{bytes} mask {mask}")?)
        }
    }
}
