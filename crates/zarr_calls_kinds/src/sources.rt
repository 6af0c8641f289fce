//! Values in sources.
use crate::counting_source::CountingSource;
use anyhow::Result;
use std::alloc::Global;
use zarr_calls_grids::words::{bytes_in, cut, digits, number_in, word};
use zarr_codecs_arrays::CodecError;
use zarr_codecs_traits::{BytesPartialEncoderTraits, MemorySource, ValuePatch};

/// What a call of a value gives.
pub(crate) fn answer(alloc: Global, name: &str, rest: &str) -> Option<Result<String>> {
    match name {
        "write" => Some(write(alloc, rest)),
        _ => None,
    }
}

/// The source of a value, or of `none`.
pub(crate) fn source_in(alloc: Global, text: &str) -> Result<MemorySource> {
    let value = match text {
        "none" => None,
        _ => Some(bytes_in(alloc, text)?),
    };
    Ok(MemorySource::new(value))
}

/// The same as a source that counts calls, and refuses one where its number is behind the value.
pub fn counting_in(alloc: Global, text: &str) -> Result<CountingSource> {
    let (value, refuses) = match text.split_once(" refusing ") {
        Some((value, number)) => (value, number_in(number)?),
        None => (text, 0),
    };
    Ok(CountingSource {
        inner: source_in(alloc, value)?,
        calls: 0,
        reads: 0,
        given: 0,
        writes: 0,
        refuses,
        refused: 0,
    })
}

/// The value of a source, or `none`.
pub(crate) fn value_of(alloc: Global, source: MemorySource) -> Result<String> {
    match source.into_value() {
        Some(value) => digits(alloc, value.as_slice()),
        None => word(alloc, "none"),
    }
}

/// Writes bytes into a source from an offset on.
fn patch(
    alloc: Global,
    source: &mut MemorySource,
    offset: u64,
    bytes: &[u8],
) -> Result<(), CodecError> {
    source.partial_encode(alloc, &[ValuePatch { offset, bytes }])
}

/// The value once bytes are written into it from an offset on.
fn write(alloc: Global, rest: &str) -> Result<String> {
    let (value, rest) = cut(rest)?;
    let (offset, bytes) = cut(rest)?;
    let offset = number_in(offset)?;
    let bytes = bytes_in(alloc, bytes)?;
    let mut source = source_in(alloc, value)?;
    match patch(alloc, &mut source, offset, bytes.as_slice()) {
        Ok(()) => value_of(alloc, source),
        Err(error) => left_by(alloc, &error, source),
    }
}

/// The value of a source, after a refusal.
fn left_by(alloc: Global, error: &CodecError, source: MemorySource) -> Result<String> {
    let value = value_of(alloc, source)?;
    Ok(format!(in alloc; "refused {error:?}: {value}")?)
}
