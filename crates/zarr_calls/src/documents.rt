//! Array documents.
use anyhow::{Context, Result};
use serde_json::Value;
use std::alloc::Global;
use zarr_array_metadata::{ArrayDocument, read_document, written_document};
use zarr_calls_grids::words::{cut, numbers, numbers_in, refused, texts_of, word};
use zarr_calls_kinds::TestCodec;
use zarr_codecs_arrays::Elements;
use zarr_grids_chunk_grids::ChunkGridTraits;

/// What a call of documents gives.
pub(crate) fn answer(alloc: Global, name: &str, rest: &str) -> Option<Result<String>> {
    match name {
        "document" => Some(read(alloc, rest)),
        "written" => Some(written(alloc, rest)),
        "document_type" => Some(data_type(alloc, rest)),
        "document_codecs" => Some(codecs(alloc, rest)),
        "document_chunk" => Some(chunk(alloc, rest)),
        "document_chunk_key" => Some(key(alloc, rest)),
        _ => None,
    }
}

/// The document of a text.
fn document_in(alloc: Global, text: &str) -> Result<ArrayDocument<TestCodec>> {
    Ok(read_document(alloc, &Value::from_str(alloc, text)?)?)
}

/// The metadata of each codec of a document.
fn codecs(alloc: Global, text: &str) -> Result<String> {
    let metadatas = document_in(alloc, text)?.codecs.create_metadatas(alloc)?;
    texts_of(alloc, metadatas.as_slice())
}

/// Whether a document is read, or why not.
fn read(alloc: Global, text: &str) -> Result<String> {
    match read_document::<TestCodec>(alloc, &Value::from_str(alloc, text)?) {
        Ok(_) => word(alloc, "read"),
        Err(error) => refused(alloc, &error),
    }
}

/// The text that is written for a document.
fn written(alloc: Global, text: &str) -> Result<String> {
    let document = Value::from_str(alloc, text)?;
    Ok(written_document(alloc, &document)?.to_string(alloc)?)
}

/// The data type of elements.
fn name_of(alloc: Global, elements: &Elements) -> Result<String> {
    let name = elements.data_type().metadata(alloc)?;
    Ok(name.context("a type has no name")?.to_string(alloc)?)
}

/// The fill value of elements.
fn fill_of(alloc: Global, elements: &Elements) -> Result<String> {
    let data_type = elements.data_type();
    let fill = elements.fill_value().to_metadata(alloc, data_type)?;
    Ok(fill.context("a fill value has no text")?.to_string(alloc)?)
}

/// The data type and the fill value of a document.
fn data_type(alloc: Global, text: &str) -> Result<String> {
    let elements = document_in(alloc, text)?.elements;
    let name = name_of(alloc, &elements)?;
    let fill = fill_of(alloc, &elements)?;
    Ok(format!(in alloc; "{name} {fill}")?)
}

/// How many dimensions a document's grid has, and the shape of a chunk.
fn chunk(alloc: Global, rest: &str) -> Result<String> {
    let (text, chunk) = cut(rest)?;
    let chunk = numbers_in(alloc, chunk)?;
    let grid = document_in(alloc, text)?.grid;
    match grid.chunk_shape_u64(alloc, chunk.as_slice())? {
        Some(shape) => numbers(alloc, shape.as_slice()),
        None => word(alloc, "none"),
    }
}

/// The name that a document's encoding gives a chunk.
fn key(alloc: Global, rest: &str) -> Result<String> {
    let (text, chunk) = cut(rest)?;
    let chunk = numbers_in(alloc, chunk)?;
    let keys = document_in(alloc, text)?.keys;
    Ok(keys.encode(alloc, chunk.as_slice())?)
}
