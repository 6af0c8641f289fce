//! Chunk key encodings, store keys and node paths.
use crate::words::{cut, metadata_in, numbers_in, refused, text_of, truth, word};
use anyhow::{Result, bail};
use std::alloc::Global;
use zarr_grids_keys::{
    ChunkKeyEncoding, DocumentName, NodePath, StoreKey, are_related, chunk_key, chunk_key_into,
    document_key, is_node_path, parent_path,
};

/// What a call of keys gives.
pub(crate) fn answer(alloc: Global, name: &str, rest: &str) -> Option<Result<String>> {
    match name {
        "encoding" => Some(written(alloc, rest)),
        "key" => Some(key(alloc, rest)),
        "chunk_key" => Some(key_of_chunk(alloc, rest)),
        "document_key" => Some(key_of_document(alloc, rest)),
        "path" => Some(path(alloc, rest)),
        "related" => Some(related(alloc, rest)),
        "store_key" => Some(store_key(alloc, rest)),
        _ => None,
    }
}

/// The encoding of a text.
fn encoding_in(alloc: Global, text: &str) -> Result<ChunkKeyEncoding> {
    let metadata = metadata_in(alloc, text)?;
    Ok(ChunkKeyEncoding::from_metadata(alloc, &metadata)?)
}

/// How the encoding of a text is written.
fn written(alloc: Global, text: &str) -> Result<String> {
    let metadata = metadata_in(alloc, text)?;
    match ChunkKeyEncoding::from_metadata(alloc, &metadata) {
        Ok(keys) => text_of(alloc, &keys.metadata(alloc)?),
        Err(error) => refused(alloc, &error),
    }
}

/// The name that an encoding gives a chunk, and so does its copy.
fn key(alloc: Global, rest: &str) -> Result<String> {
    let (encoding, chunk) = cut(rest)?;
    let chunk = numbers_in(alloc, chunk)?;
    let keys = encoding_in(alloc, encoding)?;
    name_of(alloc, &keys, chunk.as_slice())
}

fn name_of(alloc: Global, keys: &ChunkKeyEncoding, chunk: &[u64]) -> Result<String> {
    let copy = keys.try_clone(alloc)?;
    if copy != *keys {
        bail!("the copy of an encoding differs");
    }
    Ok(copy.encode(alloc, chunk)?)
}

/// The key of a chunk of an array at a path, which is also written into a text.
fn key_of_chunk(alloc: Global, rest: &str) -> Result<String> {
    let (encoding, rest) = cut(rest)?;
    let (path, chunk) = cut(rest)?;
    let keys = encoding_in(alloc, encoding)?;
    let chunk = numbers_in(alloc, chunk)?;
    key_at(alloc, path, &keys, chunk.as_slice())
}

fn key_at(alloc: Global, path: &str, keys: &ChunkKeyEncoding, chunk: &[u64]) -> Result<String> {
    if !is_node_path(path) {
        bail!("an argument is no path");
    }
    let key = chunk_key(alloc, path, keys, chunk)?;
    let mut same = String::new(alloc);
    chunk_key_into(&mut same, path, keys, chunk)?;
    if key.as_str() != same.as_str() {
        bail!("a chunk has two keys");
    }
    Ok(key)
}

/// The document of a name.
fn document_in(text: &str) -> Result<DocumentName> {
    match text {
        "zarr.json" => Ok(DocumentName::ZarrJson),
        ".zarray" => Ok(DocumentName::ZArray),
        ".zattrs" => Ok(DocumentName::ZAttrs),
        _ => bail!("there is no such document: {text}"),
    }
}

/// The key of a document of a node at a path.
fn key_of_document(alloc: Global, rest: &str) -> Result<String> {
    let (path, name) = cut(rest)?;
    if !is_node_path(path) {
        bail!("an argument is no path");
    }
    Ok(document_key(alloc, path, document_in(name)?)?)
}

/// The parent of a path, or `none`; `no path` of a text that is none.
fn path(alloc: Global, text: &str) -> Result<String> {
    let text = if text == "empty" { "" } else { text };
    let found = NodePath::new(String::from_str(alloc, text)?);
    if found.is_ok() != is_node_path(text) {
        bail!("a text is a path and none");
    }
    match found {
        Ok(path) if path.try_clone(alloc)? == path => word(
            alloc,
            parent_path(text).unwrap_or("none"),
        ),
        Ok(_) => bail!("the copy of a path differs"),
        Err(_) => word(alloc, "no path"),
    }
}

/// Whether two paths are related, from either side.
fn related(alloc: Global, rest: &str) -> Result<String> {
    let (path, other) = cut(rest)?;
    let is_related = are_related(path, other);
    if are_related(other, path) != is_related {
        bail!("paths are related from one side alone");
    }
    truth(alloc, is_related)
}

/// The copy of a store key, or a refusal.
fn store_key(alloc: Global, text: &str) -> Result<String> {
    match StoreKey::new(String::from_str(alloc, text)?) {
        Ok(key) if key.try_clone(alloc)? == key => word(alloc, key.as_str()),
        Ok(_) => bail!("the copy of a key differs"),
        Err(error) => refused(alloc, &error),
    }
}
