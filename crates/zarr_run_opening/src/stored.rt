//! Documents that are stored.
ghost use Rattle.std.specs.Prelude.{◌≡◌, true, false, IsTrue, IfOk, IfErr, if◌then◌else◌};
ghost use Rattle.zarr_grids_keys.specs.Documents.{document_key};
ghost use Rattle.zarr_grids_keys.specs.Paths.{is_node_path};
ghost use Rattle.zarr_run_opening.specs.Calls.{IsStoreCause, refused_by};
ghost use Rattle.zarr_run_opening.specs.Reopenings.{IsTreeAt, IsTreeUnder, IsVersionAt};

use crate::store_calls::{get, store_key};
use serde_json::Value;
use std::alloc::Global;
use zarr_array_storage::ReadableStorageTraits;
use zarr_array_v2::{is_version_2, with_attributes};
use zarr_grids_keys::DocumentName;
use zarr_run_meaning::Cause;

/// What is stored of a document.
#[derive(Drop)]
pub(crate) enum StoredDocument {
    Nothing,
    /// Something that is no document.
    NoDocument,
    Tree(Value),
}

/// The document of Zarr version 2, or else 3, that is stored at a path.
pub(crate) fn stored_document<S: ReadableStorageTraits>(
    alloc: Global,
    store: &mut S,
    path: &str,
    version_2: bool,
) -> Result<StoredDocument, Cause>
    requires { IsTrue (is_node_path path.now) }
    ensures is { IsTrue (S.is_honest store.old) →
        IfOk result (IsVersionAt version_2 path.now (S.held store.old)) }
    ensures cause { IsTrue (S.is_honest store.old) → IfErr result IsStoreCause }
    ensures held { S.held store.new ≡ S.held store.old }
    ensures honest { S.is_honest store.new ≡ S.is_honest store.old }
    ensures calls { S.refused_calls store.new ≡ refused_by (S.refused_calls store.old) result }
    ensures accepted { S.accepted_writes store.new ≡ S.accepted_writes store.old }
{
    match stored_under(alloc, store, path, version_2) {
        Ok(StoredDocument::Tree(tree)) => {
            if is_version_2(&tree) == version_2 {
                Ok(StoredDocument::Tree(tree))
            } else {
                Ok(StoredDocument::NoDocument)
            }
        }
        Ok(found) => Ok(found),
        Err(cause) => Err(cause),
    }
}

/// The tree that stands at a path under the keys of a version.
fn stored_under<S: ReadableStorageTraits>(
    alloc: Global,
    store: &mut S,
    path: &str,
    version_2: bool,
) -> Result<StoredDocument, Cause>
    requires { IsTrue (is_node_path path.now) }
    ensures is { IsTrue (S.is_honest store.old) →
        IfOk result (IsTreeUnder version_2 path.now (S.held store.old)) }
    ensures cause { IsTrue (S.is_honest store.old) → IfErr result IsStoreCause }
    ensures held { S.held store.new ≡ S.held store.old }
    ensures honest { S.is_honest store.new ≡ S.is_honest store.old }
    ensures calls { S.refused_calls store.new ≡ refused_by (S.refused_calls store.old) result }
    ensures accepted { S.accepted_writes store.new ≡ S.accepted_writes store.old }
{
    if version_2 {
        stored_parts(alloc, store, path)
    } else {
        stored_tree(alloc, store, path, DocumentName::ZarrJson)
    }
}

/// What `.zarray` holds, with the attributes that `.zattrs` holds in place of its own.
fn stored_parts<S: ReadableStorageTraits>(
    alloc: Global,
    store: &mut S,
    path: &str,
) -> Result<StoredDocument, Cause>
    requires { IsTrue (is_node_path path.now) }
    ensures is { IsTrue (S.is_honest store.old) →
        IfOk result (IsTreeUnder true path.now (S.held store.old)) }
    ensures cause { IsTrue (S.is_honest store.old) → IfErr result IsStoreCause }
    ensures held { S.held store.new ≡ S.held store.old }
    ensures honest { S.is_honest store.new ≡ S.is_honest store.old }
    ensures calls { S.refused_calls store.new ≡ refused_by (S.refused_calls store.old) result }
    ensures accepted { S.accepted_writes store.new ≡ S.accepted_writes store.old }
{
    let members = match stored_tree(alloc, store, path, DocumentName::ZArray)? {
        StoredDocument::Tree(Value::Object(members)) => members,
        StoredDocument::Nothing => return Ok(StoredDocument::Nothing),
        _ => return Ok(StoredDocument::NoDocument),
    };
    let attributes = match stored_tree(alloc, store, path, DocumentName::ZAttrs)? {
        StoredDocument::Tree(attributes) => Some(attributes),
        StoredDocument::Nothing => None,
        StoredDocument::NoDocument => return Ok(StoredDocument::NoDocument),
    };
    match with_attributes(alloc, members, attributes) {
        Ok(joined) => Ok(StoredDocument::Tree(Value::Object(joined))),
        Err(_) => Err(Cause::Memory),
    }
}

/// The tree that stands under one key.
fn stored_tree<S: ReadableStorageTraits>(
    alloc: Global,
    store: &mut S,
    path: &str,
    name: DocumentName,
) -> Result<StoredDocument, Cause>
    requires { IsTrue (is_node_path path.now) }
    ensures is { IsTrue (S.is_honest store.old) →
        IfOk result (IsTreeAt (document_key path.now name) (S.held store.old)) }
    ensures cause { IsTrue (S.is_honest store.old) → IfErr result IsStoreCause }
    ensures held { S.held store.new ≡ S.held store.old }
    ensures honest { S.is_honest store.new ≡ S.is_honest store.old }
    ensures calls { S.refused_calls store.new ≡ refused_by (S.refused_calls store.old) result }
    ensures accepted { S.accepted_writes store.new ≡ S.accepted_writes store.old }
{
    let Ok(key) = store_key(alloc, path, name) else {
        return Err(Cause::Memory);
    };
    let Some(text) = get(store, &key)? else {
        return Ok(StoredDocument::Nothing);
    };
    match Value::from_slice(alloc, text.as_slice()) {
        Ok(tree) => Ok(StoredDocument::Tree(tree)),
        Err(error) => {
            if error.is_memory() {
                Err(Cause::Memory)
            } else {
                Ok(StoredDocument::NoDocument)
            }
        }
    }
}
