//! Arrays that commands open again, or for the first time.
ghost use Rattle.std.specs.Prelude.{◌≡◌, IsTrue, IfOk, IfErr, OnOk, OnErr};
ghost use Rattle.zarr_grids_keys.specs.Paths.{is_node_path};
ghost use Rattle.zarr_run_meaning.specs.Requests as ask;
ghost use Rattle.zarr_run_opening.specs.Arrays.{KeepsArrays, KeepsOtherArrays};
ghost use Rattle.zarr_run_opening.specs.Calls.{IsStoreCause, refused_by};
ghost use Rattle.zarr_run_opening.specs.ChunkKeys.{IsChunkKeyOf};
ghost use Rattle.zarr_run_opening.specs.Reopenings.{HasSameDocument, ComparisonRefused, IsDocumentBeside, IsOpenedFrom, IsVersionBeside, OpeningRefused, Reopened};
ghost use Rattle.zarr_run_opening.specs.Sessions.{StepsFrom, answer_of, array_at};

use crate::arrays::{find, hold, set_order};
use crate::chunk_keys::is_chunk_key;
use crate::held::HeldArray;
use crate::opening::open_tree;
use crate::stored::{StoredDocument, stored_document};
use std::alloc::Global;
use std::collections::BTreeMap;
use zarr_array_storage::ReadableStorageTraits;
use zarr_array_v2::is_version_2;
use zarr_codecs_options::SubchunkWriteOrder;
use zarr_codecs_traits::BytesToBytesCodecTraits;
use zarr_grids_keys::{DocumentName, is_node_path};
use zarr_grids_metadata::same_tree;
use zarr_run_meaning::Cause;

/// Gives a held array another write order, where its document is still stored; else
/// `DocumentChanged`. Where none is held, opens what is stored, of version 3 before 2: `NoArray`
/// where nothing is, `Document` where it cannot be opened. A chunk of a held array is no document.
/// `Path` where the text is no node path, `Store` where the store refuses.
pub fn reopen<B: BytesToBytesCodecTraits, S: ReadableStorageTraits>(
    alloc: Global,
    arrays: &mut BTreeMap<String, HeldArray<B>>,
    store: &mut S,
    path: &str,
    order: SubchunkWriteOrder,
) -> Result<(), Cause>
    ensures steps { IsTrue (S.is_honest store.old) → StepsFrom (B.meaning, B.reads)
        (arrays.old, (S.held store.old, S.refused_calls store.old))
        (ask.reopen path.now order, answer_of result)
        (arrays.new, (S.held store.new, S.refused_calls store.new)) }
    ensures honest { S.is_honest store.new ≡ S.is_honest store.old }
    ensures calls { S.refused_calls store.new ≡ refused_by (S.refused_calls store.old) result }
    ensures accepted { S.accepted_writes store.new ≡ S.accepted_writes store.old }
{
    if !is_node_path(path) {
        return Err(Cause::Path);
    }
    reopened(alloc, arrays, store, path, order)
}

/// Reopens an array at a node path, or says why not.
fn reopened<B: BytesToBytesCodecTraits, S: ReadableStorageTraits>(
    alloc: Global,
    arrays: &mut BTreeMap<String, HeldArray<B>>,
    store: &mut S,
    path: &str,
    order: SubchunkWriteOrder,
) -> Result<(), Cause>
    requires { IsTrue (is_node_path path.now) }
    ensures found { IsTrue (S.is_honest store.old) → Reopened (B.meaning, B.reads)
        (record { path = path.now; order = order; arrays = arrays.old; store = S.held store.old })
        (array_at arrays.old path.now) result arrays.new }
    ensures others { OnOk result (KeepsOtherArrays path.now arrays.old arrays.new) }
    ensures arrays { OnErr result (KeepsArrays arrays.old arrays.new) }
    ensures held { S.held store.new ≡ S.held store.old }
    ensures honest { S.is_honest store.new ≡ S.is_honest store.old }
    ensures calls { S.refused_calls store.new ≡ refused_by (S.refused_calls store.old) result }
    ensures accepted { S.accepted_writes store.new ≡ S.accepted_writes store.old }
{
    if let Some(array) = find(arrays, path) {
        match compare(alloc, store, path, array) {
            Ok(()) => {}
            Err(cause) => return Err(cause),
        }
        set_order(alloc, arrays, path, order);
        return Ok(());
    }
    let Ok(at) = String::from_str(alloc, path) else {
        return Err(Cause::Memory);
    };
    let array = match open(alloc, arrays, store, path, order) {
        Ok(array) => array,
        Err(cause) => return Err(cause),
    };
    match hold(arrays, at, array) {
        Ok(()) => Ok(()),
        Err(_) => Err(Cause::Memory),
    }
}

/// Tests whether the document of an array is stored, under the keys of its version.
fn compare<B: BytesToBytesCodecTraits, S: ReadableStorageTraits>(
    alloc: Global,
    store: &mut S,
    path: &str,
    array: &HeldArray<B>,
) -> Result<(), Cause>
    requires { IsTrue (is_node_path path.now) }
    ensures ok { IsTrue (S.is_honest store.old) →
        OnOk result (HasSameDocument path.now array.now (S.held store.old)) }
    ensures refused { IsTrue (S.is_honest store.old) →
        IfErr result (ComparisonRefused path.now array.now (S.held store.old)) }
    ensures held { S.held store.new ≡ S.held store.old }
    ensures honest { S.is_honest store.new ≡ S.is_honest store.old }
    ensures calls { S.refused_calls store.new ≡ refused_by (S.refused_calls store.old) result }
    ensures accepted { S.accepted_writes store.new ≡ S.accepted_writes store.old }
{
    match stored_document(alloc, store, path, is_version_2(&array.tree)) {
        Ok(StoredDocument::Tree(tree)) => {
            if same_tree(&tree, &array.tree) {
                Ok(())
            } else {
                Err(Cause::DocumentChanged)
            }
        }
        Ok(StoredDocument::NoDocument) => Err(Cause::DocumentChanged),
        Ok(StoredDocument::Nothing) => Err(Cause::DocumentChanged),
        Err(cause) => Err(cause),
    }
}

/// Opens the document that is stored.
fn open<B: BytesToBytesCodecTraits, S: ReadableStorageTraits>(
    alloc: Global,
    arrays: &BTreeMap<String, HeldArray<B>>,
    store: &mut S,
    path: &str,
    order: SubchunkWriteOrder,
) -> Result<HeldArray<B>, Cause>
    requires { IsTrue (is_node_path path.now) }
    ensures ok { IsTrue (S.is_honest store.old) → IfOk result (IsOpenedFrom (B.meaning, B.reads)
        (record {
          path = path.now;
          order = order;
          arrays = arrays.now;
          store = S.held store.old;
        })) }
    ensures refused { IsTrue (S.is_honest store.old) → IfErr result
        (OpeningRefused (IsChunkKeyOf B.meaning arrays.now) B.reads path.now (S.held store.old)) }
    ensures held { S.held store.new ≡ S.held store.old }
    ensures honest { S.is_honest store.new ≡ S.is_honest store.old }
    ensures calls { S.refused_calls store.new ≡ refused_by (S.refused_calls store.old) result }
    ensures accepted { S.accepted_writes store.new ≡ S.accepted_writes store.old }
{
    let tree = match document_beside(alloc, arrays, store, path) {
        Ok(StoredDocument::Tree(tree)) => tree,
        Ok(StoredDocument::NoDocument) => return Err(Cause::Document),
        Ok(StoredDocument::Nothing) => return Err(Cause::NoArray),
        Err(cause) => return Err(cause),
    };
    match open_tree(alloc, path, &tree, order) {
        Ok(core) => Ok(HeldArray { core, tree, order }),
        Err(cause) => Err(cause),
    }
}

/// The document that a path has: of Zarr version 3, or else of version 2. What is stored for a
/// chunk of an array that is held is none.
fn document_beside<B: BytesToBytesCodecTraits, S: ReadableStorageTraits>(
    alloc: Global,
    arrays: &BTreeMap<String, HeldArray<B>>,
    store: &mut S,
    path: &str,
) -> Result<StoredDocument, Cause>
    requires { IsTrue (is_node_path path.now) }
    ensures is { IsTrue (S.is_honest store.old) → IfOk result
        (IsDocumentBeside (IsChunkKeyOf B.meaning arrays.now) path.now (S.held store.old)) }
    ensures cause { IsTrue (S.is_honest store.old) → IfErr result IsStoreCause }
    ensures held { S.held store.new ≡ S.held store.old }
    ensures honest { S.is_honest store.new ≡ S.is_honest store.old }
    ensures calls { S.refused_calls store.new ≡ refused_by (S.refused_calls store.old) result }
    ensures accepted { S.accepted_writes store.new ≡ S.accepted_writes store.old }
{
    match version_beside(alloc, arrays, store, path, false) {
        Ok(StoredDocument::Nothing) => version_beside(alloc, arrays, store, path, true),
        Ok(found) => Ok(found),
        Err(cause) => Err(cause),
    }
}

/// The document of version 2, or else 3, that is stored at a path, and nothing where its key is
/// that of a chunk of an array that is held.
fn version_beside<B: BytesToBytesCodecTraits, S: ReadableStorageTraits>(
    alloc: Global,
    arrays: &BTreeMap<String, HeldArray<B>>,
    store: &mut S,
    path: &str,
    version_2: bool,
) -> Result<StoredDocument, Cause>
    requires { IsTrue (is_node_path path.now) }
    ensures is { IsTrue (S.is_honest store.old) → IfOk result (IsVersionBeside
        (IsChunkKeyOf B.meaning arrays.now) version_2 path.now (S.held store.old)) }
    ensures cause { IsTrue (S.is_honest store.old) → IfErr result IsStoreCause }
    ensures held { S.held store.new ≡ S.held store.old }
    ensures honest { S.is_honest store.new ≡ S.is_honest store.old }
    ensures calls { S.refused_calls store.new ≡ refused_by (S.refused_calls store.old) result }
    ensures accepted { S.accepted_writes store.new ≡ S.accepted_writes store.old }
{
    let name = if version_2 {
        DocumentName::ZArray
    } else {
        DocumentName::ZarrJson
    };
    match is_chunk_key(alloc, arrays, path, name) {
        Ok(true) => Ok(StoredDocument::Nothing),
        Ok(false) => stored_document(alloc, store, path, version_2),
        Err(_) => Err(Cause::Memory),
    }
}
