//! Arrays that commands create.
ghost use Rattle.std.specs.Prelude.{◌≡◌, ◌≤◌, IsTrue, None, Some, Ok, false, is_some, IfOk, IfErr, OnOk, OnErr, string_bytes};
ghost use Rattle.std.specs.FinMap.{get};
ghost use Rattle.serde_json.specs.Data.{depth};
ghost use Rattle.serde_json.specs.View.{view};
ghost use Rattle.zarr_grids_keys.specs.Documents.{document_key};
ghost use Rattle.zarr_grids_keys.specs.Paths.{is_node_path};
ghost use Rattle.zarr_array_core.specs.Views.{path_of, document_of};
ghost use Rattle.zarr_array_meaning.specs.Documents.{read_document};
ghost use Rattle.zarr_array_meaning.specs.StoreMaps.{CountsUpTo};
ghost use Rattle.zarr_array_meaning.specs.Texts.{HasNoDocument};
ghost use Rattle.zarr_array_meaning.specs.Written.{written_document};
ghost use Rattle.zarr_sharding_chains.specs.ArrayChains.{array_meaning};
ghost use Rattle.zarr_run_meaning.specs.Causes.{HasSomeDocument};
ghost use Rattle.zarr_run_meaning.specs.Counts.{WritesAtMost};
ghost use Rattle.zarr_run_meaning.specs.Requests as ask;
ghost use Rattle.zarr_run_meaning.specs.Worlds.{World};
ghost use Rattle.zarr_run_opening.specs.Arrays.{IsFreeIn, KeepsArrays, KeepsOtherArrays};
ghost use Rattle.zarr_run_opening.specs.Calls.{IsStoreCause, refused_by};
ghost use Rattle.zarr_run_opening.specs.Creations.{IsWritten, IsPrepared, PreparationRefused, IsStored, StoredFirst, StoringRefused, LeavesFirst, with_texts, most_calls, most_created};
ghost use Rattle.zarr_run_opening.specs.Sessions.{FollowsOrder, StepsFrom, answer_of, array_at};

use crate::arrays::{hold, is_path_taken, release};
use crate::held::HeldArray;
use crate::opening::open_tree;
use crate::store_calls::{get, store_key};
use crate::texts::{Texts, store_texts, texts_of};
use serde_json::Value;
use std::alloc::{AllocError, Global};
use std::collections::BTreeMap;
use zarr_array_core::ArrayCore;
use zarr_array_metadata::written_document;
use zarr_array_storage::{ReadableStorageTraits, WritableStorageTraits};
use zarr_codecs_options::SubchunkWriteOrder;
use zarr_codecs_traits::BytesToBytesCodecTraits;
use zarr_grids_keys::{DocumentName, is_node_path};
use zarr_run_meaning::Cause;
use zarr_sharding_chains::ArrayChain;

/// The document that is written for a new array at a path, and its texts.
#[derive(Drop)]
struct WrittenDocument {
    at: String,
    tree: Value,
    texts: Texts,
}

/// A new array that isn't held yet, its path, and the texts of its document.
#[derive(Drop)]
pub(crate) struct Prepared<B: BytesToBytesCodecTraits> {
    at: String,
    texts: Texts,
    array: HeldArray<B>,
}

/// Creates an array, and stores its document: of version 2 first `.zattrs`. `Path` where the text
/// is no node path, `PathTaken` where an array is held at a related path, `Document` where the
/// document cannot be opened, `PathTaken` where one is stored at the path, `Store` where the store
/// refuses. The array is held only after the store's last call.
pub fn create<B: BytesToBytesCodecTraits, S: WritableStorageTraits>(
    alloc: Global,
    arrays: &mut BTreeMap<String, HeldArray<B>>,
    store: &mut S,
    path: &str,
    document: &Value,
    order: SubchunkWriteOrder,
) -> Result<(), Cause>
    ensures steps { IsTrue (S.is_honest store.old) → StepsFrom (B.meaning, B.reads)
        (arrays.old, (S.held store.old, S.refused_calls store.old))
        (ask.create path.now (view document.now) order, answer_of result)
        (arrays.new, (S.held store.new, S.refused_calls store.new)) }
    ensures honest { S.is_honest store.new ≡ S.is_honest store.old }
    ensures calls { S.refused_calls store.new ≡ refused_by (S.refused_calls store.old) result }
    ensures writes { IsTrue (S.is_honest store.old) → (world : World) → WritesAtMost world
        (ask.create path.now (view document.now) order) (answer_of result)
        (S.accepted_writes store.old) (S.accepted_writes store.new) }
    ensures accepted { CountsUpTo (most_created (view document.now) result)
        (S.accepted_writes store.old) (S.accepted_writes store.new) }
{
    match prepare(alloc, arrays, path, document, order) {
        Ok(prepared) => put(alloc, arrays, store, path, prepared),
        Err(cause) => Err(cause),
    }
}

/// Tests the path, and makes all that a new array needs.
fn prepare<B: BytesToBytesCodecTraits>(
    alloc: Global,
    arrays: &BTreeMap<String, HeldArray<B>>,
    path: &str,
    document: &Value,
    order: SubchunkWriteOrder,
) -> Result<Prepared<B>, Cause>
    ensures node { OnOk result (IsTrue (is_node_path path.now)) }
    ensures free { OnOk result (IsFreeIn arrays.now path.now) }
    ensures ok { IfOk result
        (IsPrepared (B.meaning, B.reads) path.now (view document.now) order) }
    ensures refused { IfErr result
        (PreparationRefused B.reads arrays.now path.now (view document.now)) }
{
    if !is_node_path(path) {
        return Err(Cause::Path);
    }
    match is_path_taken(alloc, arrays, path) {
        Ok(false) => {}
        Ok(true) => return Err(Cause::PathTaken),
        Err(_) => return Err(Cause::Memory),
    }
    let core = match open_tree(alloc, path, document, order) {
        Ok(core) => core,
        Err(cause) => return Err(cause),
    };
    match with_document(alloc, path, document, core, order) {
        Ok(prepared) => Ok(prepared),
        Err(_) => Err(Cause::Memory),
    }
}

/// Makes the document that is written for a new array.
fn with_document<B: BytesToBytesCodecTraits>(
    alloc: Global,
    path: &str,
    document: &Value,
    core: ArrayCore<ArrayChain<B>>,
    order: SubchunkWriteOrder,
) -> Result<Prepared<B>, AllocError>
    requires node { IsTrue (is_node_path path.now) }
    requires path { path_of core ≡ path.now }
    requires opens { read_document B.reads (view document.now)
        ≡ Ok (document_of (array_meaning B.meaning) core) }
    requires exact { FollowsOrder B.meaning order core }
    ensures { IfOk result
        (IsPrepared (B.meaning, B.reads) path.now (view document.now) order) }
{
    match write_texts(alloc, path, document) {
        Ok(WrittenDocument { at, tree, texts }) => {
            let array = HeldArray { core, tree, order };
            Ok(Prepared { at, texts, array })
        }
        // By a call: the drop of so large a value is then proved once, and not field by field here.
        Err(error) => {
            drop(core);
            Err(error)
        }
    }
}

/// The document that is written, and its texts.
fn write_texts(alloc: Global, path: &str, document: &Value) -> Result<WrittenDocument, AllocError>
    requires node { IsTrue (is_node_path path.now) }
    requires shallow { depth (written_document (view document.now)) ≤ 127 }
    ensures { IfOk result (IsWritten path.now (view document.now)) }
{
    let tree = written_document(alloc, document)?;
    let texts = texts_of(alloc, path, &tree)?;
    let at = String::from_str(alloc, path)?;
    Ok(WrittenDocument { at, tree, texts })
}

/// Holds a new array, and stores its document where none is stored. All memory is taken before the
/// store is changed, and where the store refuses, the array isn't held any more.
fn put<B: BytesToBytesCodecTraits, S: WritableStorageTraits>(
    alloc: Global,
    arrays: &mut BTreeMap<String, HeldArray<B>>,
    store: &mut S,
    path: &str,
    prepared: Prepared<B>,
) -> Result<(), Cause>
    requires node { IsTrue (is_node_path path.now) }
    requires free { array_at arrays.old path.now ≡ None }
    requires at { string_bytes prepared.at ≡ path.now }
    ensures ok { IsTrue (S.is_honest store.old) → OnOk result (IsStored path.now prepared
        (arrays.old, (S.held store.old, S.refused_calls store.old))
        (arrays.new, (S.held store.new, S.refused_calls store.new))) }
    ensures refused { IsTrue (S.is_honest store.old) →
        IfErr result (StoringRefused path.now (S.held store.old)) }
    ensures leaves { IsTrue (S.is_honest store.old) → OnErr result
        (LeavesFirst path.now prepared.texts (S.held store.old) (S.held store.new)) }
    ensures arrays { OnErr result (KeepsArrays arrays.old arrays.new) }
    ensures honest { S.is_honest store.new ≡ S.is_honest store.old }
    ensures calls { S.refused_calls store.new ≡ refused_by (S.refused_calls store.old) result }
    ensures accepted { CountsUpTo (most_calls prepared.texts result)
        (S.accepted_writes store.old) (S.accepted_writes store.new) }
{
    match has_document(alloc, store, path) {
        Ok(false) => hold_stored(arrays, store, path, prepared),
        // By a call, as above.
        Ok(true) => {
            drop(prepared);
            Err(Cause::PathTaken)
        }
        Err(cause) => {
            drop(prepared);
            Err(cause)
        }
    }
}

/// Holds a new array, and stores its document.
fn hold_stored<B: BytesToBytesCodecTraits, S: WritableStorageTraits>(
    arrays: &mut BTreeMap<String, HeldArray<B>>,
    store: &mut S,
    path: &str,
    prepared: Prepared<B>,
) -> Result<(), Cause>
    requires free { array_at arrays.old path.now ≡ None }
    requires at { string_bytes prepared.at ≡ path.now }
    ensures held { OnOk result (array_at arrays.new path.now ≡ Some prepared.array) }
    ensures others { OnOk result (KeepsOtherArrays path.now arrays.old arrays.new) }
    ensures writes { IsTrue (S.is_honest store.old) → OnOk result
        (S.held store.new ≡ with_texts prepared.texts (S.held store.old)) }
    ensures cause { IsTrue (S.is_honest store.old) → IfErr result IsStoreCause }
    ensures leaves { IsTrue (S.is_honest store.old) → OnErr result
        (StoredFirst prepared.texts (S.held store.old) (S.held store.new)) }
    ensures arrays { OnErr result (KeepsArrays arrays.old arrays.new) }
    ensures honest { S.is_honest store.new ≡ S.is_honest store.old }
    ensures calls { S.refused_calls store.new ≡ refused_by (S.refused_calls store.old) result }
    ensures accepted { CountsUpTo (most_calls prepared.texts result)
        (S.accepted_writes store.old) (S.accepted_writes store.new) }
{
    let Prepared { at, texts, array } = prepared;
    let Ok(()) = hold(arrays, at, array) else {
        return Err(Cause::Memory);
    };
    match store_texts(store, &texts) {
        Ok(()) => Ok(()),
        Err(cause) => {
            release(arrays, path);
            Err(cause)
        }
    }
}

/// Whether a document is stored at a path, of Zarr version 3 or 2.
fn has_document<S: ReadableStorageTraits>(
    alloc: Global,
    store: &mut S,
    path: &str,
) -> Result<bool, Cause>
    requires { IsTrue (is_node_path path.now) }
    ensures some { IsTrue (S.is_honest store.old) → IfOk result
        (λ found. IsTrue found → HasSomeDocument path.now (S.held store.old)) }
    ensures none { IsTrue (S.is_honest store.old) → IfOk result
        (λ found. found ≡ false → HasNoDocument path.now (S.held store.old)) }
    ensures cause { IsTrue (S.is_honest store.old) → IfErr result IsStoreCause }
    ensures held { S.held store.new ≡ S.held store.old }
    ensures honest { S.is_honest store.new ≡ S.is_honest store.old }
    ensures calls { S.refused_calls store.new ≡ refused_by (S.refused_calls store.old) result }
    ensures accepted { S.accepted_writes store.new ≡ S.accepted_writes store.old }
{
    if has_value(alloc, store, path, DocumentName::ZarrJson)? {
        return Ok(true);
    }
    has_value(alloc, store, path, DocumentName::ZArray)
}

/// Whether something is stored as this document of the node at a path.
fn has_value<S: ReadableStorageTraits>(
    alloc: Global,
    store: &mut S,
    path: &str,
    name: DocumentName,
) -> Result<bool, Cause>
    requires { IsTrue (is_node_path path.now) }
    ensures found { IsTrue (S.is_honest store.old) → IfOk result
        (λ found. found ≡ is_some (get (S.held store.old) (document_key path.now name))) }
    ensures cause { IsTrue (S.is_honest store.old) → IfErr result IsStoreCause }
    ensures held { S.held store.new ≡ S.held store.old }
    ensures honest { S.is_honest store.new ≡ S.is_honest store.old }
    ensures calls { S.refused_calls store.new ≡ refused_by (S.refused_calls store.old) result }
    ensures accepted { S.accepted_writes store.new ≡ S.accepted_writes store.old }
{
    let Ok(key) = store_key(alloc, path, name) else {
        return Err(Cause::Memory);
    };
    match get(store, &key) {
        Ok(value) => Ok(value.is_some()),
        Err(cause) => Err(cause),
    }
}
