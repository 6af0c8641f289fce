//! The texts of a new array's document, and how they are stored.
ghost use Rattle.std.specs.Prelude.{◌≡◌, ◌≤◌, true, IsTrue, IfOk, IfErr, OnOk, OnErr};
ghost use Rattle.serde_json.specs.Data.{depth, object};
ghost use Rattle.serde_json.specs.View.{view, members_view};
ghost use Rattle.zarr_grids_keys.specs.Documents.{document_key};
ghost use Rattle.zarr_grids_keys.specs.Paths.{is_node_path};
ghost use Rattle.zarr_array_v2.specs.Versions.{has_version_2};
ghost use Rattle.zarr_array_meaning.specs.StoreMaps.{CountsUpTo};
ghost use Rattle.zarr_run_opening.specs.Calls.{IsStoreCause, refused_by};
ghost use Rattle.zarr_run_opening.specs.Creations.{IsKeyedText, AreTextsOf, StoredFirst, with_texts, most_calls};

use crate::store_calls::{set, store_key};
use serde_json::{Map, Value};
use std::alloc::{AllocError, Global};
use zarr_array_storage::WritableStorageTraits;
use zarr_array_v2::{attributes_of, has_version_2, without_attributes};
use zarr_grids_keys::{DocumentName, StoreKey};
use zarr_run_meaning::Cause;

/// A text, and the key under which it is to be stored.
#[derive(Drop)]
pub(crate) struct KeyedText {
    pub key: StoreKey,
    pub text: Vec<u8>,
}

/// The texts of a document.
#[derive(Drop)]
pub(crate) enum Texts {
    /// That of a document of Zarr version 3.
    Whole(KeyedText),
    /// Those of one of version 2: its attributes, and all else.
    Parts(KeyedText, KeyedText),
}

/// The texts of the document at a path that has this tree.
pub(crate) fn texts_of(alloc: Global, path: &str, tree: &Value) -> Result<Texts, AllocError>
    requires node { IsTrue (is_node_path path.now) }
    requires shallow { depth (view tree.now) ≤ 127 }
    ensures { IfOk result (AreTextsOf path.now (view tree.now)) }
{
    match tree {
        Value::Object(members) => {
            if has_version_2(members) {
                return texts_of_parts(alloc, path, members);
            }
        }
        _ => {}
    }
    let text = keyed_text(alloc, path, DocumentName::ZarrJson, tree)?;
    Ok(Texts::Whole(text))
}

/// The texts of a document of version 2.
fn texts_of_parts(
    alloc: Global,
    path: &str,
    members: &Map<String, Value>,
) -> Result<Texts, AllocError>
    requires node { IsTrue (is_node_path path.now) }
    requires shallow { depth (object (members_view members.now.entries)) ≤ 127 }
    requires version { has_version_2 (members_view members.now.entries) ≡ true }
    ensures { IfOk result (AreTextsOf path.now (object (members_view members.now.entries))) }
{
    let attributes = attributes_of(alloc, members)?;
    let rest = Value::Object(without_attributes(members)?);
    let zattrs = keyed_text(alloc, path, DocumentName::ZAttrs, &attributes)?;
    let zarray = keyed_text(alloc, path, DocumentName::ZArray, &rest)?;
    Ok(Texts::Parts(zattrs, zarray))
}

/// The text of a tree, which is to be stored as this document of the node at a path.
fn keyed_text(
    alloc: Global,
    path: &str,
    name: DocumentName,
    tree: &Value,
) -> Result<KeyedText, AllocError>
    requires node { IsTrue (is_node_path path.now) }
    requires shallow { depth (view tree.now) ≤ 127 }
    ensures { IfOk result (IsKeyedText (document_key path.now name) (view tree.now)) }
{
    let text = tree.to_vec_pretty(alloc)?;
    let key = store_key(alloc, path, name)?;
    Ok(KeyedText { key, text })
}

/// Stores texts, each under its key: of a document of version 2 the attributes first. Where that of
/// all else is refused, the attributes are stored.
pub(crate) fn store_texts<S: WritableStorageTraits>(
    store: &mut S,
    texts: &Texts,
) -> Result<(), Cause>
    ensures ok { IsTrue (S.is_honest store.old) →
        OnOk result (S.held store.new ≡ with_texts texts.now (S.held store.old)) }
    ensures refused { IsTrue (S.is_honest store.old) →
        OnErr result (StoredFirst texts.now (S.held store.old) (S.held store.new)) }
    ensures cause { IsTrue (S.is_honest store.old) → IfErr result IsStoreCause }
    ensures honest { S.is_honest store.new ≡ S.is_honest store.old }
    ensures calls { S.refused_calls store.new ≡ refused_by (S.refused_calls store.old) result }
    ensures accepted { CountsUpTo (most_calls texts.now result)
        (S.accepted_writes store.old) (S.accepted_writes store.new) }
{
    match texts {
        Texts::Whole(text) => set(store, &text.key, text.text.as_slice()),
        Texts::Parts(attributes, rest) => {
            set(store, &attributes.key, attributes.text.as_slice())?;
            set(store, &rest.key, rest.text.as_slice())
        }
    }
}
