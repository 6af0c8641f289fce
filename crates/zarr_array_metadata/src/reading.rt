//! Documents read from JSON trees.
ghost use Rattle.std.specs.Prelude.{◌≡◌, ◌≢◌, IfOk, IfErr, Ok, Err, true, map};
ghost use Rattle.serde_json.specs.View.{view, members_view};
ghost use Rattle.zarr_grids_dimensions.specs.Lookups.{size_of};
ghost use Rattle.zarr_array_meaning.specs.Documents.{read_document, read_members, document_of};
ghost use Rattle.zarr_array_metadata.specs.Meanings.{meaning_of, read_versions};

use crate::codecs::codecs_in;
use crate::document::ArrayDocument;
use serde_json::{Map, Value};
use std::alloc::Global;
use zarr_array_fields::fields::{RequiredFields, must_understand_any};
use zarr_array_fields::grids::grid_in;
use zarr_array_fields::keys::keys_in;
use zarr_array_fields::names::are_dimension_names;
use zarr_array_fields::parts::{elements_in, has_no_transformers, type_in};
use zarr_array_meaning::DocumentError;
use zarr_array_v2::{has_version_2, to_v3};
use zarr_codecs_traits::BytesToBytesCodecTraits;
use zarr_grids_metadata::{has_float, is_deeper, member};

/// How deep arrays and objects of a document may nest.
const DEPTH_LIMIT: u64 = 127;

/// Reads a document from its JSON tree, of version 3 (Zarr core specification, "Array metadata") or
/// 2 (as `to_v3` converts it). The checks are made in the order of the errors' variants, and the
/// first that fails is the error; only a chunk grid that is none of the shape is `ChunkGrid` after
/// `Dimensionality`. `Memory` where an allocation failed.
pub fn read_document<B: BytesToBytesCodecTraits>(
    alloc: Global,
    tree: &Value,
) -> Result<ArrayDocument<B>, DocumentError>
    ensures sized { IfOk result
        (λ d. map size_of (meaning_of B.meaning d).grid ≡ (meaning_of B.meaning d).shape) }
    ensures ok { IfOk result
        (λ d. read_document B.reads (view tree.now) ≡ Ok (meaning_of B.meaning d)) }
    ensures err { IfErr result (λ e. e ≢ DocumentError.Memory
        → read_document B.reads (view tree.now) ≡ Err e) }
{
    if is_deeper(tree, DEPTH_LIMIT) {
        return Err(DocumentError::Depth);
    }
    if has_float(tree) {
        return Err(DocumentError::Float);
    }
    match tree.as_object() {
        Some(members) => read_versions(alloc, members),
        None => Err(DocumentError::Fields),
    }
}

/// Reads a document's members, those of version 2 as the version 3 document that says the same.
fn read_versions<B: BytesToBytesCodecTraits>(
    alloc: Global,
    members: &Map<String, Value>,
) -> Result<ArrayDocument<B>, DocumentError>
    ensures sized { IfOk result
        (λ d. map size_of (meaning_of B.meaning d).grid ≡ (meaning_of B.meaning d).shape) }
    ensures ok { IfOk result (λ d. document_of (read_versions B.reads
        (members_view members.now.entries)) ≡ Ok (meaning_of B.meaning d)) }
    ensures err { IfErr result (λ e. e ≢ DocumentError.Memory
        → document_of (read_versions B.reads (members_view members.now.entries)) ≡ Err e) }
{
    if !has_version_2(members) {
        return read_members(alloc, members);
    }
    match to_v3(alloc, members)? {
        Some(converted) => read_members(alloc, &converted),
        None => Err(DocumentError::Fields),
    }
}

fn read_members<B: BytesToBytesCodecTraits>(
    alloc: Global,
    members: &Map<String, Value>,
) -> Result<ArrayDocument<B>, DocumentError>
    ensures sized { IfOk result
        (λ d. map size_of (meaning_of B.meaning d).grid ≡ (meaning_of B.meaning d).shape) }
    ensures ok { IfOk result (λ d. document_of (read_members B.reads
        (members_view members.now.entries)) ≡ Ok (meaning_of B.meaning d)) }
    ensures err { IfErr result (λ e. e ≢ DocumentError.Memory
        → document_of (read_members B.reads (members_view members.now.entries)) ≡ Err e) }
{
    let fields = RequiredFields::read(alloc, members)?;
    if must_understand_any(members) {
        return Err(DocumentError::AdditionalField);
    }
    let codecs = codecs_in(alloc, fields.codecs)?;
    let data_type = type_in(alloc, fields.data_type)?;
    let grid = grid_in(alloc, fields.chunk_grid, &fields.shape)?;
    let elements = elements_in(alloc, data_type, fields.fill_value)?;
    if !has_no_transformers(member(members, "storage_transformers")) {
        return Err(DocumentError::StorageTransformers);
    }
    let keys = keys_in(alloc, fields.chunk_key_encoding)?;
    if !are_dimension_names(member(members, "dimension_names"), fields.shape.len()) {
        return Err(DocumentError::DimensionNames);
    }
    Ok(ArrayDocument {
        grid,
        keys,
        elements,
        codecs,
    })
}
