//! The fields of a document.
ghost use Rattle.std.specs.Prelude.{◌≡◌, ◌≢◌, ◌&&◌, IfOk, IfErr, Ok, Err, codes, bytes_eq, is_some, option_map};
ghost use Rattle.serde_json.specs.Find.{get_member};
ghost use Rattle.serde_json.specs.View.{view, members_view};
ghost use Rattle.zarr_array_meaning.specs.Documents.{field, shape_in, is_number, is_text, is_own_name, additional_in, must_understand_any};
ghost use Rattle.zarr_array_meaning.specs.Parts.{attributes_in};

use serde_json::{Map, Value};
use std::alloc::Global;
use zarr_array_meaning::DocumentError;
use zarr_grids_configurations::numbers::sizes_in;
use zarr_grids_metadata::{member, must_understand_field};

/// The fields that every document has.
#[derive(Drop)]
pub struct RequiredFields<'v> {
    pub shape: Vec<u64>,
    pub data_type: &'v Value,
    pub chunk_grid: &'v Value,
    pub chunk_key_encoding: &'v Value,
    pub fill_value: &'v Value,
    pub codecs: &'v Value,
}

impl<'v> RequiredFields<'v> {
    ghost use Rattle.std.specs.Prelude.{◌≡◌, ◌≢◌, IfOk, IfErr, Ok, Err};
    ghost use Rattle.serde_json.specs.View.{members_view};
    ghost use Rattle.zarr_array_meaning.specs.Documents.{fields_in};
    ghost use Rattle.zarr_array_fields.specs.Views.{fields_view};
    ghost use Rattle.zarr_array_meaning.specs.Written.{given_attributes};

    /// Reads the fields of an object; `Fields` where one is missing or of another kind, or where
    /// the attributes are no object.
    pub fn read(
        alloc: Global,
        members: &'v Map<String, Value>,
    ) -> Result<RequiredFields<'v>, DocumentError>
        ensures ok { IfOk result (λ f. let ms = members_view members.now.entries in
            fields_in ms ≡ Ok (fields_view f (given_attributes ms))) }
        ensures err { IfErr result
            (λ e. e ≢ DocumentError.Memory → fields_in (members_view members.now.entries) ≡ Err e) }
    {
        if !is_array_of_version_3(members) {
            return Err(DocumentError::Fields);
        }
        let shape = shape_in(alloc, members)?;
        let fields = RequiredFields {
            shape,
            data_type: field(members, "data_type")?,
            chunk_grid: field(members, "chunk_grid")?,
            chunk_key_encoding: field(members, "chunk_key_encoding")?,
            fill_value: field(members, "fill_value")?,
            codecs: field(members, "codecs")?,
        };
        if !are_attributes(member(members, "attributes")) {
            return Err(DocumentError::Fields);
        }
        Ok(fields)
    }
}

fn is_array_of_version_3(members: &Map<String, Value>) -> bool
    ensures { result
        ≡ (is_number 3 (get_member (codes "zarr_format") (members_view members.now.entries))
        && is_text (codes "array")
        (get_member (codes "node_type") (members_view members.now.entries))) }
{
    member(members, "zarr_format").and_then(Value::as_u64) == Some(3)
        && member(members, "node_type").and_then(Value::as_str) == Some("array")
}

/// The sizes in the field `shape`.
fn shape_in(alloc: Global, members: &Map<String, Value>) -> Result<Vec<u64>, DocumentError>
    ensures ok { IfOk result
        (λ shape. shape_in (members_view members.now.entries) ≡ Ok shape.items) }
    ensures err { IfErr result
        (λ e. e ≢ DocumentError.Memory → shape_in (members_view members.now.entries) ≡ Err e) }
{
    match sizes_in(alloc, field(members, "shape")?)? {
        Some(shape) => Ok(shape),
        None => Err(DocumentError::Fields),
    }
}

/// The field with this name; `Fields` where it is missing.
fn field<'v>(members: &'v Map<String, Value>, name: &str) -> Result<&'v Value, DocumentError>
    ensures ok { IfOk result
        (λ v. field (members_view members.now.entries) name.now ≡ Ok (view v.now)) }
    ensures err { IfErr result (λ e. field (members_view members.now.entries) name.now ≡ Err e) }
{
    member(members, name).ok_or(DocumentError::Fields)
}

/// Whether attributes are an object, or absent.
fn are_attributes(attributes: Option<&Value>) -> bool
    ensures { result ≡ is_some (attributes_in (option_map (λ v. view v.now) attributes.entry)) }
{
    match attributes {
        Some(attributes) => attributes.is_object(),
        None => true,
    }
}

/// Whether a field beside the document's own has to be understood.
pub fn must_understand_any(members: &Map<String, Value>) -> bool
    ensures { result ≡ must_understand_any (additional_in (members_view members.now.entries)) }
{
    for (name, value) in members.iter() {
        if !is_own_name(name.as_str()) && must_understand_field(value) {
            return true;
        }
    }
    false
}

/// Whether a name is that of one of the document's own fields.
fn is_own_name(name: &str) -> bool
    ensures { result ≡ is_own_name name.now }
{
    matches!(
        name,
        "zarr_format"
            | "node_type"
            | "shape"
            | "data_type"
            | "chunk_grid"
            | "chunk_key_encoding"
            | "fill_value"
            | "codecs"
            | "attributes"
            | "storage_transformers"
            | "dimension_names"
    )
}
