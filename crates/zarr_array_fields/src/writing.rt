//! The document that is written for an array.
ghost use Rattle.std.specs.Prelude.{◌≡◌, IfOk, OnOk, codes, option_map, option_and_then};
ghost use Rattle.serde_json.specs.Data.{object};
ghost use Rattle.serde_json.specs.Find.{get_member, as_object};
ghost use Rattle.serde_json.specs.View.{view, items_view, members_view};
ghost use Rattle.zarr_codecs_types.specs.Views.{type_of};
ghost use Rattle.zarr_array_meaning.specs.Written.{mark, marked, is_given, is_left_out, type_given, written_fill, written_value, with_field, written_points, written_codecs, written_fields, given_attributes, written_members, with_separator, written_version_2, written_document};

use serde_json::{Map, Value, json, put};
use std::alloc::{AllocError, Global};
use zarr_array_v2::{has_version_2, with_attributes, without_attributes};
use zarr_codecs_types::{DataType, DataTypeError, FillValue, FillValueError};
use zarr_grids_metadata::{member, written_point};

/// What the form of written fields depends on.
#[derive(Drop)]
struct Form {
    /// The data type that the document gives, if it is one that is known.
    data_type: Option<DataType>,
    /// Whether dimension names are there and not null.
    has_names: bool,
}

/// The tree that is written for a document, with the mark `_zarrs` among the attributes. In version
/// 3: extension points in their shortest form, base64 in the fill value as bytes, no storage
/// transformers, no null dimension names. In version 2: each field as it is, and a separator. What
/// is no object stays. `Err` only where an allocation failed.
pub fn written_document(alloc: Global, tree: &Value) -> Result<Value, AllocError>
    ensures { IfOk result (λ written. view written ≡ written_document (view tree.now)) }
{
    match tree {
        Value::Object(members) => Ok(Value::Object(written_object(alloc, members)?)),
        _ => tree.clone(),
    }
}

fn written_object(
    alloc: Global,
    members: &Map<String, Value>,
) -> Result<Map<String, Value>, AllocError>
    ensures { IfOk result (λ written. object (members_view written.entries)
        ≡ written_document (object (members_view members.now.entries))) }
{
    if has_version_2(members) {
        written_version_2(alloc, members)
    } else {
        written_members(alloc, members)
    }
}

/// The members of a version 2 document as they are written.
fn written_version_2(
    alloc: Global,
    members: &Map<String, Value>,
) -> Result<Map<String, Value>, AllocError>
    ensures { IfOk result (λ written. members_view written.entries
        ≡ written_version_2 (members_view members.now.entries)) }
{
    let separated = with_separator(alloc, members)?;
    let attributes = Value::Object(marked_attributes(alloc, members)?);
    with_attributes(alloc, without_attributes(&separated)?, Some(attributes))
}

/// A version 2 document with its separator of chunk keys, a dot where it names none.
fn with_separator(
    alloc: Global,
    members: &Map<String, Value>,
) -> Result<Map<String, Value>, AllocError>
    ensures { IfOk result (λ separated. members_view separated.entries
        ≡ with_separator (members_view members.now.entries)) }
{
    let mut separated = copied(members)?;
    if member(members, "dimension_separator").is_none() {
        let dot = Value::try_from_str(alloc, ".")?;
        put(&mut separated, alloc, "dimension_separator", dot)?;
    }
    Ok(separated)
}

fn copied(members: &Map<String, Value>) -> Result<Map<String, Value>, AllocError>
    ensures { IfOk result
        (λ copy. members_view copy.entries ≡ members_view members.now.entries) }
{
    members.clone()
}

/// The members of a version 3 document as they are written.
fn written_members(
    alloc: Global,
    members: &Map<String, Value>,
) -> Result<Map<String, Value>, AllocError>
    ensures { IfOk result (λ written. members_view written.entries
        ≡ written_members (members_view members.now.entries)) }
{
    let form = Form {
        data_type: type_given(alloc, members)?,
        has_names: is_given(member(members, "dimension_names")),
    };
    let mut written = written_fields(alloc, &form, members)?;
    let attributes = marked_attributes(alloc, members)?;
    put(&mut written, alloc, "attributes", Value::Object(attributes))?;
    Ok(written)
}

/// The data type that a document gives, or `None` where it is none that is known.
fn type_given(alloc: Global, members: &Map<String, Value>) -> Result<Option<DataType>, AllocError>
    ensures { IfOk result
        (λ found. option_map type_of found ≡ type_given (members_view members.now.entries)) }
{
    let Some(data_type) = member(members, "data_type") else {
        return Ok(None);
    };
    match DataType::from_metadata(alloc, data_type) {
        Ok(data_type) => Ok(Some(data_type)),
        Err(DataTypeError::Memory) => Err(AllocError),
        Err(DataTypeError::Unsupported) => Ok(None),
    }
}

/// Whether a field is there and not null.
fn is_given(field: Option<&Value>) -> bool
    ensures { result ≡ is_given (option_map (λ v. view v.now) field.entry) }
{
    match field {
        Some(value) => !value.is_null(),
        None => false,
    }
}

/// The fields that are written, each with its value.
fn written_fields(
    alloc: Global,
    form: &Form,
    members: &Map<String, Value>,
) -> Result<Map<String, Value>, AllocError>
    ensures { IfOk result (λ written. members_view written.entries
        ≡ written_fields (option_map type_of form.now.data_type) form.now.has_names
        (members_view members.now.entries)) }
{
    let mut written = Map::new(alloc);
    for (name, value) in members.iter() {
        write_field(&mut written, alloc, form, name.as_str(), value)?;
    }
    Ok(written)
}

/// Puts a field with its written value, unless it is left out.
fn write_field(
    written: &mut Map<String, Value>,
    alloc: Global,
    form: &Form,
    name: &str,
    value: &Value,
) -> Result<(), AllocError>
    ensures { OnOk result (members_view written.new.entries
        ≡ with_field (option_map type_of form.now.data_type) form.now.has_names name.now
        (view value.now) (members_view written.old.entries)) }
{
    if is_left_out(form.has_names, name) {
        return Ok(());
    }
    let value = written_value(alloc, form, name, value)?;
    put(written, alloc, name, value)
}

/// Whether a field with this name is not written.
fn is_left_out(has_names: bool, name: &str) -> bool
    ensures { result ≡ is_left_out has_names name.now }
{
    match name {
        "storage_transformers" => true,
        "dimension_names" => !has_names,
        _ => false,
    }
}

/// The value of a field, as it is written.
fn written_value(alloc: Global, form: &Form, name: &str, value: &Value) -> Result<Value, AllocError>
    ensures { IfOk result (λ written. view written
        ≡ written_value (option_map type_of form.now.data_type) name.now (view value.now)) }
{
    match name {
        "data_type" | "chunk_grid" | "chunk_key_encoding" => written_point(alloc, value),
        "codecs" => written_codecs(alloc, value),
        "fill_value" => written_fill(alloc, form, value),
        _ => value.clone(),
    }
}

/// A fill value as it is written; one that is no value of the data type stays.
fn written_fill(alloc: Global, form: &Form, value: &Value) -> Result<Value, AllocError>
    ensures { IfOk result (λ written. view written
        ≡ written_fill (option_map type_of form.now.data_type) (view value.now)) }
{
    let Some(data_type) = &form.data_type else {
        return value.clone();
    };
    match FillValue::from_metadata(alloc, data_type, value) {
        Ok(fill_value) => match fill_value.to_metadata(alloc, data_type)? {
            Some(written) => Ok(written),
            None => value.clone(),
        },
        Err(FillValueError::Memory) => Err(AllocError),
        Err(FillValueError::NotOfType) => value.clone(),
    }
}

fn written_codecs(alloc: Global, codecs: &Value) -> Result<Value, AllocError>
    ensures { IfOk result (λ written. view written ≡ written_codecs (view codecs.now)) }
{
    match codecs {
        Value::Array(codecs) => Ok(Value::Array(written_points(alloc, codecs.as_slice())?)),
        _ => codecs.clone(),
    }
}

fn written_points(alloc: Global, points: &[Value]) -> Result<Vec<Value>, AllocError>
    ensures { IfOk result
        (λ written. items_view written.items ≡ written_points (items_view points.now)) }
{
    let mut written = Vec::with_capacity(alloc, points.len())?;
    for point in points {
        written.push(written_point(alloc, point)?)?;
    }
    Ok(written)
}

/// The attributes that are given, with the mark among them.
fn marked_attributes(
    alloc: Global,
    members: &Map<String, Value>,
) -> Result<Map<String, Value>, AllocError>
    ensures { IfOk result (λ attributes. members_view attributes.entries
        ≡ marked (given_attributes (members_view members.now.entries))) }
{
    let mut attributes = given_attributes(alloc, members)?;
    put(&mut attributes, alloc, "_zarrs", mark(alloc)?)?;
    Ok(attributes)
}

fn given_attributes(
    alloc: Global,
    members: &Map<String, Value>,
) -> Result<Map<String, Value>, AllocError>
    ensures { IfOk result (λ attributes. members_view attributes.entries
        ≡ given_attributes (members_view members.now.entries)) }
{
    match attributes_of(members) {
        Some(attributes) => attributes.clone(),
        None => Ok(Map::new(alloc)),
    }
}

fn attributes_of(members: &Map<String, Value>) -> Option<&Map<String, Value>>
    ensures { option_map (λ attributes. members_view attributes.now.entries) result
        ≡ option_and_then as_object
        (get_member (codes "attributes") (members_view members.now.entries)) }
{
    member(members, "attributes").and_then(Value::as_object)
}

/// The mark that is put among the attributes.
fn mark(alloc: Global) -> Result<Value, AllocError>
    ensures { IfOk result (λ written. view written ≡ mark) }
{
    json!(in alloc; {
        "description": "This array was created with zarrs",
        "repository": "https://github.com/zarrs/zarrs",
        "version": "0.23.13"
    })
}
