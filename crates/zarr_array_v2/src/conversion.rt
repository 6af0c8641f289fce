//! Version 3 documents that say the same as version 2 documents.
ghost use Rattle.std.specs.Prelude.{◌≡◌, IfOk, option_map, map};
ghost use Rattle.serde_json.specs.View.{view, items_view, members_view, items_of};
ghost use Rattle.zarr_array_v2.specs.Conversion.{codecs_of, separator_of, chunk_key_encoding_of, chunk_grid_of, v3_fields, to_v3};
ghost use Rattle.zarr_array_v2.specs.Views.{fields_of, dtype_of};

use crate::codecs::{bytes_codec, point, push_compressor, push_filters, push_order};
use crate::dtypes::{data_type_of, dtype_in, fill_value_of};
use crate::fields::Fields;
use serde_json::{Map, Value, put};
use std::alloc::{AllocError, Global};
use zarr_grids_metadata::member;

/// The members of the version 3 document that says the same as a version 2 document with these
/// members, its attributes among them. `None` where a field is missing, or the order is neither C
/// nor F. A dtype that is not known, and a codec without an `id`, become null, which no reader
/// takes. Other fields are left out. `Err` only where an allocation failed.
pub fn to_v3(
    alloc: Global,
    members: &Map<String, Value>,
) -> Result<Option<Map<String, Value>>, AllocError>
    ensures { IfOk result (λ found. option_map (λ converted. members_view converted.entries) found
        ≡ to_v3 (members_view members.now.entries)) }
{
    let Some(fields) = Fields::read(members) else {
        return Ok(None);
    };
    let mut converted = v3_fields(alloc, &fields)?;
    if let Some(attributes) = member(members, "attributes") {
        put(&mut converted, alloc, "attributes", attributes.clone()?)?;
    }
    Ok(Some(converted))
}

/// The fields of the version 3 document, but for its attributes.
fn v3_fields(alloc: Global, fields: &Fields<'_>) -> Result<Map<String, Value>, AllocError>
    ensures { IfOk result
        (λ converted. members_view converted.entries ≡ v3_fields (fields_of fields.now)) }
{
    let dtype = dtype_in(fields.dtype);
    let codecs = codecs_of(alloc, fields)?;
    let fill_value = fill_value_of(dtype, fields.fill_value)?;
    let chunk_key_encoding = chunk_key_encoding_of(alloc, fields.dimension_separator)?;
    let chunk_grid = point(alloc, "regular", "chunk_shape", fields.chunks.clone()?)?;
    let mut converted = Map::new(alloc);
    put(&mut converted, alloc, "codecs", Value::Array(codecs))?;
    put(&mut converted, alloc, "fill_value", fill_value)?;
    put(
        &mut converted,
        alloc,
        "chunk_key_encoding",
        chunk_key_encoding,
    )?;
    put(&mut converted, alloc, "chunk_grid", chunk_grid)?;
    put(
        &mut converted,
        alloc,
        "data_type",
        data_type_of(alloc, dtype)?,
    )?;
    put(&mut converted, alloc, "shape", fields.shape.clone()?)?;
    put(
        &mut converted,
        alloc,
        "node_type",
        Value::try_from_str(alloc, "array")?,
    )?;
    put(&mut converted, alloc, "zarr_format", Value::from(3u64))?;
    Ok(converted)
}

/// The codecs in their order.
fn codecs_of(alloc: Global, fields: &Fields<'_>) -> Result<Vec<Value>, AllocError>
    ensures { IfOk result (λ codecs. map view codecs.items ≡ codecs_of (fields_of fields.now)) }
{
    let endian = match dtype_in(fields.dtype) {
        Some(dtype) => dtype.endian,
        None => None,
    };
    let mut codecs = Vec::new(alloc);
    push_order(&mut codecs, alloc, fields.order, fields.shape)?;
    codecs.push(bytes_codec(alloc, endian)?)?;
    push_filters(&mut codecs, alloc, fields.filters)?;
    push_compressor(&mut codecs, alloc, fields.compressor)?;
    Ok(codecs)
}

/// The keys of chunks: `v2` with the separator, which is a dot where none is given.
fn chunk_key_encoding_of(alloc: Global, separator: Option<&Value>) -> Result<Value, AllocError>
    ensures { IfOk result (λ written. view written
        ≡ chunk_key_encoding_of (option_map (λ v. view v.now) separator.entry)) }
{
    let separator = match separator {
        Some(separator) => separator.clone()?,
        None => Value::try_from_str(alloc, ".")?,
    };
    point(alloc, "v2", "separator", separator)
}
