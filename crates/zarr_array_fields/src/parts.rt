//! What the fields of a document say.
ghost use Rattle.std.specs.Prelude.{◌≡◌, ◌≢◌, IfOk, IfErr, Ok, Err, true, map, option_map};
ghost use Rattle.std.specs.Option.{ok_or};
ghost use Rattle.serde_json.specs.View.{view, items_view};
ghost use Rattle.zarr_grids_metadata.specs.Views.{point_of};
ghost use Rattle.zarr_codecs_types.specs.Metadata.{data_type_in};
ghost use Rattle.zarr_codecs_types.specs.Views.{type_of};
ghost use Rattle.zarr_codecs_arrays.specs.Views.{elements_of};
ghost use Rattle.zarr_codecs_metadata.specs.Chains.{points_in};
ghost use Rattle.zarr_array_meaning.specs.Parts.{fill_in, has_no_transformers, is_empty_list};

use serde_json::Value;
use std::alloc::{AllocError, Global};
use zarr_array_meaning::DocumentError;
use zarr_codecs_arrays::Elements;
use zarr_codecs_types::{DataType, DataTypeError, FillValue, FillValueError};
use zarr_grids_metadata::MetadataV3;

/// The extension points of a list, where each of its values is one.
pub fn points_in(alloc: Global, values: &[Value]) -> Result<Option<Vec<MetadataV3>>, AllocError>
    ensures { IfOk result (λ found.
        option_map (λ points. map point_of points.items) found
        ≡ points_in (items_view values.now)) }
{
    let mut points = Vec::with_capacity(alloc, values.len())?;
    for value in values {
        let Some(point) = MetadataV3::from_value(alloc, value)? else {
            return Ok(None);
        };
        points.push(point)?;
    }
    Ok(Some(points))
}

/// The data type; `DataTypes` where it is none that is known.
pub fn type_in(alloc: Global, data_type: &Value) -> Result<DataType, DocumentError>
    ensures ok { IfOk result (λ found. ok_or (data_type_in (view data_type.now))
        DocumentError.DataTypes ≡ Ok (type_of found)) }
    ensures err { IfErr result (λ e. e ≢ DocumentError.Memory
        → ok_or (data_type_in (view data_type.now)) DocumentError.DataTypes ≡ Err e) }
{
    match DataType::from_metadata(alloc, data_type) {
        Ok(data_type) => Ok(data_type),
        Err(DataTypeError::Memory) => Err(DocumentError::Memory),
        Err(DataTypeError::Unsupported) => Err(DocumentError::DataTypes),
    }
}

/// Elements of a data type; `FillValue` where the field is no value of it.
pub fn elements_in(
    alloc: Global,
    data_type: DataType,
    fill_value: &Value,
) -> Result<Elements, DocumentError>
    ensures kind { IfOk result (λ found. (elements_of found).type ≡ type_of data_type) }
    ensures fill { IfOk result (λ found. ok_or (fill_in (type_of data_type) (view fill_value.now))
        DocumentError.FillValue ≡ Ok (elements_of found).fill) }
    ensures err { IfErr result (λ e. e ≢ DocumentError.Memory
        → ok_or (fill_in (type_of data_type) (view fill_value.now)) DocumentError.FillValue
        ≡ Err e) }
{
    match FillValue::from_metadata(alloc, &data_type, fill_value) {
        Ok(fill_value) => { Elements::new(data_type, fill_value).ok_or(DocumentError::FillValue) }
        Err(FillValueError::Memory) => Err(DocumentError::Memory),
        Err(FillValueError::NotOfType) => Err(DocumentError::FillValue),
    }
}

/// Whether storage transformers are absent or an empty list.
pub fn has_no_transformers(transformers: Option<&Value>) -> bool
    ensures { result ≡ has_no_transformers (option_map (λ v. view v.now) transformers.entry) }
{
    match transformers {
        None => true,
        Some(transformers) => is_empty_list(transformers),
    }
}

#[tactic(auto, using(crate::proofs::Lists::empty_list))]
fn is_empty_list(value: &Value) -> bool
    ensures { result ≡ is_empty_list (view value.now) }
{
    match value.as_array() {
        Some(items) => items.is_empty(),
        None => false,
    }
}
