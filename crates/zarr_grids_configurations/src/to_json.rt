//! Configurations written as JSON.
ghost use Rattle.std.specs.Prelude.{◌≡◌, map, IfOk, OnOk};
ghost use Rattle.serde_json.specs.View.{view, items_of, members_view};
ghost use Rattle.zarr_grids_configurations.specs.Written.{size_data, element_data, rectangular_data, rectilinear_data, regular_members, rectangular_members, rectilinear_members};

use crate::rectangular::RectangularChunkGridDimensionConfiguration;
use crate::rectilinear::{ChunkEdgeLengths, RunLengthElement};
use serde_json::{Map, Value, put};
use std::alloc::{AllocError, Global};

/// The configuration of `regular` or of `regular_bounded` with this chunk shape. `Err` only where
/// an allocation failed.
pub fn regular_to_json(alloc: Global, chunk_shape: &[u64]) -> Result<Map<String, Value>, AllocError>
    ensures { IfOk result
        (λ members. members_view members.entries ≡ regular_members chunk_shape.now) }
{
    let sizes = size_values(alloc, chunk_shape)?;
    let mut members = Map::new(alloc);
    put(&mut members, alloc, "chunk_shape", Value::Array(sizes))?;
    Ok(members)
}

/// The configuration of `rectangular` with these edges. `Err` only where an allocation failed.
pub fn rectangular_to_json(
    alloc: Global,
    chunk_shape: &[RectangularChunkGridDimensionConfiguration],
) -> Result<Map<String, Value>, AllocError>
    ensures { IfOk result
        (λ members. members_view members.entries ≡ rectangular_members chunk_shape.now) }
{
    let mut values = Vec::with_capacity(alloc, chunk_shape.len())?;
    for edges in chunk_shape {
        values.push(rectangular_value(alloc, edges)?)?;
    }
    let mut members = Map::new(alloc);
    put(&mut members, alloc, "chunk_shape", Value::Array(values))?;
    Ok(members)
}

/// The configuration of `rectilinear` with these edges. `Err` only where an allocation failed.
pub fn rectilinear_to_json(
    alloc: Global,
    chunk_shapes: &[ChunkEdgeLengths],
) -> Result<Map<String, Value>, AllocError>
    ensures { IfOk result
        (λ members. members_view members.entries ≡ rectilinear_members chunk_shapes.now) }
{
    let mut values = Vec::with_capacity(alloc, chunk_shapes.len())?;
    for lengths in chunk_shapes {
        values.push(rectilinear_value(alloc, lengths)?)?;
    }
    let mut members = Map::new(alloc);
    put(&mut members, alloc, "chunk_shapes", Value::Array(values))?;
    let kind = Value::try_from_str(alloc, "inline")?;
    put(&mut members, alloc, "kind", kind)?;
    Ok(members)
}

fn size_values(alloc: Global, sizes: &[u64]) -> Result<Vec<Value>, AllocError>
    ensures { IfOk result (λ values. map view values.items ≡ map size_data sizes.now) }
{
    let mut values = Vec::with_capacity(alloc, sizes.len())?;
    for size in sizes {
        values.push(Value::from(*size))?;
    }
    Ok(values)
}

fn rectangular_value(
    alloc: Global,
    edges: &RectangularChunkGridDimensionConfiguration,
) -> Result<Value, AllocError>
    ensures { IfOk result (λ value. view value ≡ rectangular_data edges.now) }
{
    match edges {
        RectangularChunkGridDimensionConfiguration::Fixed(edge) => Ok(Value::from(*edge)),
        RectangularChunkGridDimensionConfiguration::Varying(edges) => {
            let values = size_values(alloc, edges)?;
            Ok(Value::Array(values))
        }
    }
}

fn rectilinear_value(alloc: Global, lengths: &ChunkEdgeLengths) -> Result<Value, AllocError>
    ensures { IfOk result (λ value. view value ≡ rectilinear_data lengths.now) }
{
    match lengths {
        ChunkEdgeLengths::Scalar(edge) => Ok(Value::from(*edge)),
        ChunkEdgeLengths::Varying(elements) => {
            let values = element_values(alloc, elements)?;
            Ok(Value::Array(values))
        }
    }
}

fn element_values(alloc: Global, elements: &[RunLengthElement]) -> Result<Vec<Value>, AllocError>
    ensures { IfOk result (λ values. map view values.items ≡ map element_data elements.now) }
{
    let mut values = Vec::with_capacity(alloc, elements.len())?;
    for element in elements {
        values.push(element_value(alloc, *element)?)?;
    }
    Ok(values)
}

fn element_value(alloc: Global, element: RunLengthElement) -> Result<Value, AllocError>
    ensures { IfOk result (λ value. view value ≡ element_data element) }
{
    match element {
        RunLengthElement::Single(edge) => Ok(Value::from(edge)),
        RunLengthElement::Repeated(repeat) => {
            let pair = size_values(alloc, &[repeat.edge, repeat.count])?;
            Ok(Value::Array(pair))
        }
    }
}
