//! Configurations read from JSON.
ghost use Rattle.std.specs.Prelude.{◌≡◌, ◌≢◌, true, false, IfOk, IfErr, Some, None, is_some, map, option_map, option_and_then};
ghost use Rattle.serde_json.specs.View.{view, items_view, members_view};
ghost use Rattle.zarr_grids_metadata.specs.ExtensionPoints.{extension_point};
ghost use Rattle.zarr_grids_configurations.specs.Grids.{are_positive};
ghost use Rattle.zarr_grids_configurations.specs.Numbers.{size_in};
ghost use Rattle.zarr_grids_configurations.specs.Configurations as json;
ghost use Rattle.zarr_grids_configurations.specs.Views.{rectangular_view, rectilinear_view, repeat_of, kind_view, kind_of_configuration, edges_of};

use crate::configuration::{ChunkGridKind, GridConfiguration};
use crate::error::ConfigurationError;
use crate::numbers::{sizes_in, sizes_of};
use crate::rectangular::{
    RectangularChunkGridConfiguration, RectangularChunkGridDimensionConfiguration,
};
use crate::rectilinear::{ChunkEdgeLengths, RectilinearChunkGridConfiguration, RunLengthElement};
use crate::regular::RegularChunkGridConfiguration;
use serde_json::{Map, Value};
use std::alloc::{AllocError, Global};
use zarr_grids_boxes::ChunkShape;
use zarr_grids_dimensions::RepeatedEdge;
use zarr_grids_metadata::{ExtensionPoint, has_only, member};

impl ChunkGridKind {
    /// The chunk grid with this name. `zarrs.regular_bounded` is another name of `regular_bounded`.
    pub fn of_name(name: &str) -> Option<ChunkGridKind>
        ensures { option_map kind_view result ≡ json.kind_of name.now }
    {
        match name {
            "regular" => Some(ChunkGridKind::Regular),
            "regular_bounded" | "zarrs.regular_bounded" => Some(ChunkGridKind::RegularBounded),
            "rectangular" => Some(ChunkGridKind::Rectangular),
            "rectilinear" => Some(ChunkGridKind::Rectilinear),
            _ => None,
        }
    }
}

/// Reads the chunk grid that a JSON value names and configures (Zarr core specification, "Chunk
/// grids"; all but `regular` are this project's profile).
pub fn read_configuration(
    alloc: Global,
    value: &Value,
) -> Result<GridConfiguration, ConfigurationError>
    ensures read { IfOk result (λ c. json.configuration_in (view value.now) ≡ Some (edges_of c)) }
    ensures kind { IfOk result
        (λ c. json.kind_in (view value.now) ≡ Some (kind_of_configuration c)) }
    ensures none { IfErr result
        (λ e. e ≢ ConfigurationError.Memory → json.configuration_in (view value.now) ≡ None) }
    ensures point { result ≡ Err ConfigurationError.Point
        → extension_point (view value.now) ≡ None }
    ensures name { result ≡ Err ConfigurationError.Name → json.kind_in (view value.now) ≡ None }
    ensures unnamed { result ≡ Err ConfigurationError.Name
        → is_some (extension_point (view value.now)) ≡ true }
    ensures unformed { result ≡ Err ConfigurationError.Form
        → json.form_in (view value.now) ≡ Some false }
    ensures zero { result ≡ Err ConfigurationError.ZeroEdge
        → json.form_in (view value.now) ≡ Some true }
{
    let Some(point) = ExtensionPoint::read(value) else {
        return Err(ConfigurationError::Point);
    };
    let Some(kind) = ChunkGridKind::of_name(point.name) else {
        return Err(ConfigurationError::Name);
    };
    read_configuration_of_kind(alloc, kind, point.configuration)
}

/// Reads the configuration of a chunk grid. An absent configuration has no members.
pub fn read_configuration_of_kind(
    alloc: Global,
    kind: ChunkGridKind,
    configuration: Option<&Map<String, Value>>,
) -> Result<GridConfiguration, ConfigurationError>
    ensures read { IfOk result (λ c. json.configuration_given (kind_view kind)
        (option_map (λ ms. members_view ms.now.entries) configuration.entry) ≡ Some (edges_of c)) }
    ensures kind { IfOk result (λ c. kind_of_configuration c ≡ kind_view kind) }
    ensures none { IfErr result
        (λ e. e ≢ ConfigurationError.Memory → json.configuration_given (kind_view kind)
        (option_map (λ ms. members_view ms.now.entries) configuration.entry) ≡ None) }
    ensures form { IfErr result
        (λ e. (e ≢ ConfigurationError.Point) × (e ≢ ConfigurationError.Name)) }
    ensures unformed { result ≡ Err ConfigurationError.Form → json.form_given (kind_view kind)
        (option_map (λ ms. members_view ms.now.entries) configuration.entry) ≡ false }
    ensures zero { result ≡ Err ConfigurationError.ZeroEdge → json.form_given (kind_view kind)
        (option_map (λ ms. members_view ms.now.entries) configuration.entry) ≡ true }
{
    match kind {
        ChunkGridKind::Regular => match read_chunk_shape(alloc, configuration) {
            Ok(chunk_shape) => Ok(GridConfiguration::Regular(RegularChunkGridConfiguration {
                chunk_shape,
            })),
            Err(error) => Err(error),
        },
        ChunkGridKind::RegularBounded => match read_chunk_shape(alloc, configuration) {
            Ok(chunk_shape) => Ok(GridConfiguration::RegularBounded(RegularChunkGridConfiguration {
                chunk_shape,
            })),
            Err(error) => Err(error),
        },
        ChunkGridKind::Rectangular => match read_rectangular(alloc, configuration) {
            Ok(configuration) => Ok(GridConfiguration::Rectangular(configuration)),
            Err(error) => Err(error),
        },
        ChunkGridKind::Rectilinear => match read_rectilinear(alloc, configuration) {
            Ok(configuration) => Ok(GridConfiguration::Rectilinear(configuration)),
            Err(error) => Err(error),
        },
    }
}

/// The member `chunk_shape`, where it is the only one.
fn only_chunk_shape<'v>(members: &'v Map<String, Value>) -> Option<&'v Value>
    ensures { option_map (λ v. view v.now) result
        ≡ json.only_chunk_shape (members_view members.now.entries) }
{
    if has_only(members, &["chunk_shape"]) {
        member(members, "chunk_shape")
    } else {
        None
    }
}

/// The member `chunk_shapes`, where the only other member is `kind`, which is "inline".
fn only_chunk_shapes<'v>(members: &'v Map<String, Value>) -> Option<&'v Value>
    ensures { option_map (λ v. view v.now) result
        ≡ json.only_chunk_shapes (members_view members.now.entries) }
{
    if has_only(members, &["kind", "chunk_shapes"]) && is_inline(member(members, "kind")) {
        member(members, "chunk_shapes")
    } else {
        None
    }
}

fn is_inline(kind: Option<&Value>) -> bool
    ensures { result ≡ json.is_inline (option_map (λ v. view v.now) kind.entry) }
{
    match kind {
        Some(kind) => match kind.as_str() {
            Some(kind) => kind == "inline",
            None => false,
        },
        None => false,
    }
}

/// The chunk shape that a configuration of `regular` or of `regular_bounded` says: positive numbers
/// (Zarr core specification, "Regular grids").
#[tactic(auto, using(crate::proofs::Items::positive_edges, crate::proofs::Items::zero_edge))]
pub fn read_chunk_shape(
    alloc: Global,
    configuration: Option<&Map<String, Value>>,
) -> Result<ChunkShape, ConfigurationError>
    ensures read { IfOk result (λ s. json.chunk_shape_given
        (option_map (λ ms. members_view ms.now.entries) configuration.entry) ≡ Some s) }
    ensures none { IfErr result (λ e. e ≢ ConfigurationError.Memory → json.chunk_shape_given
        (option_map (λ ms. members_view ms.now.entries) configuration.entry) ≡ None) }
    ensures form { IfErr result
        (λ e. (e ≢ ConfigurationError.Point) × (e ≢ ConfigurationError.Name)) }
    ensures unformed { result ≡ Err ConfigurationError.Form → json.form_given json.regular
        (option_map (λ ms. members_view ms.now.entries) configuration.entry) ≡ false }
    ensures zero { result ≡ Err ConfigurationError.ZeroEdge → json.form_given json.regular
        (option_map (λ ms. members_view ms.now.entries) configuration.entry) ≡ true }
{
    let Some(members) = configuration else {
        return Err(ConfigurationError::Form);
    };
    let Some(value) = only_chunk_shape(members) else {
        return Err(ConfigurationError::Form);
    };
    let Some(sizes) = sizes_in(alloc, value)? else {
        return Err(ConfigurationError::Form);
    };
    match ChunkShape::new(sizes) {
        Ok(chunk_shape) => Ok(chunk_shape),
        Err(_) => Err(ConfigurationError::ZeroEdge),
    }
}

/// The configuration of `rectangular`: for each dimension a positive number or a list of them that
/// is not empty (this project's profile).
pub fn read_rectangular(
    alloc: Global,
    configuration: Option<&Map<String, Value>>,
) -> Result<RectangularChunkGridConfiguration, ConfigurationError>
    ensures read { IfOk result (λ c. json.configuration_given json.rectangular
        (option_map (λ ms. members_view ms.now.entries) configuration.entry)
        ≡ Some (map rectangular_view c.chunk_shape.items)) }
    ensures none { IfErr result
        (λ e. e ≢ ConfigurationError.Memory → json.configuration_given json.rectangular
        (option_map (λ ms. members_view ms.now.entries) configuration.entry) ≡ None) }
    ensures form { IfErr result
        (λ e. (e ≢ ConfigurationError.Point) × (e ≢ ConfigurationError.Name)) }
    ensures unformed { result ≡ Err ConfigurationError.Form → json.form_given json.rectangular
        (option_map (λ ms. members_view ms.now.entries) configuration.entry) ≡ false }
    ensures zero { result ≡ Err ConfigurationError.ZeroEdge → json.form_given json.rectangular
        (option_map (λ ms. members_view ms.now.entries) configuration.entry) ≡ true }
{
    let Some(members) = configuration else {
        return Err(ConfigurationError::Form);
    };
    let Some(value) = only_chunk_shape(members) else {
        return Err(ConfigurationError::Form);
    };
    let Some(items) = value.as_array() else {
        return Err(ConfigurationError::Form);
    };
    let Some(chunk_shape) = rectangular_items(alloc, items.as_slice())? else {
        return Err(ConfigurationError::Form);
    };
    if !are_rectangular_positive(&chunk_shape) {
        return Err(ConfigurationError::ZeroEdge);
    }
    Ok(RectangularChunkGridConfiguration { chunk_shape })
}

fn rectangular_items(
    alloc: Global,
    items: &[Value],
) -> Result<Option<Vec<RectangularChunkGridDimensionConfiguration>>, AllocError>
    ensures { IfOk result (λ found. option_map (λ v. map rectangular_view v.items) found
        ≡ json.in_each_item json.rectangular_edges (items_view items.now)) }
{
    let mut found = Vec::with_capacity(alloc, items.len())?;
    for item in items {
        let Some(edges) = rectangular_edges(alloc, item)? else {
            return Ok(None);
        };
        found.push(edges)?;
    }
    Ok(Some(found))
}

/// The edges of one dimension: a number, or a list of numbers.
fn rectangular_edges(
    alloc: Global,
    value: &Value,
) -> Result<Option<RectangularChunkGridDimensionConfiguration>, AllocError>
    ensures { IfOk result
        (λ found. option_map rectangular_view found ≡ json.rectangular_edges (view value.now)) }
{
    match value {
        Value::Number(number) => match number.as_u64() {
            Some(edge) => Ok(Some(RectangularChunkGridDimensionConfiguration::Fixed(edge))),
            None => Ok(None),
        },
        Value::Array(items) => match sizes_of(alloc, items.as_slice())? {
            Some(edges) => Ok(Some(RectangularChunkGridDimensionConfiguration::Varying(edges))),
            None => Ok(None),
        },
        _ => Ok(None),
    }
}

/// Whether all edges are positive, and each list has an edge.
pub(crate) fn are_rectangular_positive(given: &[RectangularChunkGridDimensionConfiguration]) -> bool
    ensures { result ≡ are_positive (map rectangular_view given.now) }
{
    for edges in given {
        if !edges.is_positive() {
            return false;
        }
    }
    true
}

/// The configuration of `rectilinear`: its kind is "inline", and for each dimension there is a
/// positive number, or a list of positive numbers and of pairs of an edge and a count (this
/// project's profile).
pub fn read_rectilinear(
    alloc: Global,
    configuration: Option<&Map<String, Value>>,
) -> Result<RectilinearChunkGridConfiguration, ConfigurationError>
    ensures read { IfOk result (λ c. json.configuration_given json.rectilinear
        (option_map (λ ms. members_view ms.now.entries) configuration.entry)
        ≡ Some (map rectilinear_view c.chunk_shapes.items)) }
    ensures none { IfErr result
        (λ e. e ≢ ConfigurationError.Memory → json.configuration_given json.rectilinear
        (option_map (λ ms. members_view ms.now.entries) configuration.entry) ≡ None) }
    ensures form { IfErr result
        (λ e. (e ≢ ConfigurationError.Point) × (e ≢ ConfigurationError.Name)) }
    ensures unformed { result ≡ Err ConfigurationError.Form → json.form_given json.rectilinear
        (option_map (λ ms. members_view ms.now.entries) configuration.entry) ≡ false }
    ensures zero { result ≡ Err ConfigurationError.ZeroEdge → json.form_given json.rectilinear
        (option_map (λ ms. members_view ms.now.entries) configuration.entry) ≡ true }
{
    let Some(members) = configuration else {
        return Err(ConfigurationError::Form);
    };
    let Some(value) = only_chunk_shapes(members) else {
        return Err(ConfigurationError::Form);
    };
    let Some(items) = value.as_array() else {
        return Err(ConfigurationError::Form);
    };
    let Some(chunk_shapes) = rectilinear_items(alloc, items.as_slice())? else {
        return Err(ConfigurationError::Form);
    };
    if !are_rectilinear_positive(&chunk_shapes) {
        return Err(ConfigurationError::ZeroEdge);
    }
    Ok(RectilinearChunkGridConfiguration { chunk_shapes })
}

fn rectilinear_items(
    alloc: Global,
    items: &[Value],
) -> Result<Option<Vec<ChunkEdgeLengths>>, AllocError>
    ensures { IfOk result (λ found. option_map (λ v. map rectilinear_view v.items) found
        ≡ json.in_each_item json.rectilinear_edges (items_view items.now)) }
{
    let mut found = Vec::with_capacity(alloc, items.len())?;
    for item in items {
        let Some(lengths) = rectilinear_edges(alloc, item)? else {
            return Ok(None);
        };
        found.push(lengths)?;
    }
    Ok(Some(found))
}

/// The edges of one dimension: a number, or a list of edges and pairs of an edge and a count.
fn rectilinear_edges(alloc: Global, value: &Value) -> Result<Option<ChunkEdgeLengths>, AllocError>
    ensures { IfOk result
        (λ found. option_map rectilinear_view found ≡ json.rectilinear_edges (view value.now)) }
{
    match value {
        Value::Number(number) => match number.as_u64() {
            Some(edge) => Ok(Some(ChunkEdgeLengths::Scalar(edge))),
            None => Ok(None),
        },
        Value::Array(items) => match elements_of(alloc, items.as_slice())? {
            Some(elements) => Ok(Some(ChunkEdgeLengths::Varying(elements))),
            None => Ok(None),
        },
        _ => Ok(None),
    }
}

fn elements_of(alloc: Global, items: &[Value]) -> Result<Option<Vec<RunLengthElement>>, AllocError>
    ensures { IfOk result (λ found. option_map (λ v. map repeat_of v.items) found
        ≡ json.repeats_of (items_view items.now)) }
{
    let mut found = Vec::with_capacity(alloc, items.len())?;
    for item in items {
        let Some(element) = element_in(item) else {
            return Ok(None);
        };
        found.push(element)?;
    }
    Ok(Some(found))
}

/// One edge, or a pair of an edge and a count.
fn element_in(value: &Value) -> Option<RunLengthElement>
    ensures { option_map repeat_of result ≡ json.repeat_in (view value.now) }
{
    match value {
        Value::Number(number) => {
            let edge = number.as_u64()?;
            Some(RunLengthElement::Single(edge))
        }
        Value::Array(items) => {
            let repeat = pair_of(items.as_slice())?;
            Some(RunLengthElement::Repeated(repeat))
        }
        _ => None,
    }
}

#[tactic(auto, using(crate::proofs::Items::no_pair))]
fn pair_of(items: &[Value]) -> Option<RepeatedEdge>
    ensures { result ≡ json.pair_of (items_view items.now) }
{
    match items {
        [edge, count] => {
            let edge = edge.as_u64()?;
            let count = count.as_u64()?;
            Some(RepeatedEdge { edge, count })
        }
        _ => None,
    }
}

/// Whether all edges and counts are positive.
pub(crate) fn are_rectilinear_positive(given: &[ChunkEdgeLengths]) -> bool
    ensures { result ≡ are_positive (map rectilinear_view given.now) }
{
    for lengths in given {
        if !lengths.is_positive() {
            return false;
        }
    }
    true
}
