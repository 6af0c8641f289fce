//! The dimensions that given edges make of an array's shape.
ghost use Rattle.std.specs.Prelude.{◌≡◌, ◌≢◌, ◌<◌, ◌∷◌, IfOk, IfErr, Some, None, length, map, option_and_then, slice_get};
ghost use Rattle.zarr_grids_dimensions.specs.Dimensions.{dimension_of, grid_of};
ghost use Rattle.zarr_grids_dimensions.specs.Varying.{IsMadeOf};
ghost use Rattle.zarr_grids_configurations.specs.Grids.{fixed, bounded, exact, covering, single_repeat, dimension_in, grid_in};
ghost use Rattle.zarr_grids_configurations.specs.Errors.{Refuses, RefusesAt, RefusesGrid};
ghost use Rattle.zarr_grids_configurations.specs.Views.{rectangular_view, rectilinear_view, repeat_of, given_view, edges_of};

use crate::configuration::GridConfiguration;
use crate::error::GridError;
use crate::rectangular::RectangularChunkGridDimensionConfiguration;
use crate::rectilinear::{ChunkEdgeLengths, RunLengthElement};
use std::alloc::{AllocError, Global};
use zarr_grids_dimensions::{
    Dimension, IncompatibleDimensionalityError, RepeatedEdge, VaryingEdges, VaryingEdgesError,
};

/// The edges given for each dimension.
#[derive(Clone, Copy)]
pub enum GivenEdges<'a> {
    /// The edge of all chunks, the last of them whole.
    Regular(&'a [u64]),
    /// The edge of all chunks, the last of them clipped to the array.
    Bounded(&'a [u64]),
    /// The edges of a `rectangular` grid.
    Rectangular(&'a [RectangularChunkGridDimensionConfiguration]),
    /// The edges of a `rectilinear` grid.
    Rectilinear(&'a [ChunkEdgeLengths]),
}

impl GridConfiguration {
    /// The edges of each dimension.
    pub fn given_edges(&self) -> GivenEdges<'_>
        ensures { given_view result ≡ edges_of self.now }
    {
        match self {
            GridConfiguration::Regular(regular) => {
                GivenEdges::Regular(regular.chunk_shape.as_slice())
            }
            GridConfiguration::RegularBounded(bounded) => {
                GivenEdges::Bounded(bounded.chunk_shape.as_slice())
            }
            GridConfiguration::Rectangular(rectangular) => {
                GivenEdges::Rectangular(&rectangular.chunk_shape)
            }
            GridConfiguration::Rectilinear(rectilinear) => {
                GivenEdges::Rectilinear(&rectilinear.chunk_shapes)
            }
        }
    }
}

impl<'a> GivenEdges<'a> {
    /// How many dimensions there are.
    pub fn dimensionality(self) -> usize
        ensures { result ≡ length (given_view self.entry) }
    {
        match self {
            GivenEdges::Regular(edges) | GivenEdges::Bounded(edges) => edges.len(),
            GivenEdges::Rectangular(edges) => edges.len(),
            GivenEdges::Rectilinear(edges) => edges.len(),
        }
    }

    /// The dimension of a size and the edges given for dimension `k`.
    fn dimension(self, alloc: Global, size: u64, k: usize) -> Result<Dimension, GridError>
        requires { k < length (given_view self) }
        ensures made { IfOk result
            (λ d. option_and_then (dimension_in size) (slice_get (given_view self.entry) k)
            ≡ Some (dimension_of d)) }
        ensures refused { IfErr result (RefusesAt size (slice_get (given_view self.entry) k)) }
    {
        match self {
            GivenEdges::Regular(edges) => fixed_dimension(size, edges[k]),
            GivenEdges::Bounded(edges) => bounded_dimension(size, edges[k]),
            GivenEdges::Rectangular(edges) => rectangular_dimension(alloc, size, &edges[k]),
            GivenEdges::Rectilinear(edges) => rectilinear_dimension(alloc, size, &edges[k]),
        }
    }
}

/// The dimensions of an array's shape and the edges given for each of them. The error is another
/// number of dimensions, or else the first refusal of a dimension.
#[tactic(auto, using(crate::proofs::MakingWalk::other_length))]
pub fn dimensions(
    alloc: Global,
    array_shape: &[u64],
    given: GivenEdges<'_>,
) -> Result<Vec<Dimension>, GridError>
    ensures made { IfOk result
        (λ made. grid_in array_shape.now (given_view given.entry) ≡ Some (grid_of made.items)) }
    ensures none { IfErr result
        (λ e. e ≢ GridError.Memory → grid_in array_shape.now (given_view given.entry) ≡ None) }
    ensures refused { IfErr result (RefusesGrid array_shape.now (given_view given.entry)) }
    ensures other { length (given_view given.entry) ≢ length array_shape.now
        → result ≡ Err (GridError.Dimensionality
        (record { got = length (given_view given.entry); expected = length array_shape.now })) }
{
    let got = given.dimensionality();
    let expected = array_shape.len();
    if got != expected {
        return Err(GridError::Dimensionality(IncompatibleDimensionalityError { got, expected }));
    }
    each_dimension(alloc, array_shape, given)
}

/// The dimensions of as many sizes and given edges.
fn each_dimension(
    alloc: Global,
    array_shape: &[u64],
    given: GivenEdges<'_>,
) -> Result<Vec<Dimension>, GridError>
    requires { length (given_view given) ≡ length array_shape.now }
    ensures made { IfOk result
        (λ made. grid_in array_shape.now (given_view given.entry) ≡ Some (grid_of made.items)) }
    ensures none { IfErr result
        (λ e. e ≢ GridError.Memory → grid_in array_shape.now (given_view given.entry) ≡ None) }
    ensures refused { IfErr result (RefusesGrid array_shape.now (given_view given.entry)) }
{
    let mut made = Vec::with_capacity(alloc, array_shape.len())?;
    for k in 0..array_shape.len() {
        let dimension = match given.dimension(alloc, array_shape[k], k) {
            Ok(dimension) => dimension,
            Err(error) => return Err(error),
        };
        match made.push(dimension) {
            Ok(()) => {}
            Err(error) => return Err(AllocError::from(error).into()),
        }
    }
    Ok(made)
}

fn fixed_dimension(size: u64, edge: u64) -> Result<Dimension, GridError>
    ensures made { IfOk result (λ d. dimension_in size (fixed edge) ≡ Some (dimension_of d)) }
    ensures refused { IfErr result (Refuses size (fixed edge)) }
{
    match Dimension::regular(size, edge) {
        Ok(dimension) => Ok(dimension),
        Err(_) => Err(GridError::ZeroEdge),
    }
}

fn bounded_dimension(size: u64, edge: u64) -> Result<Dimension, GridError>
    ensures made { IfOk result (λ d. dimension_in size (bounded edge) ≡ Some (dimension_of d)) }
    ensures refused { IfErr result (Refuses size (bounded edge)) }
{
    match Dimension::clipped(size, edge) {
        Ok(dimension) => Ok(dimension),
        Err(_) => Err(GridError::ZeroEdge),
    }
}

fn rectangular_dimension(
    alloc: Global,
    size: u64,
    given: &RectangularChunkGridDimensionConfiguration,
) -> Result<Dimension, GridError>
    ensures made { IfOk result
        (λ d. dimension_in size (rectangular_view given.now) ≡ Some (dimension_of d)) }
    ensures refused { IfErr result (Refuses size (rectangular_view given.now)) }
{
    match given {
        RectangularChunkGridDimensionConfiguration::Fixed(edge) => fixed_dimension(size, *edge),
        RectangularChunkGridDimensionConfiguration::Varying(edges) => {
            exact_dimension(alloc, size, edges)
        }
    }
}

fn rectilinear_dimension(
    alloc: Global,
    size: u64,
    given: &ChunkEdgeLengths,
) -> Result<Dimension, GridError>
    ensures made { IfOk result
        (λ d. dimension_in size (rectilinear_view given.now) ≡ Some (dimension_of d)) }
    ensures refused { IfErr result (Refuses size (rectilinear_view given.now)) }
{
    match given {
        ChunkEdgeLengths::Scalar(edge) => fixed_dimension(size, *edge),
        ChunkEdgeLengths::Varying(elements) => covering_dimension(alloc, size, elements),
    }
}

/// The dimension of a size and each chunk's edge.
fn exact_dimension(alloc: Global, size: u64, edges: &[u64]) -> Result<Dimension, GridError>
    ensures made { IfOk result (λ d. dimension_in size (exact edges.now) ≡ Some (dimension_of d)) }
    ensures refused { IfErr result (Refuses size (exact edges.now)) }
{
    if edges.is_empty() {
        return Err(GridError::ZeroEdge);
    }
    let repeats = single_repeats(alloc, edges)?;
    let varying = match varying_edges(alloc, size, repeats) {
        Ok(varying) => varying,
        Err(error) => return Err(error),
    };
    if varying.sum() != size as u128 {
        return Err(GridError::Sum);
    }
    Ok(Dimension::Varying(varying))
}

/// The dimension of a size and repeats of edges that cover it.
fn covering_dimension(
    alloc: Global,
    size: u64,
    elements: &[RunLengthElement],
) -> Result<Dimension, GridError>
    ensures made { IfOk result
        (λ d. dimension_in size (covering (map repeat_of elements.now)) ≡ Some (dimension_of d)) }
    ensures refused { IfErr result (Refuses size (covering (map repeat_of elements.now))) }
{
    let repeats = element_repeats(alloc, elements)?;
    let varying = varying_edges(alloc, size, repeats)?;
    Ok(Dimension::Varying(varying))
}

/// A repeat of one chunk for each edge.
fn single_repeats(alloc: Global, edges: &[u64]) -> Result<Vec<RepeatedEdge>, AllocError>
    ensures { IfOk result (λ repeats. repeats.items ≡ map single_repeat edges.now) }
{
    edges
        .iter()
        .map(|edge| RepeatedEdge {
            edge: *edge,
            count: 1,
        })
        .collect(alloc)
}

/// The repeats that elements are.
fn element_repeats(
    alloc: Global,
    elements: &[RunLengthElement],
) -> Result<Vec<RepeatedEdge>, AllocError>
    ensures { IfOk result (λ repeats. repeats.items ≡ map repeat_of elements.now) }
{
    let mut repeats = Vec::with_capacity(alloc, elements.len())?;
    for element in elements {
        repeats.push(element.repeat())?;
    }
    Ok(repeats)
}

/// The repeats as chunks of a dimension of this size, which they have to cover.
fn varying_edges(
    alloc: Global,
    size: u64,
    repeats: Vec<RepeatedEdge>,
) -> Result<VaryingEdges, GridError>
    ensures made { IfOk result (IsMadeOf size repeats.items) }
    ensures refused { IfErr result (Refuses size (covering repeats.items)) }
{
    match VaryingEdges::new(alloc, size, repeats) {
        Ok(varying) => Ok(varying),
        Err(VaryingEdgesError::ZeroEdge) | Err(VaryingEdgesError::ZeroCount) => {
            Err(GridError::ZeroEdge)
        }
        Err(VaryingEdgesError::TooManyChunks) => Err(GridError::TooManyChunks),
        Err(VaryingEdgesError::TooShort) => Err(GridError::Sum),
        Err(VaryingEdgesError::Memory) => Err(GridError::Memory),
    }
}
