//! The grid `rectangular`.
ghost use Rattle.std.specs.Prelude.{◌≡◌, ◌≢◌, Some, None, map, IfOk, IfErr};
ghost use Rattle.std.proofs.Props.{props};
ghost use Rattle.serde_json.specs.View.{members_view};
ghost use Rattle.zarr_grids_metadata.specs.Views.{point_of};
ghost use Rattle.zarr_grids_dimensions.specs.Dimensions.{grid_of};
ghost use Rattle.zarr_grids_configurations.specs.Grids.{grid_in};
ghost use Rattle.zarr_grids_configurations.specs.Written.{rectangular_members};
ghost use Rattle.zarr_grids_configurations.specs.Configurations.{rectangular, configuration_of_kind, configuration_given, grid_given};
ghost use Rattle.zarr_grids_configurations.specs.Views.{rectangular_view};

use crate::create::{refused_configuration, refused_grid};
use crate::traits::ChunkGridTraits;
use serde_json::{Map, Value};
use std::alloc::{AllocError, Global};
use thiserror::Error;
use zarr_grids_boxes::ArrayShape;
use zarr_grids_configurations::dimensions::{GivenEdges, dimensions};
use zarr_grids_configurations::{
    GridError, RectangularChunkGridDimensionConfiguration, read_rectangular, rectangular_to_json,
    try_clone_rectangular,
};
use zarr_grids_dimensions::{Dimension, IncompatibleDimensionalityError};
use zarr_grids_metadata::{MetadataV3, PluginCreateError};

/// Why a `rectangular` grid is not made.
#[derive(Clone, Copy, Debug, PartialEq, Eq, Error)]
pub enum RectangularChunkGridCreateError {
    /// Edges are given for another number of dimensions than the array has.
    #[error(transparent)]
    Dimensionality(IncompatibleDimensionalityError),
    /// An edge is 0, or a list has no edge.
    #[error("an edge of the chunk grid is 0")]
    ZeroEdge,
    /// The sum of listed edges is not the size of the dimension.
    #[error("the sum of the edges is not the size of the dimension")]
    Sum,
    #[error("out of memory")]
    Memory,
}

impl From<RectangularChunkGridCreateError> for GridError {
    ghost use Rattle.zarr_grids_chunk_grids.specs.Errors.{cause_of_rectangular};

    ghost from_gives = { λ error cause. cause ≡ cause_of_rectangular error };

    fn from(error: RectangularChunkGridCreateError) -> GridError {
        match error {
            RectangularChunkGridCreateError::Dimensionality(error) => GridError::Dimensionality(
                error,
            ),
            RectangularChunkGridCreateError::ZeroEdge => GridError::ZeroEdge,
            RectangularChunkGridCreateError::Sum => GridError::Sum,
            RectangularChunkGridCreateError::Memory => GridError::Memory,
        }
    }
}

/// A grid of chunks of one edge or of listed edges along each dimension. Listed edges have the
/// array's size as sum (this project's profile).
#[derive(Drop)]
#[derive_where(PartialEq, Eq, Debug)]
pub struct RectangularChunkGrid {
    array_shape: ArrayShape,
    chunk_shape: Vec<RectangularChunkGridDimensionConfiguration>,
    #[derive_where(skip)]
    dimensions: Vec<Dimension>,
    pub ghost made: { grid_in array_shape.items (map rectangular_view chunk_shape.items)
        ≡ Some (grid_of dimensions.items) } by { Prim.hlevel props },
}

impl RectangularChunkGrid {
    ghost use Rattle.zarr_grids_chunk_grids.specs.Errors.{RefusesRectangular};
    ghost use Rattle.zarr_grids_chunk_grids.specs.Grids.{array_shape_of_rectangular, edges_of_rectangular};

    /// The grid of an array's shape and the edges along each dimension. Give positive edges for
    /// each dimension of the shape, and lists whose sum is its size there; else the error says what
    /// fails.
    pub fn new(
        alloc: Global,
        array_shape: ArrayShape,
        chunk_shape: Vec<RectangularChunkGridDimensionConfiguration>,
    ) -> Result<RectangularChunkGrid, RectangularChunkGridCreateError>
        ensures shape { IfOk result (λ grid. array_shape_of_rectangular grid ≡ array_shape.items) }
        ensures edges { IfOk result (λ grid. edges_of_rectangular grid ≡ chunk_shape.items) }
        ensures none { IfErr result (λ e. e ≢ RectangularChunkGridCreateError.Memory
            → grid_in array_shape.items (map rectangular_view chunk_shape.items) ≡ None) }
        ensures refused { IfErr result (RefusesRectangular array_shape.items chunk_shape.items) }
    {
        let given = GivenEdges::Rectangular(&chunk_shape);
        match dimensions(alloc, &array_shape, given) {
            Ok(dimensions) => Ok(RectangularChunkGrid {
                array_shape,
                chunk_shape,
                dimensions,
            }),
            Err(GridError::Dimensionality(error)) => Err(
                RectangularChunkGridCreateError::Dimensionality(error),
            ),
            Err(GridError::ZeroEdge) => Err(RectangularChunkGridCreateError::ZeroEdge),
            Err(GridError::Sum) => Err(RectangularChunkGridCreateError::Sum),
            Err(GridError::Memory) => Err(RectangularChunkGridCreateError::Memory),
            Err(GridError::TooManyChunks) => unreachable!(),
        }
    }

    /// The grid of an array's shape and the configuration that an extension point gives, whatever
    /// its name. `MetadataInvalid` where that is no configuration of `rectangular` or does not suit
    /// the shape.
    pub fn create(
        alloc: Global,
        metadata: &MetadataV3,
        array_shape: &[u64],
    ) -> Result<RectangularChunkGrid, PluginCreateError>
        ensures shape { IfOk result (λ grid. array_shape_of_rectangular grid ≡ array_shape.now) }
        ensures edges { IfOk result
            (λ grid. configuration_given rectangular (point_of metadata.now).configuration
            ≡ Some (map rectangular_view (edges_of_rectangular grid))) }
        ensures refused { IfErr result (λ e. e ≢ PluginCreateError.Memory
            → (e ≡ PluginCreateError.MetadataInvalid)
            × (grid_given rectangular array_shape.now
            (point_of metadata.now).configuration ≡ None)) }
    {
        let configuration = match read_rectangular(alloc, metadata.configuration()) {
            Ok(configuration) => configuration,
            Err(error) => return Err(refused_configuration(error)),
        };
        let array_shape = array_shape.to_vec(alloc)?;
        match RectangularChunkGrid::new(alloc, array_shape, configuration.chunk_shape) {
            Ok(grid) => Ok(grid),
            Err(error) => Err(refused_grid(GridError::from(error))),
        }
    }

    /// The grid's configuration in JSON, which reads as the edges that the grid was made of. `Err`
    /// only where an allocation failed.
    pub fn configuration(&self, alloc: Global) -> Result<Map<String, Value>, AllocError>
        ensures written { IfOk result (λ members. members_view members.entries
            ≡ rectangular_members (edges_of_rectangular self.now)) }
        ensures reads { IfOk result
            (λ members. configuration_of_kind rectangular (members_view members.entries)
            ≡ Some (map rectangular_view (edges_of_rectangular self.now))) }
    {
        let members = rectangular_to_json(alloc, &self.chunk_shape)?;
        Ok(members)
    }

    /// An equal grid, in memory of its own.
    pub fn try_clone(&self, alloc: Global) -> Result<RectangularChunkGrid, AllocError>
        ensures shape { IfOk result
            (λ copy. array_shape_of_rectangular copy ≡ array_shape_of_rectangular self.now) }
        ensures edges { IfOk result (λ copy. map rectangular_view (edges_of_rectangular copy)
            ≡ map rectangular_view (edges_of_rectangular self.now)) }
    {
        let array_shape = self.array_shape.to_vec(alloc)?;
        let chunk_shape = try_clone_rectangular(alloc, &self.chunk_shape)?;
        match RectangularChunkGrid::new(alloc, array_shape, chunk_shape) {
            Ok(copy) => Ok(copy),
            Err(_) => Err(AllocError),
        }
    }
}

impl ChunkGridTraits for RectangularChunkGrid {
    ghost use Rattle.zarr_grids_chunk_grids.specs.Grids.{grid_of_rectangular};

    ghost grid = { grid_of_rectangular };

    fn dimensions(&self) -> &[Dimension] {
        &self.dimensions
    }
}
