//! The grid `rectilinear`.
ghost use Rattle.std.specs.Prelude.{◌≡◌, ◌≢◌, Some, None, map, IfOk, IfErr};
ghost use Rattle.std.proofs.Props.{props};
ghost use Rattle.serde_json.specs.View.{members_view};
ghost use Rattle.zarr_grids_metadata.specs.Views.{point_of};
ghost use Rattle.zarr_grids_dimensions.specs.Dimensions.{grid_of};
ghost use Rattle.zarr_grids_configurations.specs.Grids.{grid_in};
ghost use Rattle.zarr_grids_configurations.specs.Written.{rectilinear_members};
ghost use Rattle.zarr_grids_configurations.specs.Configurations.{rectilinear, configuration_of_kind, configuration_given, grid_given};
ghost use Rattle.zarr_grids_configurations.specs.Views.{rectilinear_view};

use crate::create::{refused_configuration, refused_grid};
use crate::traits::ChunkGridTraits;
use serde_json::{Map, Value};
use std::alloc::{AllocError, Global};
use thiserror::Error;
use zarr_grids_boxes::ArrayShape;
use zarr_grids_configurations::dimensions::{GivenEdges, dimensions};
use zarr_grids_configurations::{
    ChunkEdgeLengths, GridError, read_rectilinear, rectilinear_to_json, try_clone_rectilinear,
};
use zarr_grids_dimensions::{Dimension, IncompatibleDimensionalityError, is_same_grid};
use zarr_grids_metadata::{MetadataV3, PluginCreateError};

/// Why a `rectilinear` grid is not made.
#[derive(Clone, Copy, Debug, PartialEq, Eq, Error)]
pub enum RectilinearChunkGridCreateError {
    /// Edges are given for another number of dimensions than the array has.
    #[error(transparent)]
    Dimensionality(IncompatibleDimensionalityError),
    /// An edge or a count is 0.
    #[error("an edge of the chunk grid is 0")]
    ZeroEdge,
    /// The sum of listed edges is less than the size of the dimension.
    #[error("the sum of the edges is less than the size of the dimension")]
    Sum,
    /// There are more than 2^64 - 1 chunks along a dimension.
    #[error("there are more than 2^64 - 1 chunks along a dimension")]
    TooManyChunks,
    #[error("out of memory")]
    Memory,
}

impl From<RectilinearChunkGridCreateError> for GridError {
    ghost use Rattle.zarr_grids_chunk_grids.specs.Errors.{cause_of_rectilinear};

    ghost from_gives = { λ error cause. cause ≡ cause_of_rectilinear error };

    fn from(error: RectilinearChunkGridCreateError) -> GridError {
        match error {
            RectilinearChunkGridCreateError::Dimensionality(error) => GridError::Dimensionality(
                error,
            ),
            RectilinearChunkGridCreateError::ZeroEdge => GridError::ZeroEdge,
            RectilinearChunkGridCreateError::Sum => GridError::Sum,
            RectilinearChunkGridCreateError::TooManyChunks => GridError::TooManyChunks,
            RectilinearChunkGridCreateError::Memory => GridError::Memory,
        }
    }
}

/// A grid of chunks of one edge or of repeats of edges along each dimension. Repeats cover at least
/// the array's size (this project's profile).
#[derive(Drop)]
#[derive_where(Debug)]
pub struct RectilinearChunkGrid {
    array_shape: ArrayShape,
    chunk_shapes: Vec<ChunkEdgeLengths>,
    #[derive_where(skip)]
    dimensions: Vec<Dimension>,
    pub ghost made: { grid_in array_shape.items (map rectilinear_view chunk_shapes.items)
        ≡ Some (grid_of dimensions.items) } by { Prim.hlevel props },
}

impl RectilinearChunkGrid {
    ghost use Rattle.zarr_grids_chunk_grids.specs.Errors.{RefusesRectilinear};
    ghost use Rattle.zarr_grids_chunk_grids.specs.Grids.{array_shape_of_rectilinear, edges_of_rectilinear};

    /// The grid of an array's shape and the edges along each dimension. Give positive edges and
    /// counts for each dimension of the shape, with a sum that is at least its size there, and
    /// fewer than 2^64 chunks; else the error says what fails.
    pub fn new(
        alloc: Global,
        array_shape: ArrayShape,
        chunk_shapes: Vec<ChunkEdgeLengths>,
    ) -> Result<RectilinearChunkGrid, RectilinearChunkGridCreateError>
        ensures shape { IfOk result (λ grid. array_shape_of_rectilinear grid ≡ array_shape.items) }
        ensures edges { IfOk result (λ grid. edges_of_rectilinear grid ≡ chunk_shapes.items) }
        ensures none { IfErr result (λ e. e ≢ RectilinearChunkGridCreateError.Memory
            → grid_in array_shape.items (map rectilinear_view chunk_shapes.items) ≡ None) }
        ensures refused { IfErr result (RefusesRectilinear array_shape.items chunk_shapes.items) }
    {
        let given = GivenEdges::Rectilinear(&chunk_shapes);
        match dimensions(alloc, &array_shape, given) {
            Ok(dimensions) => Ok(RectilinearChunkGrid {
                array_shape,
                chunk_shapes,
                dimensions,
            }),
            Err(GridError::Dimensionality(error)) => Err(
                RectilinearChunkGridCreateError::Dimensionality(error),
            ),
            Err(GridError::ZeroEdge) => Err(RectilinearChunkGridCreateError::ZeroEdge),
            Err(GridError::Sum) => Err(RectilinearChunkGridCreateError::Sum),
            Err(GridError::TooManyChunks) => Err(RectilinearChunkGridCreateError::TooManyChunks),
            Err(GridError::Memory) => Err(RectilinearChunkGridCreateError::Memory),
        }
    }

    /// The grid of an array's shape and the configuration that an extension point gives, whatever
    /// its name. `MetadataInvalid` where that is no configuration of `rectilinear` or does not suit
    /// the shape.
    pub fn create(
        alloc: Global,
        metadata: &MetadataV3,
        array_shape: &[u64],
    ) -> Result<RectilinearChunkGrid, PluginCreateError>
        ensures shape { IfOk result (λ grid. array_shape_of_rectilinear grid ≡ array_shape.now) }
        ensures edges { IfOk result
            (λ grid. configuration_given rectilinear (point_of metadata.now).configuration
            ≡ Some (map rectilinear_view (edges_of_rectilinear grid))) }
        ensures refused { IfErr result (λ e. e ≢ PluginCreateError.Memory
            → (e ≡ PluginCreateError.MetadataInvalid)
            × (grid_given rectilinear array_shape.now
            (point_of metadata.now).configuration ≡ None)) }
    {
        let configuration = match read_rectilinear(alloc, metadata.configuration()) {
            Ok(configuration) => configuration,
            Err(error) => return Err(refused_configuration(error)),
        };
        let array_shape = array_shape.to_vec(alloc)?;
        match RectilinearChunkGrid::new(alloc, array_shape, configuration.chunk_shapes) {
            Ok(grid) => Ok(grid),
            Err(error) => Err(refused_grid(GridError::from(error))),
        }
    }

    /// The grid's configuration in JSON, which reads as the edges that the grid was made of. `Err`
    /// only where an allocation failed.
    pub fn configuration(&self, alloc: Global) -> Result<Map<String, Value>, AllocError>
        ensures written { IfOk result (λ members. members_view members.entries
            ≡ rectilinear_members (edges_of_rectilinear self.now)) }
        ensures reads { IfOk result
            (λ members. configuration_of_kind rectilinear (members_view members.entries)
            ≡ Some (map rectilinear_view (edges_of_rectilinear self.now))) }
    {
        let members = rectilinear_to_json(alloc, &self.chunk_shapes)?;
        Ok(members)
    }

    /// An equal grid, in memory of its own.
    pub fn try_clone(&self, alloc: Global) -> Result<RectilinearChunkGrid, AllocError>
        ensures shape { IfOk result
            (λ copy. array_shape_of_rectilinear copy ≡ array_shape_of_rectilinear self.now) }
        ensures edges { IfOk result (λ copy. map rectilinear_view (edges_of_rectilinear copy)
            ≡ map rectilinear_view (edges_of_rectilinear self.now)) }
    {
        let array_shape = self.array_shape.to_vec(alloc)?;
        let chunk_shapes = try_clone_rectilinear(alloc, &self.chunk_shapes)?;
        match RectilinearChunkGrid::new(alloc, array_shape, chunk_shapes) {
            Ok(copy) => Ok(copy),
            Err(_) => Err(AllocError),
        }
    }
}

/// Two are equal where their array shapes are, and along each dimension the edges, however repeats
/// hold them: `[[4, 2]]` is `[4, 4]`. One edge of all chunks equals no list of edges, since its
/// chunks go on past the array and a list ends. What a grid was made of is not compared:
/// `configuration` of equal grids may differ. Takes as many steps as both have repeats.
impl PartialEq for RectilinearChunkGrid {
    ghost use Rattle.std.specs.Cmp.{on_per, partial_equiv_from_equiv};
    ghost use Rattle.zarr_grids_chunk_grids.specs.Grids.{grid_of_rectilinear};
    ghost use Rattle.zarr_grids_dimensions.specs.Same.{same_grid};
    ghost use Rattle.zarr_grids_dimensions.specs.SameEquivalence.{same_grid_equiv};

    ghost eq = { λ a b. same_grid (grid_of_rectilinear a) (grid_of_rectilinear b) };

    ghost laws = { on_per grid_of_rectilinear (partial_equiv_from_equiv same_grid_equiv) };

    fn eq(&self, other: &RectilinearChunkGrid) -> bool {
        is_same_grid(&self.dimensions, &other.dimensions)
    }
}

impl Eq for RectilinearChunkGrid {
    ghost use Rattle.std.specs.Cmp.{on_equiv};
    ghost use Rattle.zarr_grids_chunk_grids.specs.Grids.{grid_of_rectilinear};
    ghost use Rattle.zarr_grids_dimensions.specs.SameEquivalence.{same_grid_equiv};

    ghost laws = { on_equiv grid_of_rectilinear same_grid_equiv };
}

impl ChunkGridTraits for RectilinearChunkGrid {
    ghost use Rattle.zarr_grids_chunk_grids.specs.Grids.{grid_of_rectilinear};

    ghost grid = { grid_of_rectilinear };

    fn dimensions(&self) -> &[Dimension] {
        &self.dimensions
    }
}
