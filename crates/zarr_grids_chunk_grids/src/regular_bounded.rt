//! The grid `regular_bounded`.
ghost use Rattle.std.specs.Prelude.{◌≡◌, ◌≢◌, Some, None, map, IfOk, IfErr};
ghost use Rattle.std.proofs.Props.{props};
ghost use Rattle.serde_json.specs.View.{members_view};
ghost use Rattle.zarr_grids_metadata.specs.Views.{point_of};
ghost use Rattle.zarr_grids_dimensions.specs.Dimensions.{grid_of};
ghost use Rattle.zarr_grids_configurations.specs.Grids.{bounded, grid_in};
ghost use Rattle.zarr_grids_configurations.specs.Written.{regular_members};
ghost use Rattle.zarr_grids_configurations.specs.Configurations.{regular_bounded, configuration_of_kind, configuration_given, grid_given};

use crate::create::{refused_configuration, refused_grid};
use crate::traits::ChunkGridTraits;
use serde_json::{Map, Value};
use std::alloc::{AllocError, Global};
use thiserror::Error;
use zarr_grids_boxes::{ArrayShape, ChunkShape};
use zarr_grids_configurations::dimensions::{GivenEdges, dimensions};
use zarr_grids_configurations::{GridError, read_chunk_shape, regular_to_json};
use zarr_grids_dimensions::{Dimension, IncompatibleDimensionalityError};
use zarr_grids_metadata::{MetadataV3, PluginCreateError};

/// Why a `regular_bounded` grid is not made.
#[derive(Clone, Copy, Debug, PartialEq, Eq, Error)]
pub enum RegularBoundedChunkGridCreateError {
    /// The chunk shape has another number of dimensions than the array.
    #[error(transparent)]
    Dimensionality(IncompatibleDimensionalityError),
    #[error("out of memory")]
    Memory,
}

impl From<RegularBoundedChunkGridCreateError> for GridError {
    ghost use Rattle.zarr_grids_chunk_grids.specs.Errors.{cause_of_regular_bounded};

    ghost from_gives = { λ error cause. cause ≡ cause_of_regular_bounded error };

    fn from(error: RegularBoundedChunkGridCreateError) -> GridError {
        match error {
            RegularBoundedChunkGridCreateError::Dimensionality(error) => GridError::Dimensionality(
                error,
            ),
            RegularBoundedChunkGridCreateError::Memory => GridError::Memory,
        }
    }
}

/// A grid of chunks of one shape, the last of them clipped to the array (this project's profile).
#[derive(Drop)]
#[derive_where(PartialEq, Eq, Debug)]
pub struct RegularBoundedChunkGrid {
    array_shape: ArrayShape,
    chunk_shape: ChunkShape,
    #[derive_where(skip)]
    dimensions: Vec<Dimension>,
    pub ghost made: { grid_in array_shape.items (map bounded chunk_shape)
        ≡ Some (grid_of dimensions.items) } by { Prim.hlevel props },
}

impl RegularBoundedChunkGrid {
    ghost use Rattle.zarr_grids_chunk_grids.specs.Errors.{RefusesRegularBounded};
    ghost use Rattle.zarr_grids_chunk_grids.specs.Grids.{array_shape_of_bounded, chunk_shape_of_bounded};

    /// The grid of an array's shape and its chunks' shape. Give both as many dimensions: with that
    /// it is made, unless memory runs out.
    pub fn new(
        alloc: Global,
        array_shape: ArrayShape,
        chunk_shape: ChunkShape,
    ) -> Result<RegularBoundedChunkGrid, RegularBoundedChunkGridCreateError>
        ensures shape { IfOk result (λ grid. array_shape_of_bounded grid ≡ array_shape.items) }
        ensures edges { IfOk result (λ grid. chunk_shape_of_bounded grid ≡ chunk_shape) }
        ensures none { IfErr result (λ e. e ≢ RegularBoundedChunkGridCreateError.Memory
            → grid_in array_shape.items (map bounded chunk_shape) ≡ None) }
        ensures refused { IfErr result (RefusesRegularBounded array_shape.items chunk_shape) }
    {
        let given = GivenEdges::Bounded(chunk_shape.as_slice());
        match dimensions(alloc, &array_shape, given) {
            Ok(dimensions) => Ok(RegularBoundedChunkGrid {
                array_shape,
                chunk_shape,
                dimensions,
            }),
            Err(GridError::Dimensionality(error)) => Err(
                RegularBoundedChunkGridCreateError::Dimensionality(error),
            ),
            Err(GridError::Memory) => Err(RegularBoundedChunkGridCreateError::Memory),
            Err(GridError::ZeroEdge) => unreachable!(),
            Err(GridError::Sum) => unreachable!(),
            Err(GridError::TooManyChunks) => unreachable!(),
        }
    }

    /// The grid of an array's shape and the configuration that an extension point gives, whatever
    /// its name. `MetadataInvalid` where that is no configuration of `regular_bounded` or has
    /// another number of dimensions than the shape.
    pub fn create(
        alloc: Global,
        metadata: &MetadataV3,
        array_shape: &[u64],
    ) -> Result<RegularBoundedChunkGrid, PluginCreateError>
        ensures shape { IfOk result (λ grid. array_shape_of_bounded grid ≡ array_shape.now) }
        ensures edges { IfOk result
            (λ grid. configuration_given regular_bounded (point_of metadata.now).configuration
            ≡ Some (map bounded (chunk_shape_of_bounded grid))) }
        ensures refused { IfErr result (λ e. e ≢ PluginCreateError.Memory
            → (e ≡ PluginCreateError.MetadataInvalid)
            × (grid_given regular_bounded array_shape.now
            (point_of metadata.now).configuration ≡ None)) }
    {
        let chunk_shape = match read_chunk_shape(alloc, metadata.configuration()) {
            Ok(chunk_shape) => chunk_shape,
            Err(error) => return Err(refused_configuration(error)),
        };
        let array_shape = array_shape.to_vec(alloc)?;
        match RegularBoundedChunkGrid::new(alloc, array_shape, chunk_shape) {
            Ok(grid) => Ok(grid),
            Err(error) => Err(refused_grid(GridError::from(error))),
        }
    }

    /// The grid's configuration in JSON, which reads as the edges that the grid was made of. `Err`
    /// only where an allocation failed.
    pub fn configuration(&self, alloc: Global) -> Result<Map<String, Value>, AllocError>
        ensures written { IfOk result (λ members. members_view members.entries
            ≡ regular_members (chunk_shape_of_bounded self.now)) }
        ensures reads { IfOk result
            (λ members. configuration_of_kind regular_bounded (members_view members.entries)
            ≡ Some (map bounded (chunk_shape_of_bounded self.now))) }
    {
        let members = regular_to_json(alloc, self.chunk_shape.as_slice())?;
        Ok(members)
    }

    /// An equal grid, in memory of its own.
    pub fn try_clone(&self, alloc: Global) -> Result<RegularBoundedChunkGrid, AllocError>
        ensures shape { IfOk result
            (λ copy. array_shape_of_bounded copy ≡ array_shape_of_bounded self.now) }
        ensures edges { IfOk result (λ copy. map bounded (chunk_shape_of_bounded copy)
            ≡ map bounded (chunk_shape_of_bounded self.now)) }
    {
        let array_shape = self.array_shape.to_vec(alloc)?;
        let chunk_shape = self.chunk_shape.try_clone(alloc)?;
        match RegularBoundedChunkGrid::new(alloc, array_shape, chunk_shape) {
            Ok(copy) => Ok(copy),
            Err(_) => Err(AllocError),
        }
    }
}

impl ChunkGridTraits for RegularBoundedChunkGrid {
    ghost use Rattle.zarr_grids_chunk_grids.specs.Grids.{grid_of_bounded};

    ghost grid = { grid_of_bounded };

    fn dimensions(&self) -> &[Dimension] {
        &self.dimensions
    }
}
