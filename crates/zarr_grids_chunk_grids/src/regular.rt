//! The grid `regular`.
ghost use Rattle.std.specs.Prelude.{◌≡◌, ◌≢◌, Some, None, map, IfOk, IfErr};
ghost use Rattle.std.proofs.Props.{props};
ghost use Rattle.serde_json.specs.View.{members_view};
ghost use Rattle.zarr_grids_metadata.specs.Views.{point_of};
ghost use Rattle.zarr_grids_dimensions.specs.Dimensions.{grid_of};
ghost use Rattle.zarr_grids_configurations.specs.Grids.{fixed, grid_in};
ghost use Rattle.zarr_grids_configurations.specs.Written.{regular_members};
ghost use Rattle.zarr_grids_configurations.specs.Configurations.{regular, configuration_of_kind, configuration_given, grid_given};

use crate::create::{refused_configuration, refused_grid};
use crate::traits::ChunkGridTraits;
use serde_json::{Map, Value};
use std::alloc::{AllocError, Global};
use thiserror::Error;
use zarr_grids_boxes::{ArrayShape, ChunkShape, chunk_shape_to_array_shape};
use zarr_grids_configurations::dimensions::{GivenEdges, dimensions};
use zarr_grids_configurations::{GridError, read_chunk_shape, regular_to_json};
use zarr_grids_dimensions::{Dimension, IncompatibleDimensionalityError};
use zarr_grids_metadata::{MetadataV3, PluginCreateError};

/// Why a `regular` grid is not made.
#[derive(Clone, Copy, Debug, PartialEq, Eq, Error)]
pub enum RegularChunkGridCreateError {
    /// The chunk shape has another number of dimensions than the array.
    #[error(transparent)]
    Dimensionality(IncompatibleDimensionalityError),
    #[error("out of memory")]
    Memory,
}

impl From<RegularChunkGridCreateError> for GridError {
    ghost use Rattle.zarr_grids_chunk_grids.specs.Errors.{cause_of_regular};

    ghost from_gives = { λ error cause. cause ≡ cause_of_regular error };

    fn from(error: RegularChunkGridCreateError) -> GridError {
        match error {
            RegularChunkGridCreateError::Dimensionality(error) => GridError::Dimensionality(error),
            RegularChunkGridCreateError::Memory => GridError::Memory,
        }
    }
}

/// A grid of chunks of one shape, the last of them whole (Zarr core specification, "Regular
/// grids").
#[derive(Drop)]
#[derive_where(PartialEq, Eq, Debug)]
pub struct RegularChunkGrid {
    array_shape: ArrayShape,
    chunk_shape: ChunkShape,
    #[derive_where(skip)]
    dimensions: Vec<Dimension>,
    pub ghost made: { grid_in array_shape.items (map fixed chunk_shape)
        ≡ Some (grid_of dimensions.items) } by { Prim.hlevel props },
}

impl RegularChunkGrid {
    ghost use Rattle.zarr_grids_chunk_grids.specs.Errors.{RefusesRegular};
    ghost use Rattle.zarr_grids_chunk_grids.specs.Grids.{array_shape_of_regular, chunk_shape_of_regular};

    /// The grid of an array's shape and its chunks' shape. Give both as many dimensions: with that
    /// it is made, unless memory runs out.
    pub fn new(
        alloc: Global,
        array_shape: ArrayShape,
        chunk_shape: ChunkShape,
    ) -> Result<RegularChunkGrid, RegularChunkGridCreateError>
        ensures shape { IfOk result (λ grid. array_shape_of_regular grid ≡ array_shape.items) }
        ensures edges { IfOk result (λ grid. chunk_shape_of_regular grid ≡ chunk_shape) }
        ensures none { IfErr result (λ e. e ≢ RegularChunkGridCreateError.Memory
            → grid_in array_shape.items (map fixed chunk_shape) ≡ None) }
        ensures refused { IfErr result (RefusesRegular array_shape.items chunk_shape) }
    {
        let given = GivenEdges::Regular(chunk_shape.as_slice());
        match dimensions(alloc, &array_shape, given) {
            Ok(dimensions) => Ok(RegularChunkGrid {
                array_shape,
                chunk_shape,
                dimensions,
            }),
            Err(GridError::Dimensionality(error)) => Err(
                RegularChunkGridCreateError::Dimensionality(error),
            ),
            Err(GridError::Memory) => Err(RegularChunkGridCreateError::Memory),
            Err(GridError::ZeroEdge) => unreachable!(),
            Err(GridError::Sum) => unreachable!(),
            Err(GridError::TooManyChunks) => unreachable!(),
        }
    }

    /// The grid of an array's shape and the configuration that an extension point gives, whatever
    /// its name. `MetadataInvalid` where that is no configuration of `regular` or has another
    /// number of dimensions than the shape.
    pub fn create(
        alloc: Global,
        metadata: &MetadataV3,
        array_shape: &[u64],
    ) -> Result<RegularChunkGrid, PluginCreateError>
        ensures shape { IfOk result (λ grid. array_shape_of_regular grid ≡ array_shape.now) }
        ensures edges { IfOk result
            (λ grid. configuration_given regular (point_of metadata.now).configuration
            ≡ Some (map fixed (chunk_shape_of_regular grid))) }
        ensures refused { IfErr result (λ e. e ≢ PluginCreateError.Memory
            → (e ≡ PluginCreateError.MetadataInvalid)
            × (grid_given regular array_shape.now
            (point_of metadata.now).configuration ≡ None)) }
    {
        let chunk_shape = match read_chunk_shape(alloc, metadata.configuration()) {
            Ok(chunk_shape) => chunk_shape,
            Err(error) => return Err(refused_configuration(error)),
        };
        let array_shape = array_shape.to_vec(alloc)?;
        match RegularChunkGrid::new(alloc, array_shape, chunk_shape) {
            Ok(grid) => Ok(grid),
            Err(error) => Err(refused_grid(GridError::from(error))),
        }
    }

    /// The shape of each chunk.
    pub fn chunk_shape(&self) -> &ChunkShape
        ensures { result.now ≡ chunk_shape_of_regular self.now }
    {
        &self.chunk_shape
    }

    /// The edges of each chunk, as an array's shape.
    pub fn chunk_shape_u64(&self, alloc: Global) -> Result<ArrayShape, AllocError>
        ensures { IfOk result (λ edges. edges.items ≡ chunk_shape_of_regular self.now) }
    {
        chunk_shape_to_array_shape(alloc, &self.chunk_shape)
    }

    /// The grid's configuration in JSON, which reads as the edges that the grid was made of. `Err`
    /// only where an allocation failed.
    pub fn configuration(&self, alloc: Global) -> Result<Map<String, Value>, AllocError>
        ensures written { IfOk result (λ members. members_view members.entries
            ≡ regular_members (chunk_shape_of_regular self.now)) }
        ensures reads { IfOk result
            (λ members. configuration_of_kind regular (members_view members.entries)
            ≡ Some (map fixed (chunk_shape_of_regular self.now))) }
    {
        let members = regular_to_json(alloc, self.chunk_shape.as_slice())?;
        Ok(members)
    }

    /// An equal grid, in memory of its own.
    pub fn try_clone(&self, alloc: Global) -> Result<RegularChunkGrid, AllocError>
        ensures shape { IfOk result
            (λ copy. array_shape_of_regular copy ≡ array_shape_of_regular self.now) }
        ensures edges { IfOk result (λ copy. map fixed (chunk_shape_of_regular copy)
            ≡ map fixed (chunk_shape_of_regular self.now)) }
    {
        let array_shape = self.array_shape.to_vec(alloc)?;
        let chunk_shape = self.chunk_shape.try_clone(alloc)?;
        match RegularChunkGrid::new(alloc, array_shape, chunk_shape) {
            Ok(copy) => Ok(copy),
            Err(_) => Err(AllocError),
        }
    }
}

impl ChunkGridTraits for RegularChunkGrid {
    ghost use Rattle.zarr_grids_chunk_grids.specs.Grids.{grid_of_regular};

    ghost grid = { grid_of_regular };

    fn dimensions(&self) -> &[Dimension] {
        &self.dimensions
    }
}
