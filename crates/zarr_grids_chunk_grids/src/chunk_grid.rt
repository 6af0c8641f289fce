//! Any of the four chunk grids.
ghost use Rattle.std.specs.Prelude.{◌≡◌, ◌≢◌, Some, None, IfOk, IfErr, option_and_then};
ghost use Rattle.zarr_grids_metadata.specs.Views.{point_of};
ghost use Rattle.zarr_grids_configurations.specs.Grids.{grid_in};
ghost use Rattle.zarr_grids_configurations.specs.Configurations.{kind_of, configuration_of_point};
ghost use Rattle.zarr_grids_chunk_grids.specs.Grids.{grid_of_chunks, sizes_of_grid, kind_of_grid, edges_of_grid};

use crate::rectangular::RectangularChunkGrid;
use crate::rectilinear::RectilinearChunkGrid;
use crate::regular::RegularChunkGrid;
use crate::regular_bounded::RegularBoundedChunkGrid;
use crate::traits::ChunkGridTraits;
use std::alloc::{AllocError, Global};
use zarr_grids_configurations::ChunkGridKind;
use zarr_grids_dimensions::Dimension;
use zarr_grids_metadata::{MetadataV3, PluginCreateError};

/// A chunk grid.
#[derive(Debug, PartialEq, Eq, Drop)]
pub enum ChunkGrid {
    Regular(RegularChunkGrid),
    RegularBounded(RegularBoundedChunkGrid),
    Rectangular(RectangularChunkGrid),
    Rectilinear(RectilinearChunkGrid),
}

impl ChunkGrid {
    /// The grid of an array's shape that an extension point names and configures. `NameUnsupported`
    /// where no chunk grid has the name, `MetadataInvalid` where its configuration is not one or
    /// does not suit the shape.
    pub fn from_metadata(
        alloc: Global,
        metadata: &MetadataV3,
        array_shape: &[u64],
    ) -> Result<ChunkGrid, PluginCreateError>
        ensures kind { IfOk result
            (λ grid. kind_of (point_of metadata.now).name ≡ Some (kind_of_grid grid)) }
        ensures edges { IfOk result
            (λ grid. configuration_of_point (point_of metadata.now) ≡ Some (edges_of_grid grid)) }
        ensures shape { IfOk result (λ grid. sizes_of_grid grid ≡ array_shape.now) }
        ensures name { result ≡ Err PluginCreateError.NameUnsupported
            → kind_of (point_of metadata.now).name ≡ None }
        ensures unknown { kind_of (point_of metadata.now).name ≡ None
            → result ≡ Err PluginCreateError.NameUnsupported }
        ensures cause { IfErr result (λ e. e ≢ PluginCreateError.Memory
            → e ≢ PluginCreateError.NameUnsupported → e ≡ PluginCreateError.MetadataInvalid) }
        ensures refused { IfErr result
            (λ e. e ≢ PluginCreateError.Memory
            → option_and_then (grid_in array_shape.now)
            (configuration_of_point (point_of metadata.now)) ≡ None) }
    {
        let Some(kind) = ChunkGridKind::of_name(metadata.name()) else {
            return Err(PluginCreateError::NameUnsupported);
        };
        match kind {
            ChunkGridKind::Regular => {
                match RegularChunkGrid::create(alloc, metadata, array_shape) {
                    Ok(grid) => Ok(ChunkGrid::from(grid)),
                    Err(error) => Err(error),
                }
            }
            ChunkGridKind::RegularBounded => {
                match RegularBoundedChunkGrid::create(alloc, metadata, array_shape) {
                    Ok(grid) => Ok(ChunkGrid::from(grid)),
                    Err(error) => Err(error),
                }
            }
            ChunkGridKind::Rectangular => {
                match RectangularChunkGrid::create(alloc, metadata, array_shape) {
                    Ok(grid) => Ok(ChunkGrid::from(grid)),
                    Err(error) => Err(error),
                }
            }
            ChunkGridKind::Rectilinear => {
                match RectilinearChunkGrid::create(alloc, metadata, array_shape) {
                    Ok(grid) => Ok(ChunkGrid::from(grid)),
                    Err(error) => Err(error),
                }
            }
        }
    }

    /// An equal grid, in memory of its own.
    pub fn try_clone(&self, alloc: Global) -> Result<ChunkGrid, AllocError>
        ensures kind { IfOk result (λ copy. kind_of_grid copy ≡ kind_of_grid self.now) }
        ensures shape { IfOk result (λ copy. sizes_of_grid copy ≡ sizes_of_grid self.now) }
        ensures edges { IfOk result (λ copy. edges_of_grid copy ≡ edges_of_grid self.now) }
    {
        match self {
            ChunkGrid::Regular(grid) => {
                let copy = grid.try_clone(alloc)?;
                Ok(ChunkGrid::from(copy))
            }
            ChunkGrid::RegularBounded(grid) => {
                let copy = grid.try_clone(alloc)?;
                Ok(ChunkGrid::from(copy))
            }
            ChunkGrid::Rectangular(grid) => {
                let copy = grid.try_clone(alloc)?;
                Ok(ChunkGrid::from(copy))
            }
            ChunkGrid::Rectilinear(grid) => {
                let copy = grid.try_clone(alloc)?;
                Ok(ChunkGrid::from(copy))
            }
        }
    }
}

impl From<RegularChunkGrid> for ChunkGrid {
    ghost use Rattle.zarr_grids_chunk_grids.specs.declared.chunk_grid.ChunkGrid.TheVariants.{Regular};

    ghost from_gives = { λ grid made. made ≡ Regular grid };

    fn from(grid: RegularChunkGrid) -> Self {
        Self::Regular(grid)
    }
}

impl From<RegularBoundedChunkGrid> for ChunkGrid {
    ghost use Rattle.zarr_grids_chunk_grids.specs.declared.chunk_grid.ChunkGrid.TheVariants.{RegularBounded};

    ghost from_gives = { λ grid made. made ≡ RegularBounded grid };

    fn from(grid: RegularBoundedChunkGrid) -> Self {
        Self::RegularBounded(grid)
    }
}

impl From<RectangularChunkGrid> for ChunkGrid {
    ghost use Rattle.zarr_grids_chunk_grids.specs.declared.chunk_grid.ChunkGrid.TheVariants.{Rectangular};

    ghost from_gives = { λ grid made. made ≡ Rectangular grid };

    fn from(grid: RectangularChunkGrid) -> Self {
        Self::Rectangular(grid)
    }
}

impl From<RectilinearChunkGrid> for ChunkGrid {
    ghost use Rattle.zarr_grids_chunk_grids.specs.declared.chunk_grid.ChunkGrid.TheVariants.{Rectilinear};

    ghost from_gives = { λ grid made. made ≡ Rectilinear grid };

    fn from(grid: RectilinearChunkGrid) -> Self {
        Self::Rectilinear(grid)
    }
}

impl ChunkGridTraits for ChunkGrid {
    ghost grid = { grid_of_chunks };

    fn dimensions(&self) -> &[Dimension] {
        match self {
            ChunkGrid::Regular(grid) => grid.dimensions(),
            ChunkGrid::RegularBounded(grid) => grid.dimensions(),
            ChunkGrid::Rectangular(grid) => grid.dimensions(),
            ChunkGrid::Rectilinear(grid) => grid.dimensions(),
        }
    }
}
