//! The chunk grid of a document.
ghost use Rattle.std.specs.Prelude.{◌≡◌, ◌≢◌, None, Some, Ok, Err, IfOk, IfErr, length, map, option_and_then};
ghost use Rattle.serde_json.specs.View.{view};
ghost use Rattle.zarr_grids_dimensions.specs.Lookups.{size_of};
ghost use Rattle.zarr_grids_configurations.specs.Configurations.{configuration_in};
ghost use Rattle.zarr_grids_configurations.specs.Grids.{grid_in};
ghost use Rattle.zarr_grids_chunk_grids.specs.Grids.{grid_of_chunks, sizes_of_grid, edges_of_grid};
ghost use Rattle.zarr_array_fields.specs.Grids.{grid_for};

use serde_json::Value;
use std::alloc::Global;
use zarr_array_meaning::DocumentError;
use zarr_grids_chunk_grids::ChunkGrid;
use zarr_grids_configurations::{ConfigurationError, read_configuration};
use zarr_grids_metadata::{MetadataV3, PluginCreateError};

/// The chunk grid of an array's shape. `ChunkGrid` where none has the name and the configuration,
/// `Dimensionality` where it has another dimensionality than the shape, and then `ChunkGrid` where
/// it is no grid of the shape.
#[tactic(auto, using(crate::proofs::ChunkGrids::grid_made, crate::proofs::ChunkGrids::grid_sized, crate::proofs::ChunkGrids::grid_counted))]
pub fn grid_in(alloc: Global, value: &Value, shape: &[u64]) -> Result<ChunkGrid, DocumentError>
    ensures configuration { IfOk result
        (λ grid. configuration_in (view value.now) ≡ Some (edges_of_grid grid)) }
    ensures same { IfOk result (λ grid. length (edges_of_grid grid) ≡ length shape.now) }
    ensures shape { IfOk result (λ grid. sizes_of_grid grid ≡ shape.now) }
    ensures grid { IfOk result
        (λ grid. grid_in shape.now (edges_of_grid grid) ≡ Some (grid_of_chunks grid)) }
    ensures sized { IfOk result (λ grid. map size_of (grid_of_chunks grid) ≡ shape.now) }
    ensures err { IfErr result
        (λ e. e ≢ DocumentError.Memory → grid_for shape.now (view value.now) ≡ Err e) }
{
    let Some(metadata) = MetadataV3::from_value(alloc, value)? else {
        return Err(DocumentError::ChunkGrid);
    };
    match ChunkGrid::from_metadata(alloc, &metadata, shape) {
        Ok(grid) => Ok(grid),
        Err(PluginCreateError::Memory) => Err(DocumentError::Memory),
        Err(_) => Err(refused_grid(alloc, value, shape)),
    }
}

/// Why a value makes no chunk grid of an array's shape.
fn refused_grid(alloc: Global, value: &Value, shape: &[u64]) -> DocumentError
    requires { option_and_then (grid_in shape.now) (configuration_in (view value.now)) ≡ None }
    ensures { result ≢ DocumentError.Memory → grid_for shape.now (view value.now) ≡ Err result }
{
    match read_configuration(alloc, value) {
        Ok(configuration) => {
            if configuration.given_edges().dimensionality() == shape.len() {
                DocumentError::ChunkGrid
            } else {
                DocumentError::Dimensionality
            }
        }
        Err(ConfigurationError::Memory) => DocumentError::Memory,
        Err(_) => DocumentError::ChunkGrid,
    }
}
