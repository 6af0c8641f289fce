//! Laws of chunk grids. Each function does nothing: its contract is the law.
ghost use Rattle.std.specs.Prelude.{◌≡◌, map};
ghost use Rattle.zarr_grids_configurations.specs.Grids.{fixed};
ghost use Rattle.zarr_grids_configurations.specs.Views.{rectangular_view, rectilinear_view};
ghost use Rattle.zarr_grids_chunk_grids.specs.Grids.{array_shape_of_regular, array_shape_of_rectangular, array_shape_of_rectilinear};
ghost use Rattle.zarr_grids_chunk_grids.specs.Grids.{chunk_shape_of_regular, edges_of_rectangular, edges_of_rectilinear};
ghost use Rattle.zarr_grids_chunk_grids.specs.Laws.{GridOfConfiguration, EqualEdgesEqualGrids, RectilinearByEdges};

use crate::rectangular::RectangularChunkGrid;
use crate::rectilinear::RectilinearChunkGrid;
use crate::regular::RegularChunkGrid;
use crate::traits::ChunkGridTraits;

/// A chunk grid is the one that its configuration makes of its array's shape.
pub fn grid_of_configuration()
    ensures { GridOfConfiguration }
{}

/// Two chunk grids of any kind, of equal array shapes and equal edges, are equal, so that each
/// lookup answers alike.
pub fn equal_edges_equal_grids()
    ensures { EqualEdgesEqualGrids }
{}

/// Two `rectilinear` grids compare as equal exactly where they have equal array shapes and equal
/// edges along each dimension, whether a repeat gives the edges or each is given by itself.
pub fn rectilinear_by_edges()
    ensures { RectilinearByEdges }
{}

/// A `rectangular` grid of fixed edges is the `regular` one.
pub fn rectangular_is_regular(rectangular: &RectangularChunkGrid, regular: &RegularChunkGrid)
    requires shape { array_shape_of_rectangular rectangular.now
        ≡ array_shape_of_regular regular.now }
    requires edges { map rectangular_view (edges_of_rectangular rectangular.now)
        ≡ map fixed (chunk_shape_of_regular regular.now) }
    ensures { ⟦<RectangularChunkGrid as ChunkGridTraits>⟧.grid rectangular.now
        ≡ ⟦<RegularChunkGrid as ChunkGridTraits>⟧.grid regular.now }
{}

/// A `rectilinear` grid of scalar edges is the `regular` one.
pub fn rectilinear_is_regular(rectilinear: &RectilinearChunkGrid, regular: &RegularChunkGrid)
    requires shape { array_shape_of_rectilinear rectilinear.now
        ≡ array_shape_of_regular regular.now }
    requires edges { map rectilinear_view (edges_of_rectilinear rectilinear.now)
        ≡ map fixed (chunk_shape_of_regular regular.now) }
    ensures { ⟦<RectilinearChunkGrid as ChunkGridTraits>⟧.grid rectilinear.now
        ≡ ⟦<RegularChunkGrid as ChunkGridTraits>⟧.grid regular.now }
{}
