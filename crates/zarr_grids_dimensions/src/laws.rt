//! Laws of chunks and places. Each function does nothing: its contract is the law.
ghost use Rattle.zarr_grids_dimensions.specs.Laws.{IntervalsApart, PlaceInOneInterval, ChunksApart, PlaceInOneChunk, SameDimensionIsEqual, SameGridIsEqual};
ghost use Rattle.zarr_grids_dimensions.specs.Lookups.{is_dimension};
ghost use Rattle.zarr_grids_dimensions.specs.Dimensions.{dimension_of};
ghost use Rattle.std.specs.Prelude.{◌≡◌, true};

use crate::dimension::Dimension;

/// The intervals of two chunks of a dimension share no place.
pub fn intervals_apart()
    ensures { IntervalsApart }
{}

/// Each place below the size lies in exactly one chunk below the count, and in no chunk past it.
pub fn place_in_one_interval()
    ensures { PlaceInOneInterval }
{}

/// Two chunks share no place.
pub fn chunks_apart()
    ensures { ChunksApart }
{}

/// Each place of the array lies in exactly one chunk, which is in the grid.
pub fn place_in_one_chunk()
    ensures { PlaceInOneChunk }
{}

/// Dimensions compare as equal exactly where they are the same.
pub fn same_dimension_is_equal()
    ensures { SameDimensionIsEqual }
{}

/// Grids compare as equal exactly where they are the same, so that each lookup answers alike.
pub fn same_grid_is_equal()
    ensures { SameGridIsEqual }
{}

/// Each dimension that code holds has positive edges that cover its size.
pub fn is_always_dimension(dimension: &Dimension)
    ensures { is_dimension (dimension_of dimension.now) ≡ true }
{
    match dimension {
        Dimension::Regular(fixed) | Dimension::Clipped(fixed) => {
            let _edge = fixed.edge;
        }
        Dimension::Varying(edges) => {
            let _size = edges.size();
        }
    }
}
