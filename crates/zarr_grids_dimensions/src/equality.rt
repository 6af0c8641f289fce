//! Equality of dimensions: two are equal where their chunks lie alike.
ghost use Rattle.std.specs.Prelude.{◌≡◌};
ghost use Rattle.zarr_grids_dimensions.specs.Dimensions.{dimension_of, grid_of};
ghost use Rattle.zarr_grids_dimensions.specs.Same.{same_dimension, same_grid};

use crate::dimension::Dimension;
use crate::same_edges::have_same_edges;

/// Varying edges are compared edge by edge, whatever repeats hold them: a repeat of two chunks
/// equals two repeats of one. Chunks of one edge equal no list of edges, since they go on past the
/// array and a list ends.
impl PartialEq for Dimension {
    ghost use Rattle.std.specs.Cmp.{on_per, partial_equiv_from_equiv};
    ghost use Rattle.zarr_grids_dimensions.specs.Dimensions.{dimension_of};
    ghost use Rattle.zarr_grids_dimensions.specs.Same.{same_dimension};
    ghost use Rattle.zarr_grids_dimensions.specs.SameEquivalence.{same_dimension_equiv};

    ghost eq = { λ a b. same_dimension (dimension_of a) (dimension_of b) };

    ghost laws = { on_per dimension_of (partial_equiv_from_equiv same_dimension_equiv) };

    fn eq(&self, other: &Dimension) -> bool {
        is_same_dimension(self, other)
    }
}

impl Eq for Dimension {
    ghost use Rattle.std.specs.Cmp.{on_equiv};
    ghost use Rattle.zarr_grids_dimensions.specs.Dimensions.{dimension_of};
    ghost use Rattle.zarr_grids_dimensions.specs.SameEquivalence.{same_dimension_equiv};

    ghost laws = { on_equiv dimension_of same_dimension_equiv };
}

/// Whether two grids are equal in each dimension. It takes time in proportion to how many repeats
/// they have.
pub fn is_same_grid(grid: &[Dimension], other: &[Dimension]) -> bool
    ensures { result ≡ same_grid (grid_of grid.now) (grid_of other.now) }
{
    grid == other
}

fn is_same_dimension(dimension: &Dimension, other: &Dimension) -> bool
    ensures { result ≡ same_dimension (dimension_of dimension.now) (dimension_of other.now) }
{
    match dimension {
        Dimension::Regular(fixed) => match other {
            Dimension::Regular(other) => fixed.size == other.size && fixed.edge == other.edge,
            _ => false,
        },
        Dimension::Clipped(fixed) => match other {
            Dimension::Clipped(other) => fixed.size == other.size && fixed.edge == other.edge,
            _ => false,
        },
        Dimension::Varying(edges) => match other {
            Dimension::Varying(other) => {
                edges.size() == other.size() && have_same_edges(edges.repeats(), other.repeats())
            }
            _ => false,
        },
    }
}
