//! What is left of a list of repeats.
ghost use Rattle.std.specs.Prelude.{◌≡◌, ◌<◌, true};
ghost use Rattle.zarr_grids_dimensions.specs.Lookups.{all_positive};
ghost use Rattle.zarr_grids_dimensions.specs.RepeatedEdges.{counts};

use crate::repeat::RepeatedEdge;

/// A first repeat, and those after it.
#[derive(Clone, Copy)]
pub(crate) struct RepeatsLeft<'a> {
    pub(crate) first: RepeatedEdge,
    pub(crate) later: &'a [RepeatedEdge],
    ghost some: { 0 < first.count },
    ghost positive: { all_positive (counts later.now) ≡ true },
}
