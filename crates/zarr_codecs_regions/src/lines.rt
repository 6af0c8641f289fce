//! The lines of a box of an array, along its last dimension.
ghost use Rattle.std.specs.Prelude.{◌≡◌, ◌<◌, true, IfOk};
ghost use Rattle.zarr_grids_boxes.specs.Boxes.{product};
ghost use Rattle.zarr_grids_boxes.specs.Cuts.{ends, IsAtMost};
ghost use Rattle.zarr_grids_boxes.specs.Subsets.{region_of};
ghost use Rattle.zarr_codecs_traits.specs.Indexers.{shape_has};
ghost use Rattle.zarr_codecs_regions.specs.BoxLines.{first_places, line_length, with_first_alone};

use std::alloc::{AllocError, Global};
use zarr_grids_boxes::ArraySubset;

/// The lines of a box: the first place of each, and how many places each has.
#[derive(Drop)]
pub(crate) struct Lines {
    pub firsts: ArraySubset,
    pub length: u64,
}

/// The lines of a box of an array, which has a place. Their first places are the array's too.
pub(crate) fn lines_of(
    alloc: Global,
    shape: &[u64],
    region: &ArraySubset,
) -> Result<Lines, AllocError>
    requires inside { shape_has shape.now (region_of region.now) ≡ true }
    requires some { 0 < product region.now.shape.items }
    ensures firsts { IfOk result
        (λ lines. region_of lines.firsts ≡ first_places (region_of region.now)) }
    ensures length { IfOk result (λ lines. lines.length ≡ line_length region.now.shape.items) }
    ensures within { IfOk result (λ lines. IsAtMost (ends (region_of lines.firsts)) shape.now) }
{
    let firsts = first_places(alloc, region)?;
    let length = line_length(region.shape());
    Ok(Lines { firsts, length })
}

/// How many places each line of a box of this shape has.
fn line_length(shape: &[u64]) -> u64
    ensures { result ≡ line_length shape.now }
{
    match shape.last() {
        Some(length) => *length,
        None => 1,
    }
}

/// The first places of a box's lines.
pub(crate) fn first_places(alloc: Global, region: &ArraySubset) -> Result<ArraySubset, AllocError>
    requires { 0 < product region.now.shape.items }
    ensures { IfOk result (λ firsts. region_of firsts ≡ first_places (region_of region.now)) }
{
    let start = region.start().to_vec(alloc)?;
    let shape = with_first_alone(region.shape().to_vec(alloc)?);
    Ok(ArraySubset { start, shape })
}

/// A shape with 1 as its last length.
#[tactic(auto, using(crate::proofs::BoxLines::alone_none, crate::proofs::BoxLines::alone_set))]
fn with_first_alone(mut shape: Vec<u64>) -> Vec<u64>
    ensures { result.items ≡ with_first_alone shape.items }
{
    let count = shape.len();
    if count == 0 {
        return shape;
    }
    shape[count - 1] = 1;
    shape
}
