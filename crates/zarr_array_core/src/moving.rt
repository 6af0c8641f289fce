//! Boxes as seen from other places, and boxes made in the memory of others.
ghost use Rattle.std.specs.Prelude.{◌≡◌, ◌-◌, List, ℕ, length, IfOk};
ghost use Rattle.zarr_grids_boxes.specs.Boxes.{EndsFit, each2};
ghost use Rattle.zarr_grids_boxes.specs.Cuts.{IsAtMost, overlapped, relative};
ghost use Rattle.zarr_grids_boxes.specs.Subsets.{region_of};

use std::alloc::AllocError;
use zarr_grids_boxes::ArraySubset;

/// The box of the places in both of two boxes, in the memory of one that is no longer needed. Its
/// length is 0 in a dimension where the two have no number in common.
pub(crate) fn overlap_in(
    room: ArraySubset,
    one: &ArraySubset,
    other: &ArraySubset,
) -> Result<ArraySubset, AllocError>
    requires { length other.now.start.items ≡ length one.now.start.items }
    ensures { IfOk result
        (λ subset. region_of subset ≡ overlapped (region_of one.now) (region_of other.now)) }
{
    let ArraySubset {
        mut start,
        mut shape,
    } = room;
    start.clear();
    shape.clear();
    for k in 0..one.start.len() {
        let (from, other_from) = (one.start[k], other.start[k]);
        let (end, other_end) = (from + one.shape[k], other_from + other.shape[k]);
        let first = from.max(other_from);
        start.push(first)?;
        shape.push(end.min(other_end).saturating_sub(first))?;
    }
    Ok(ArraySubset { start, shape })
}

/// The box as seen from an offset that is at most its start. It allocates nothing.
pub(crate) fn seen_from(subset: ArraySubset, offset: &[u64]) -> ArraySubset
    requires { IsAtMost offset.now subset.start.items }
    ensures { region_of result ≡ relative (region_of subset) offset.now }
{
    let ArraySubset { start, shape } = subset;
    let start = lowered_by(start, offset);
    ArraySubset { start, shape }
}

/// Numbers less as many others, each of which is at most its number.
fn lowered_by(mut numbers: Vec<u64>, others: &[u64]) -> Vec<u64>
    requires { IsAtMost others.now numbers.items }
    ensures items { result.items ≡ each2 (λ s o. s - o) numbers.items others.now }
    ensures len { length result.items ≡ length numbers.items }
    ensures fit { (shape : List ℕ) → EndsFit numbers.items shape → EndsFit result.items shape }
{
    for k in 0..others.len() {
        let number = numbers[k];
        numbers[k] = number - others[k];
    }
    numbers
}
