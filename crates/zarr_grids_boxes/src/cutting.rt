//! Boxes made from boxes.
ghost use Rattle.std.specs.Prelude.{◌≡◌, ◌↔◌, ◌+◌, ◌-◌, ◌<◌, ◌≤◌, ◌^◌, ℕ, length, slice_index, min, max, IfOk, IsOkUnless};
ghost use Rattle.zarr_grids_boxes.specs.Boxes.{EndsFit, each2};
ghost use Rattle.zarr_grids_boxes.specs.Cuts.{ends, overlapped, bounded, relative, IsAtMost, HasOneNotAtMost};
ghost use Rattle.zarr_grids_boxes.specs.Subsets.{region_of};

use crate::making::{box_between, is_at_most};
use crate::subset::{ArraySubset, ArraySubsetError};
use std::alloc::{AllocError, Global};

impl ArraySubset {
    /// The box of the places in both boxes. Its length is 0 in a dimension where the two have no
    /// number in common.
    pub fn overlap(
        &self,
        alloc: Global,
        other: &ArraySubset,
    ) -> Result<ArraySubset, ArraySubsetError>
        ensures made { IfOk result
            (λ subset. region_of subset ≡ overlapped (region_of self.now) (region_of other.now)) }
        ensures differ { (result ≡ Err ArraySubsetError.LengthsDiffer)
            ↔ (¬ (length other.now.start.items ≡ length self.now.start.items)) }
        ensures memory { length other.now.start.items ≡ length self.now.start.items
            → IsOkUnless result ArraySubsetError.Memory }
    {
        if other.start.len() != self.start.len() {
            return Err(ArraySubsetError::LengthsDiffer);
        }
        Ok(overlap_same(alloc, self, other)?)
    }

    /// The box of the places that lie below `end` in each dimension.
    pub fn bound(&self, alloc: Global, end: &[u64]) -> Result<ArraySubset, ArraySubsetError>
        ensures made { IfOk result
            (λ subset. region_of subset ≡ bounded (region_of self.now) end.now) }
        ensures differ { (result ≡ Err ArraySubsetError.LengthsDiffer)
            ↔ (¬ (length end.now ≡ length self.now.start.items)) }
        ensures memory { length end.now ≡ length self.now.start.items
            → IsOkUnless result ArraySubsetError.Memory }
    {
        if end.len() != self.start.len() {
            return Err(ArraySubsetError::LengthsDiffer);
        }
        Ok(bound_same(alloc, self, end)?)
    }

    /// The same box with its start given from `offset` on. The error is an offset after the start
    /// in some dimension.
    pub fn relative_to(
        &self,
        alloc: Global,
        offset: &[u64],
    ) -> Result<ArraySubset, ArraySubsetError>
        ensures made { IfOk result
            (λ subset. region_of subset ≡ relative (region_of self.now) offset.now) }
        ensures differ { (result ≡ Err ArraySubsetError.LengthsDiffer)
            ↔ (¬ (length offset.now ≡ length self.now.start.items)) }
        ensures after { (result ≡ Err ArraySubsetError.NotRelative)
            ↔ HasOneNotAtMost offset.now self.now.start.items }
        ensures memory { IsAtMost offset.now self.now.start.items
            → IsOkUnless result ArraySubsetError.Memory }
    {
        if offset.len() != self.start.len() {
            return Err(ArraySubsetError::LengthsDiffer);
        }
        if !is_at_most(offset, &self.start) {
            return Err(ArraySubsetError::NotRelative);
        }
        Ok(relative_at_most(alloc, self, offset)?)
    }
}

/// The overlap of boxes of one dimensionality.
fn overlap_same(
    alloc: Global,
    one: &ArraySubset,
    other: &ArraySubset,
) -> Result<ArraySubset, AllocError>
    requires { length other.now.start.items ≡ length one.now.start.items }
    ensures { IfOk result
        (λ subset. region_of subset ≡ overlapped (region_of one.now) (region_of other.now)) }
{
    let start = larger_each(alloc, &one.start, &other.start)?;
    let end = lower_to_end(one.end_exc(alloc)?, other);
    Ok(box_between(start, end))
}

/// The box of the places below an end of the box's dimensionality.
fn bound_same(alloc: Global, subset: &ArraySubset, end: &[u64]) -> Result<ArraySubset, AllocError>
    requires { length end.now ≡ length subset.now.start.items }
    ensures { IfOk result (λ bound. region_of bound ≡ bounded (region_of subset.now) end.now) }
{
    let start = lower_each(subset.start.to_vec(alloc)?, end);
    let last = lower_each(subset.end_exc(alloc)?, end);
    Ok(box_between(start, last))
}

/// The larger number of each dimension.
fn larger_each(alloc: Global, xs: &[u64], ys: &[u64]) -> Result<Vec<u64>, AllocError>
    requires { length ys.now ≡ length xs.now }
    ensures items { IfOk result (λ larger. larger.items ≡ each2 max xs.now ys.now) }
    ensures len { IfOk result (λ larger. length larger.items ≡ length xs.now) }
{
    let mut larger = Vec::with_capacity(alloc, xs.len())?;
    for k in 0..xs.len() {
        larger.push(xs[k].max(ys[k]))?;
    }
    Ok(larger)
}

/// Lowers each number to the other's.
fn lower_each(mut xs: Vec<u64>, ys: &[u64]) -> Vec<u64>
    requires { length ys.now ≡ length xs.items }
    ensures items { result.items ≡ each2 min xs.items ys.now }
    ensures len { length result.items ≡ length xs.items }
{
    for k in 0..ys.len() {
        xs[k] = xs[k].min(ys[k]);
    }
    xs
}

/// Lowers each end to the box's.
fn lower_to_end(mut xs: Vec<u64>, subset: &ArraySubset) -> Vec<u64>
    requires { length xs.items ≡ length subset.now.start.items }
    ensures items { result.items ≡ each2 min xs.items (ends (region_of subset.now)) }
    ensures len { length result.items ≡ length xs.items }
{
    for k in 0..subset.start.len() {
        xs[k] = xs[k].min(subset.end_along(k));
    }
    xs
}

/// The box as seen from an offset that is at most its start.
fn relative_at_most(
    alloc: Global,
    subset: &ArraySubset,
    offset: &[u64],
) -> Result<ArraySubset, AllocError>
    requires { IsAtMost offset.now subset.now.start.items }
    ensures { IfOk result (λ moved. region_of moved ≡ relative (region_of subset.now) offset.now) }
{
    let mut start = Vec::with_capacity(alloc, subset.start.len())?;
    for k in 0..subset.start.len() {
        start.push(subset.start[k] - offset[k])?;
    }
    let shape = subset.shape.to_vec(alloc)?;
    Ok(ArraySubset { start, shape })
}
