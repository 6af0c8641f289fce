//! Making boxes.
ghost use Rattle.std.specs.Prelude.{◌≡◌, ◌↔◌, ◌+◌, ◌-◌, ◌<◌, ◌≤◌, ◌^◌, ℕ, length, slice_index, map, replicate, IsTrue, IfOk, IsOk};
ghost use Rattle.zarr_grids_boxes.specs.Boxes.{EndsFit, product, each2};
ghost use Rattle.zarr_grids_boxes.specs.Cuts.{between, IsAtMost, HasOneNotAtMost};
ghost use Rattle.zarr_grids_boxes.specs.Subsets.{region_of};

use crate::subset::{ArraySubset, ArraySubsetError};
use std::alloc::{AllocError, Global};
use std::ops::Range;

impl ArraySubset {
    /// The box of the numbers in these ranges, one for each dimension. A range that ends before its
    /// start has no number.
    pub fn new_with_ranges(alloc: Global, ranges: &[Range<u64>]) -> Result<ArraySubset, AllocError>
        ensures { IfOk result (λ subset. region_of subset
            ≡ between (map (λ r. r.start) ranges.now) (map (λ r. r.end) ranges.now)) }
    {
        let start: Vec<u64> = ranges.iter().map(|range| range.start).collect(alloc)?;
        let end: Vec<u64> = ranges.iter().map(|range| range.end).collect(alloc)?;
        Ok(box_between(start, end))
    }

    /// The box of this shape that starts at 0.
    pub fn new_with_shape(alloc: Global, shape: Vec<u64>) -> Result<ArraySubset, AllocError>
        ensures start { IfOk result
            (λ subset. subset.start.items ≡ replicate (length shape.items) 0) }
        ensures shape { IfOk result (λ subset. subset.shape ≡ shape) }
    {
        let start = vec![in alloc; 0u64; shape.len()]?;
        Ok(ArraySubset { start, shape })
    }

    /// The box from a start to an end, which is the first number past it.
    pub fn new_with_start_end_exc(
        start: Vec<u64>,
        end: Vec<u64>,
    ) -> Result<ArraySubset, ArraySubsetError>
        ensures start { IfOk result (λ subset. subset.start ≡ start) }
        ensures made { IfOk result (λ subset. region_of subset ≡ between start.items end.items) }
        ensures differ { (result ≡ Err ArraySubsetError.LengthsDiffer)
            ↔ (¬ (length start.items ≡ length end.items)) }
        ensures after { (result ≡ Err ArraySubsetError.StartAfterEnd)
            ↔ HasOneNotAtMost start.items end.items }
        ensures others { IsAtMost start.items end.items → IsOk result }
    {
        if end.len() != start.len() {
            return Err(ArraySubsetError::LengthsDiffer);
        }
        if !is_at_most(&start, &end) {
            return Err(ArraySubsetError::StartAfterEnd);
        }
        Ok(box_between(start, end))
    }

    /// The box of this dimensionality that has no place: its start and its shape are 0. With no
    /// dimension it has one place, as every box of no dimension.
    pub fn new_empty(alloc: Global, dimensionality: usize) -> Result<ArraySubset, AllocError>
        ensures start { IfOk result (λ subset. subset.start.items ≡ replicate dimensionality 0) }
        ensures shape { IfOk result (λ subset. subset.shape.items ≡ replicate dimensionality 0) }
    {
        let start = vec![in alloc; 0u64; dimensionality]?;
        let shape = vec![in alloc; 0u64; dimensionality]?;
        Ok(ArraySubset { start, shape })
    }
}

/// Whether each number is at most the other's.
pub(crate) fn is_at_most(xs: &[u64], ys: &[u64]) -> bool
    requires { length xs.now ≡ length ys.now }
    ensures { IsTrue result ↔ IsAtMost xs.now ys.now }
{
    for k in 0..ys.len() {
        if xs[k] > ys[k] {
            return false;
        }
    }
    true
}

/// The box from a start to an end, of length 0 in a dimension where the end is not after the start.
pub(crate) fn box_between(start: Vec<u64>, end: Vec<u64>) -> ArraySubset
    requires { length end.items ≡ length start.items }
    ensures start { result.start ≡ start }
    ensures made { region_of result ≡ between start.items end.items }
{
    let shape = subtract_start(&start, end);
    ArraySubset { start, shape }
}

/// The length from the start to the end in each dimension, which is 0 where the end is not after
/// the start.
fn subtract_start(start: &[u64], mut end: Vec<u64>) -> Vec<u64>
    requires { length end.items ≡ length start.now }
    ensures items { result.items ≡ each2 (λ s e. e - s) start.now end.items }
    ensures len { length result.items ≡ length start.now }
    ensures fit { EndsFit start.now result.items }
{
    for k in 0..start.len() {
        let first = start[k];
        let last = end[k];
        end[k] = last.saturating_sub(first);
    }
    end
}
