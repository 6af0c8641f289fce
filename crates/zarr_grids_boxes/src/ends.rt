//! Where boxes end, and what lies within them.
ghost use Rattle.std.specs.Prelude.{◌≡◌, ◌↔◌, ◌+◌, ◌-◌, ◌<◌, ◌≤◌, ◌^◌, ℕ, length, slice_index, map, IsTrue, IfOk, MatchOption};
ghost use Rattle.zarr_grids_boxes.specs.Boxes.{product, is_in_box, each2};
ghost use Rattle.zarr_grids_boxes.specs.Cuts.{ends, IsAtMost};
ghost use Rattle.zarr_grids_boxes.specs.Subsets.{region_of};

use crate::subset::ArraySubset;
use std::alloc::{AllocError, Global};

impl ArraySubset {
    /// The first number past the box in each dimension.
    pub fn end_exc(&self, alloc: Global) -> Result<Vec<u64>, AllocError>
        ensures end { IfOk result (λ end. end.items ≡ ends (region_of self.now)) }
        ensures dimensionality { IfOk result
            (λ end. length end.items ≡ length self.now.start.items) }
    {
        let mut end = Vec::with_capacity(alloc, self.start.len())?;
        for k in 0..self.start.len() {
            end.push(self.end_along(k))?;
        }
        Ok(end)
    }

    /// The last number of the box in each dimension, if the box has a place.
    pub fn end_inc(&self, alloc: Global) -> Result<Option<Vec<u64>>, AllocError>
        ensures { IfOk result (λ last. MatchOption last (product self.now.shape.items ≡ 0)
            (λ end. (0 < product self.now.shape.items)
            × (end.items ≡ map (λ n. n - 1) (ends (region_of self.now))))) }
    {
        if self.is_empty() {
            return Ok(None);
        }
        let mut end = Vec::with_capacity(alloc, self.start.len())?;
        for k in 0..self.start.len() {
            end.push(self.end_along(k) - 1)?;
        }
        Ok(Some(end))
    }

    /// Whether the place lies in the box. A place of another dimensionality does not.
    pub fn contains(&self, indices: &[u64]) -> bool
        ensures { result ≡ is_in_box self.now.start.items self.now.shape.items indices.now }
    {
        if indices.len() != self.start.len() {
            return false;
        }
        for k in 0..self.start.len() {
            if indices[k] < self.start[k] || indices[k] - self.start[k] >= self.shape[k] {
                return false;
            }
        }
        true
    }

    /// Whether the box ends inside an array of this shape in each dimension. An array of another
    /// dimensionality does not hold it.
    pub fn inbounds_shape(&self, array_shape: &[u64]) -> bool
        ensures inside { IsTrue result ↔ IsAtMost (ends (region_of self.now)) array_shape.now }
        ensures dimensionality { IsTrue result
            → length array_shape.now ≡ length self.now.start.items }
    {
        if array_shape.len() != self.start.len() {
            return false;
        }
        for k in 0..self.start.len() {
            if self.end_along(k) > array_shape[k] {
                return false;
            }
        }
        true
    }

    /// The first number past the box in one dimension.
    pub(crate) fn end_along(&self, k: usize) -> u64
        requires { k < length self.now.start.items }
        ensures { result ≡ slice_index self.now.start.items k + slice_index self.now.shape.items k }
    {
        self.start[k] + self.shape[k]
    }
}
