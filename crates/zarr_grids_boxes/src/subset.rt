//! Boxes of places.
ghost use Rattle.std.specs.Prelude.{◌≡◌, ◌↔◌, ◌+◌, ◌<◌, ◌≤◌, ◌^◌, length, slice_index, IsTrue, IfOk, MatchResult, IsOkUnless};
ghost use Rattle.zarr_grids_boxes.specs.Boxes.{EndsFit, product};
ghost use Rattle.zarr_grids_boxes.specs.declared.subset.ArraySubsetError.TheVariants.{Memory};

use crate::shapes::count_elements;
use crate::walk::has_no_place;
use std::alloc::{AllocError, Global};
use thiserror::Error;

/// A box of places: where it starts and how long it is in each dimension. Each end fits 64 bits.
#[derive(Debug, PartialEq, Eq, Drop)]
pub struct ArraySubset {
    pub start: Vec<u64>,
    pub shape: Vec<u64>,
    ghost same: { length shape.items ≡ length start.items },
    ghost fit: { EndsFit start.items shape.items },
}

/// Why a call on boxes is refused.
#[derive(Clone, Copy, Debug, PartialEq, Eq, Error)]
pub enum ArraySubsetError {
    /// Start and shape have different lengths, or two arguments different dimensionalities.
    #[error("the start and the shape have different lengths")]
    LengthsDiffer,
    /// The box would end past 2^64 - 1 in some dimension.
    #[error("the box ends past 2^64 - 1")]
    EndPasses,
    /// The start is after the end in some dimension.
    #[error("the start is after the end")]
    StartAfterEnd,
    /// The offset is after the start in some dimension.
    #[error("the offset is after the start of the box")]
    NotRelative,
    /// The box is not inside the array.
    #[error("the box is not inside the array")]
    NotInbounds,
    /// There are 2^64 elements or more.
    #[error("the number of elements does not fit 64 bits")]
    Size,
    #[error("out of memory")]
    Memory,
}

impl From<AllocError> for ArraySubsetError {
    ghost from_gives = { λ _ e. e ≡ Memory };

    fn from(_error: AllocError) -> ArraySubsetError {
        ArraySubsetError::Memory
    }
}

impl ArraySubset {
    /// The box with this start and shape.
    pub fn new_with_start_shape(
        start: Vec<u64>,
        shape: Vec<u64>,
    ) -> Result<ArraySubset, ArraySubsetError>
        ensures start { IfOk result (λ subset. subset.start ≡ start) }
        ensures shape { IfOk result (λ subset. subset.shape ≡ shape) }
        ensures differ { (result ≡ Err ArraySubsetError.LengthsDiffer)
            ↔ (¬ (length shape.items ≡ length start.items)) }
        ensures passes { result ≡ Err ArraySubsetError.EndPasses
            → ¬ EndsFit start.items shape.items }
        ensures others { length shape.items ≡ length start.items
            → IsOkUnless result ArraySubsetError.EndPasses }
    {
        if shape.len() != start.len() {
            return Err(ArraySubsetError::LengthsDiffer);
        }
        if !ends_fit(&start, &shape) {
            return Err(ArraySubsetError::EndPasses);
        }
        Ok(ArraySubset { start, shape })
    }

    /// Where the box starts.
    pub fn start(&self) -> &[u64]
        ensures { result.now ≡ self.now.start.items }
    {
        self.start.as_slice()
    }

    /// How long the box is in each dimension.
    pub fn shape(&self) -> &[u64]
        ensures { result.now ≡ self.now.shape.items }
    {
        self.shape.as_slice()
    }

    /// How many dimensions the box has.
    pub fn dimensionality(&self) -> usize
        ensures { result ≡ length self.now.start.items }
    {
        self.start.len()
    }

    /// How many places the box has, if that is below 2^64.
    pub fn num_elements(&self) -> Result<u64, ArraySubsetError>
        ensures { MatchResult result (λ count. count ≡ product self.now.shape.items)
            (λ e. (e ≡ ArraySubsetError.Size) × (2 ^ 64 ≤ product self.now.shape.items)) }
    {
        count_elements(&self.shape).ok_or(ArraySubsetError::Size)
    }

    /// Whether the box has no place.
    pub fn is_empty(&self) -> bool
        ensures { IsTrue result ↔ (product self.now.shape.items ≡ 0) }
    {
        has_no_place(&self.shape)
    }

    /// An equal box, in memory of its own.
    pub fn try_clone(&self, alloc: Global) -> Result<ArraySubset, AllocError>
        ensures start { IfOk result (λ copy. copy.start.items ≡ self.now.start.items) }
        ensures shape { IfOk result (λ copy. copy.shape.items ≡ self.now.shape.items) }
    {
        Ok(ArraySubset {
            start: self.start.to_vec(alloc)?,
            shape: self.shape.to_vec(alloc)?,
        })
    }
}

/// Whether a box ends below 2^64 in each dimension.
fn ends_fit(start: &[u64], shape: &[u64]) -> bool
    requires { length shape.now ≡ length start.now }
    ensures { IsTrue result ↔ EndsFit start.now shape.now }
{
    for k in 0..start.len() {
        if shape[k] > u64::MAX - start[k] {
            return false;
        }
    }
    true
}
