//! The walk over the numbers, in an array, of the places of a box.
ghost use Rattle.std.specs.Prelude.{◌≡◌, ◌↔◌, ◌+◌, ◌*◌, ◌<◌, ◌≤◌, ◌^◌, ◌∷◌, [], length, IsTrue, IfOk, IsOk, MatchOption};
ghost use Rattle.std.specs.Iterator.{item_count, YieldsFirst};
ghost use Rattle.zarr_grids_boxes.specs.Boxes.{product, place_at, ravel, each2};
ghost use Rattle.zarr_grids_boxes.specs.Cuts.{ends, IsAtMost};
ghost use Rattle.zarr_grids_boxes.specs.Subsets.{region_of};

use crate::shapes::count_elements;
use crate::subset::{ArraySubset, ArraySubsetError};

/// A walk over the numbers, in an array, of the places of a box, row-major: what it has left. It
/// allocates nothing.
#[derive(Drop)]
pub struct LinearisedIndices<'a> {
    subset: &'a ArraySubset,
    array_shape: &'a [u64],
    next: u64,
    count: u64,
    ghost within: { IsAtMost (ends (region_of subset.now)) array_shape.now },
    ghost small: { product array_shape.now < 2 ^ 64 },
    ghost counted: { count ≡ product subset.now.shape.items },
}

impl ArraySubset {
    ghost use Rattle.zarr_grids_boxes.specs.Walks.{linearised, linearised_left};

    /// The numbers, in an array of this shape, of the places of the box, row-major.
    pub fn linearised_indices<'a>(
        &'a self,
        array_shape: &'a [u64],
    ) -> Result<LinearisedIndices<'a>, ArraySubsetError>
        ensures made { IfOk result
            (λ walk. linearised_left walk ≡ linearised (region_of self.now) array_shape.now) }
        ensures differ { (result ≡ Err ArraySubsetError.LengthsDiffer)
            ↔ (¬ (length array_shape.now ≡ length self.now.start.items)) }
        ensures outside { (result ≡ Err ArraySubsetError.NotInbounds)
            ↔ ((length array_shape.now ≡ length self.now.start.items)
            × (¬ IsAtMost (ends (region_of self.now)) array_shape.now)) }
        ensures size { (result ≡ Err ArraySubsetError.Size)
            ↔ (IsAtMost (ends (region_of self.now)) array_shape.now
            × (2 ^ 64 ≤ product array_shape.now)) }
        ensures others { IsAtMost (ends (region_of self.now)) array_shape.now
            → product array_shape.now < 2 ^ 64 → IsOk result }
    {
        if !self.inbounds_shape(array_shape) {
            return Err(if array_shape.len() == self.start.len() {
                ArraySubsetError::NotInbounds
            } else {
                ArraySubsetError::LengthsDiffer
            });
        }
        match LinearisedIndices::new(self, array_shape) {
            Some(walk) => Ok(walk),
            None => Err(ArraySubsetError::Size),
        }
    }
}

impl<'a> Iterator for LinearisedIndices<'a> {
    ghost use Rattle.zarr_grids_boxes.specs.Walks.{linearised_left};

    type Item = u64;

    ghost next_gives = { YieldsFirst linearised_left };

    ghost remaining = { item_count linearised_left };

    fn next(&mut self) -> Option<u64> {
        if self.is_done() {
            return None;
        }
        Some(self.take_number())
    }
}

impl<'a> LinearisedIndices<'a> {
    ghost use Rattle.zarr_grids_boxes.specs.Walks.{linearised, linearised_left};

    /// The walk over a box inside an array, if the array has less than 2^64 elements.
    fn new(subset: &'a ArraySubset, array_shape: &'a [u64]) -> Option<LinearisedIndices<'a>>
        requires { IsAtMost (ends (region_of subset.now)) array_shape.now }
        ensures { MatchOption result (2 ^ 64 ≤ product array_shape.now)
            (λ walk. (product array_shape.now < 2 ^ 64)
            × (linearised_left walk ≡ linearised (region_of subset.now) array_shape.now)) }
    {
        let Some(_) = count_elements(array_shape) else {
            return None;
        };
        match count_elements(&subset.shape) {
            Some(count) => Some(LinearisedIndices {
                subset,
                array_shape,
                next: 0,
                count,
            }),
            None => None,
        }
    }

    /// Whether no number is left.
    fn is_done(&self) -> bool
        ensures done { IsTrue result → linearised_left self.now ≡ [] }
        ensures more { (¬ IsTrue result) → self.now.next < self.now.count }
    {
        self.next >= self.count
    }

    /// The next number.
    fn take_number(&mut self) -> u64
        requires { self.old.next < self.old.count }
        ensures { linearised_left self.old ≡ result ∷ linearised_left self.new }
    {
        let n = self.next;
        self.next += 1;
        number_at(
            &self.subset.start,
            &self.subset.shape,
            self.array_shape,
            self.count,
            n,
        )
    }
}

/// The number, in an array, of the place with number `n` of a box with `count` places.
fn number_at(start: &[u64], shape: &[u64], array_shape: &[u64], count: u64, n: u64) -> u64
    requires same { length shape.now ≡ length start.now }
    requires within { IsAtMost (each2 (λ s e. s + e) start.now shape.now) array_shape.now }
    requires small { product array_shape.now < 2 ^ 64 }
    requires count { count ≡ product shape.now }
    requires below { n < product shape.now }
    ensures { result ≡ ravel (place_at start.now shape.now n) array_shape.now }
{
    let mut inner = count;
    let mut rest = n;
    let mut number: u64 = 0;
    for k in 0..start.len() {
        inner /= shape[k];
        number = number * array_shape[k] + (start[k] + rest / inner);
        rest %= inner;
    }
    number
}
