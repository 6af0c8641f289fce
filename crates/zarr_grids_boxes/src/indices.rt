//! The walk over the places of a box.
ghost use Rattle.std.specs.Prelude.{◌≡◌, ◌↔◌, ◌+◌, ◌-◌, ◌*◌, ◌<◌, ◌≤◌, ◌^◌, ◌∷◌, [], List, ℕ, true, length, IsTrue, IfOk, MatchOption};
ghost use Rattle.std.specs.Iterator.{item_count};
ghost use Rattle.zarr_grids_boxes.specs.Boxes.{product, places, is_in_box, ravel, each2, EndsFit};

use crate::subset::ArraySubset;
use std::alloc::{AllocError, Global};

/// A walk over the places of a box, row-major: what it has left. Each item is allocated; where
/// memory runs out, the item is the error, and the walk goes on with the next place.
#[derive(Drop)]
pub struct Indices<'a> {
    subset: &'a ArraySubset,
    alloc: Global,
    next: Vec<u64>,
    more: bool,
    ghost within: { IsTrue more
        → is_in_box subset.now.start.items subset.now.shape.items next.items ≡ true },
}

impl ArraySubset {
    ghost use Rattle.zarr_grids_boxes.specs.Walks.{indices_left};

    /// The places of the box, row-major.
    pub fn indices(&self, alloc: Global) -> Result<Indices<'_>, AllocError>
        ensures { IfOk result
            (λ walk. indices_left walk ≡ places self.now.start.items self.now.shape.items) }
    {
        let next = self.start.to_vec(alloc)?;
        let more = !self.is_empty();
        Ok(Indices {
            subset: self,
            alloc,
            next,
            more,
        })
    }
}

impl<'a> Iterator for Indices<'a> {
    ghost use Rattle.zarr_grids_boxes.specs.Walks.{indices_left};

    type Item = Result<Vec<u64>, AllocError>;

    ghost next_gives = { λ old given new. MatchOption given
        ((indices_left old ≡ []) × (indices_left new ≡ []))
        (λ item. (place : List ℕ) × (indices_left old ≡ place ∷ indices_left new)
        × IfOk item (λ indices. indices.items ≡ place)) };

    ghost remaining = { item_count indices_left };

    fn next(&mut self) -> Option<Result<Vec<u64>, AllocError>> {
        if !self.more {
            return None;
        }
        let place = self.next.to_vec(self.alloc);
        self.go_on();
        Some(place)
    }
}

impl<'a> Indices<'a> {
    ghost use Rattle.zarr_grids_boxes.specs.Walks.{indices_left};

    /// Passes over the next place.
    fn go_on(&mut self)
        requires { IsTrue self.old.more }
        ensures { indices_left self.old ≡ self.old.next.items ∷ indices_left self.new }
    {
        self.more = step(&self.subset.start, &self.subset.shape, &mut self.next);
    }
}

/// Changes a place of a box to the next one, row-major. From the last place it goes back to the
/// first, and answers `false`.
pub fn step(start: &[u64], shape: &[u64], place: &mut Vec<u64>) -> bool
    requires fit { EndsFit start.now shape.now }
    requires within { is_in_box start.now shape.now place.old.items ≡ true }
    ensures within { is_in_box start.now shape.now place.new.items ≡ true }
    ensures next { IsTrue result
        → ravel (each2 (λ p s. p - s) place.new.items start.now) shape.now
        ≡ ravel (each2 (λ p s. p - s) place.old.items start.now) shape.now + 1 }
    ensures last { (¬ IsTrue result)
        → ravel (each2 (λ p s. p - s) place.old.items start.now) shape.now + 1
        ≡ product shape.now }
{
    for k in (0..start.len()).rev() {
        let at = place[k];
        if at - start[k] < shape[k] - 1 {
            place[k] = at + 1;
            return true;
        }
        place[k] = start[k];
    }
    false
}
