//! Shapes that `reshape` gives to arrays.
ghost use Rattle.std.specs.Prelude.{◌≡◌, map, true};
ghost use Rattle.zarr_codecs_metadata.specs.ArrayCodecs.{is_new_shape};
ghost use Rattle.zarr_codecs_array_to_array.specs.Entries.{entry_of};

use crate::dimensions::{ReshapeDim, copied, is_new_shape};
use std::alloc::{AllocError, Global};

/// The shape that `reshape` gives to arrays: no size is 0, and at most one dimension is what is
/// left.
#[derive(Debug, Drop)]
pub struct ReshapeShape {
    dimensions: Vec<ReshapeDim>,
    ghost is_one: { is_new_shape (map entry_of dimensions.items) ≡ true },
}

impl ReshapeShape {
    ghost use Rattle.std.specs.Prelude.{◌≡◌, map, IfSome, IfNone, IfOk, false};
    ghost use Rattle.zarr_codecs_metadata.specs.ArrayCodecs.{is_new_shape};
    ghost use Rattle.zarr_codecs_array_to_array.specs.Entries.{entry_of};
    ghost use Rattle.zarr_codecs_array_to_array.specs.Views.{entries_of};

    /// The shape of these dimensions, or `None` where a size is 0, or where more than one dimension
    /// is what is left.
    pub fn new(dimensions: Vec<ReshapeDim>) -> Option<ReshapeShape>
        ensures some { IfSome result (λ shape. entries_of shape ≡ map entry_of dimensions.items) }
        ensures none { IfNone result (is_new_shape (map entry_of dimensions.items) ≡ false) }
    {
        if !is_new_shape(dimensions.as_slice()) {
            return None;
        }
        Some(ReshapeShape { dimensions })
    }

    /// The dimensions in their order.
    pub fn as_slice(&self) -> &[ReshapeDim]
        ensures { map entry_of result.now ≡ entries_of self.now }
    {
        self.dimensions.as_slice()
    }

    /// An equal shape. `Err` only where an allocation failed.
    pub fn try_clone(&self, alloc: Global) -> Result<ReshapeShape, AllocError>
        ensures { IfOk result (λ shape. entries_of shape ≡ entries_of self.now) }
    {
        let dimensions = copied(alloc, self.dimensions.as_slice())?;
        Ok(ReshapeShape { dimensions })
    }
}
