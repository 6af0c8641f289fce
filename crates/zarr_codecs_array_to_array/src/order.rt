//! Orders of dimensions.
ghost use Rattle.std.specs.Prelude.{◌≡◌, IfOk, true};
ghost use Rattle.zarr_codecs_meaning.specs.Fits.{is_permutation};

use crate::walks::inverse;
use std::alloc::{AllocError, Global};
use zarr_codecs_regions::are_below;

/// An order of dimensions: each number below its length, once.
#[derive(Debug, Drop)]
pub struct TransposeOrder {
    dimensions: Vec<u64>,
    ghost permutes: { is_permutation dimensions.items ≡ true },
}

impl TransposeOrder {
    ghost use Rattle.std.specs.Prelude.{◌≡◌, IfSome, IfNone, IfOk, false};
    ghost use Rattle.zarr_codecs_meaning.specs.Fits.{is_permutation};
    ghost use Rattle.zarr_codecs_array_to_array.specs.Views.{order_of};

    /// The order, or `None` where a dimension is missing or stands in it twice. `Err` only where an
    /// allocation failed.
    pub fn new(alloc: Global, dimensions: Vec<u64>) -> Result<Option<TransposeOrder>, AllocError>
        ensures some { IfOk result
            (λ found. IfSome found (λ order. order_of order ≡ dimensions.items)) }
        ensures none { IfOk result
            (λ found. IfNone found (is_permutation dimensions.items ≡ false)) }
    {
        if !is_permutation(alloc, dimensions.as_slice())? {
            return Ok(None);
        }
        Ok(Some(TransposeOrder { dimensions }))
    }

    /// The dimensions in their order.
    pub fn as_slice(&self) -> &[u64]
        ensures { result.now ≡ order_of self.now }
    {
        self.dimensions.as_slice()
    }

    /// An equal order. `Err` only where an allocation failed.
    pub fn try_clone(&self, alloc: Global) -> Result<TransposeOrder, AllocError>
        ensures { IfOk result (λ order. order_of order ≡ order_of self.now) }
    {
        let dimensions = self.dimensions.as_slice().to_vec(alloc)?;
        Ok(TransposeOrder { dimensions })
    }
}

/// Whether each number is below their count, and each number below it is one of them.
fn is_permutation(alloc: Global, order: &[u64]) -> Result<bool, AllocError>
    ensures { IfOk result (λ is. is ≡ is_permutation order.now) }
{
    let count = order.len() as u64;
    if !are_below(order, count) {
        return Ok(false);
    }
    let positions = inverse(alloc, order)?;
    Ok(are_below(positions.as_slice(), count))
}
