//! Dimensions of shapes that `reshape` gives to arrays.
ghost use Rattle.std.specs.Prelude.{◌≡◌, map, length, nat_le, IfOk};
ghost use Rattle.std.specs.List.{filter, list_any};
ghost use Rattle.zarr_codecs_metadata.specs.ArrayCodecs.{is_left_over, is_new_shape, is_zero_size};
ghost use Rattle.zarr_codecs_array_to_array.specs.Entries.{entry_of};

use std::alloc::{AllocError, Global};

/// One dimension of a new shape.
#[derive(Debug, Drop)]
pub enum ReshapeDim {
    /// So many elements.
    Size(u64),
    /// As many elements as these dimensions of the array have together.
    InputDims(Vec<u64>),
    /// What is left: the count of elements divided by the sizes of the other dimensions.
    Auto,
}

impl ReshapeDim {
    ghost use Rattle.std.specs.Prelude.{◌≡◌, IfOk};
    ghost use Rattle.zarr_codecs_metadata.specs.ArrayCodecs.{is_left_over, is_zero_size};
    ghost use Rattle.zarr_codecs_array_to_array.specs.Entries.{entry_of};

    /// An equal dimension. `Err` only where an allocation failed.
    pub fn try_clone(&self, alloc: Global) -> Result<ReshapeDim, AllocError>
        ensures { IfOk result (λ copy. entry_of copy ≡ entry_of self.now) }
    {
        match self {
            ReshapeDim::Size(size) => Ok(ReshapeDim::Size(*size)),
            ReshapeDim::InputDims(dimensions) => {
                let copy = dimensions.as_slice().to_vec(alloc)?;
                Ok(ReshapeDim::InputDims(copy))
            }
            ReshapeDim::Auto => Ok(ReshapeDim::Auto),
        }
    }

    fn is_zero(&self) -> bool
        ensures { result ≡ is_zero_size (entry_of self.now) }
    {
        match self {
            ReshapeDim::Size(size) => *size == 0,
            ReshapeDim::InputDims(_) => false,
            ReshapeDim::Auto => false,
        }
    }

    fn is_auto(&self) -> bool
        ensures { result ≡ is_left_over (entry_of self.now) }
    {
        match self {
            ReshapeDim::Size(_) => false,
            ReshapeDim::InputDims(_) => false,
            ReshapeDim::Auto => true,
        }
    }
}

/// Equal dimensions.
pub(crate) fn copied(
    alloc: Global,
    dimensions: &[ReshapeDim],
) -> Result<Vec<ReshapeDim>, AllocError>
    ensures { IfOk result (λ v. map entry_of v.items ≡ map entry_of dimensions.now) }
{
    let mut copies = Vec::with_capacity(alloc, dimensions.len())?;
    for dimension in dimensions {
        copies.push(dimension.try_clone(alloc)?)?;
    }
    Ok(copies)
}

pub(crate) fn is_new_shape(dimensions: &[ReshapeDim]) -> bool
    ensures { result ≡ is_new_shape (map entry_of dimensions.now) }
{
    !has_zero(dimensions) && leaves_one(dimensions)
}

fn has_zero(dimensions: &[ReshapeDim]) -> bool
    ensures { result ≡ list_any is_zero_size (map entry_of dimensions.now) }
{
    for dimension in dimensions {
        if dimension.is_zero() {
            return true;
        }
    }
    false
}

/// Whether at most one dimension is what is left.
fn leaves_one(dimensions: &[ReshapeDim]) -> bool
    ensures { result
        ≡ nat_le (length (filter is_left_over (map entry_of dimensions.now))) 1 }
{
    let mut found = false;
    for dimension in dimensions {
        if dimension.is_auto() {
            if found {
                return false;
            }
            found = true;
        }
    }
    true
}
