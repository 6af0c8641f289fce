//! Numbers of indices, row-major.
ghost use Rattle.std.specs.Prelude.{◌≡◌, ◌↔◌, ◌+◌, ◌*◌, ◌<◌, ◌≤◌, ◌^◌, length, IsTrue, IfOk, MatchOption};
ghost use Rattle.std.specs.Option.{SomeIff};
ghost use Rattle.zarr_grids_boxes.specs.Boxes.{product, ravel, IsIndex};
ghost use Rattle.zarr_grids_boxes.specs.Walks.{unravel};

use crate::shapes::ArrayIndices;
use crate::walk::has_no_place;
use std::alloc::{AllocError, Global};

/// The number of an index in an array of this shape, row-major. `None` where the index is outside
/// the array, or the number is 2^64 or more.
pub fn ravel_indices(indices: &[u64], shape: &[u64]) -> Option<u64>
    ensures { SomeIff result
        (IsIndex indices.now shape.now × (ravel indices.now shape.now < 2 ^ 64))
        (ravel indices.now shape.now) }
{
    if !is_index(indices, shape) {
        return None;
    }
    ravel_below(indices, shape)
}

/// Whether the index lies in an array of this shape.
fn is_index(indices: &[u64], shape: &[u64]) -> bool
    ensures { IsTrue result ↔ IsIndex indices.now shape.now }
{
    if indices.len() != shape.len() {
        return false;
    }
    for k in 0..shape.len() {
        if indices[k] >= shape[k] {
            return false;
        }
    }
    true
}

/// The number of an index in an array of this shape, if that is below 2^64.
fn ravel_below(indices: &[u64], shape: &[u64]) -> Option<u64>
    requires { IsIndex indices.now shape.now }
    ensures { SomeIff result (ravel indices.now shape.now < 2 ^ 64) (ravel indices.now shape.now) }
{
    let mut number: u64 = 0;
    for k in 0..shape.len() {
        match with_digit(number, shape[k], indices[k]) {
            Some(next) => number = next,
            None => return None,
        }
    }
    Some(number)
}

/// The number with one digit more, if that is below 2^64.
fn with_digit(number: u64, size: u64, digit: u64) -> Option<u64>
    ensures { SomeIff result (number * size + digit < 2 ^ 64) (number * size + digit) }
{
    match number.checked_mul(size) {
        Some(next) => next.checked_add(digit),
        None => None,
    }
}

/// The index that has this number in an array of this shape, row-major. `None` where the array has
/// no such number.
pub fn unravel_index(
    alloc: Global,
    index: u64,
    shape: &[u64],
) -> Result<Option<ArrayIndices>, AllocError>
    ensures { IfOk result (λ found. MatchOption found (product shape.now ≤ index)
        (λ indices. (index < product shape.now) × (indices.items ≡ unravel shape.now index))) }
{
    if has_no_place(shape) {
        return Ok(None);
    }
    let mut indices = vec![in alloc; 0u64; shape.len()]?;
    let mut rest = index;
    for k in (0..shape.len()).rev() {
        indices[k] = rest % shape[k];
        rest /= shape[k];
    }
    if rest != 0 {
        return Ok(None);
    }
    Ok(Some(indices))
}
