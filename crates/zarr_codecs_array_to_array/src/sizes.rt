//! The sizes of the shape that `reshape` gives to an array. Products of sizes are counted up to
//! 2^128 - 1, which stands for all that are larger.
ghost use Rattle.std.specs.Prelude.{◌≡◌, ◌*◌, ◌/◌, ◌^◌, map, slice_index, nat_lt, true, IfOk};
ghost use Rattle.std.specs.List.{list_all};
ghost use Rattle.zarr_grids_boxes.specs.Boxes.{product};
ghost use Rattle.zarr_codecs_meaning.specs.Fits.{array_codec_fits, entry_fits};
ghost use Rattle.zarr_codecs_array_to_array.specs.Sizes.{IsLeft, capped, size_or};
ghost use Rattle.zarr_codecs_array_to_array.specs.Entries.{entry_of};

use crate::dimensions::ReshapeDim;
use std::alloc::{AllocError, Global};
use zarr_codecs_regions::are_below;
use zarr_grids_boxes::walk::count_places;

/// The size of the dimension that is left over, where `reshape` to these dimensions suits arrays of
/// this shape. Where no dimension is left over it is of no use.
pub(crate) fn left_size(dimensions: &[ReshapeDim], shape: &[u64]) -> Option<u128>
    ensures { IsLeft (map entry_of dimensions.now) shape.now result }
{
    let count = count_places(shape)? as u128;
    let known = product_of(dimensions, shape, 1);
    if !fit_all(dimensions, shape.len() as u64, known) {
        return None;
    }
    let left = divided(count, known);
    if product_of(dimensions, shape, left) == count && are_sizes(dimensions, shape, left) {
        Some(left)
    } else {
        None
    }
}

/// How often a number goes into another one: 0 times where it is 0.
fn divided(count: u128, known: u128) -> u128
    ensures { result ≡ count / known }
{
    if known == 0 { 0 } else { count / known }
}

/// The product of the sizes of dimensions, where one that is left over has this size.
fn product_of(dimensions: &[ReshapeDim], shape: &[u64], left: u128) -> u128
    ensures { result
        ≡ capped (product (map (size_or left shape.now) (map entry_of dimensions.now))) }
{
    let mut product: u128 = 1;
    for dimension in dimensions {
        product = product.saturating_mul(size_of(dimension, shape, left));
    }
    product
}

/// The size of a dimension. One that is left over has this size.
fn size_of(dimension: &ReshapeDim, shape: &[u64], left: u128) -> u128
    ensures { result ≡ capped (size_or left shape.now (entry_of dimension.now)) }
{
    match dimension {
        ReshapeDim::Size(size) => *size as u128,
        ReshapeDim::InputDims(named) => named_product(named.as_slice(), shape),
        ReshapeDim::Auto => left,
    }
}

/// The product of the sizes of the dimensions of a shape that are named.
fn named_product(named: &[u64], shape: &[u64]) -> u128
    ensures { result ≡ capped (product (map (slice_index shape.now) named.now)) }
{
    let mut product: u128 = 1;
    for dimension in named {
        product = product.saturating_mul(size_at(shape, *dimension) as u128);
    }
    product
}

/// The size of a dimension of a shape, or 0 where there is no such dimension.
fn size_at(shape: &[u64], dimension: u64) -> u64
    ensures { result ≡ slice_index shape.now dimension }
{
    match shape.get(dimension as usize) {
        Some(size) => *size,
        None => 0,
    }
}

/// Whether the dimensions that are named are there, and what is left over comes from a division.
fn fit_all(dimensions: &[ReshapeDim], rank: u64, known: u128) -> bool
    ensures { result ≡ list_all (entry_fits known rank) (map entry_of dimensions.now) }
{
    for dimension in dimensions {
        if !fits_dimension(dimension, rank, known) {
            return false;
        }
    }
    true
}

fn fits_dimension(dimension: &ReshapeDim, rank: u64, known: u128) -> bool
    ensures { result ≡ entry_fits known rank (entry_of dimension.now) }
{
    match dimension {
        ReshapeDim::Size(_) => true,
        ReshapeDim::InputDims(named) => are_below(named.as_slice(), rank),
        ReshapeDim::Auto => 0 < known,
    }
}

/// Whether each size is below 2^64.
fn are_sizes(dimensions: &[ReshapeDim], shape: &[u64], left: u128) -> bool
    ensures { result ≡ list_all (λ size. nat_lt size (2 ^ 64))
        (map (size_or left shape.now) (map entry_of dimensions.now)) }
{
    for dimension in dimensions {
        if size_of(dimension, shape, left) >= 1 << 64 {
            return false;
        }
    }
    true
}

/// The sizes of dimensions, where one that is left over has this size.
pub(crate) fn sizes(
    alloc: Global,
    dimensions: &[ReshapeDim],
    shape: &[u64],
    left: u128,
) -> Result<Vec<u64>, AllocError>
    requires { list_all (λ size. nat_lt size (2 ^ 64))
        (map (size_or left shape.now) (map entry_of dimensions.now)) ≡ true }
    ensures { IfOk result
        (λ v. v.items ≡ map (size_or left shape.now) (map entry_of dimensions.now)) }
{
    let mut sizes = Vec::with_capacity(alloc, dimensions.len())?;
    for dimension in dimensions {
        sizes.push(size_of(dimension, shape, left) as u64)?;
    }
    Ok(sizes)
}
