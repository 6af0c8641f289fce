//! Places that are asked for.
ghost use Rattle.std.specs.Prelude.{◌≡◌, ◌^◌, ◌<◌, ◌++◌, true, IfOk, OnOk, nat_lt, flat_map};
ghost use Rattle.std.specs.List.{list_all, range_with_len};
ghost use Rattle.zarr_grids_boxes.specs.Boxes.{product};
ghost use Rattle.zarr_grids_boxes.specs.Subsets.{region_of};
ghost use Rattle.zarr_codecs_traits.specs.Indexers.{are_inside, asked_of, shape_has, numbers_of, numbers_asked};
ghost use Rattle.zarr_codecs_regions.specs.Asking.{TestsAsked};
ghost use Rattle.zarr_codecs_regions.specs.BoxLines.{first_places};

use crate::inside::is_inside;
use crate::lines::first_places;
use crate::list::are_below;
use std::alloc::{AllocError, Global};
use zarr_codecs_arrays::CodecError;
use zarr_codecs_traits::Indexer;
use zarr_grids_boxes::ArraySubset;
use zarr_grids_boxes::walk::count_places;

/// Nothing, where all places that are asked for are those of an array of this shape.
/// `IncompatibleIndexer` where one is not, or where a box has more or fewer dimensions; `Size`
/// where places are asked for by their numbers and the array has 2^63 or more.
pub fn test_asked(shape: &[u64], indexer: Indexer<'_>) -> Result<(), CodecError>
    ensures { TestsAsked shape.now (asked_of indexer.entry) result }
{
    let inside = match indexer {
        Indexer::Subset(region) => is_inside(shape, region),
        Indexer::List(numbers) => match count_places(shape) {
            Some(count) => are_below(numbers, count),
            None => return Err(CodecError::Size),
        },
    };
    if inside {
        Ok(())
    } else {
        Err(CodecError::IncompatibleIndexer)
    }
}

/// The row-major numbers, in an array of this shape, of the places that are asked for, in their
/// order. Each place is one of the array. `Err` only where an allocation failed.
pub fn numbers_asked(
    alloc: Global,
    shape: &[u64],
    indexer: Indexer<'_>,
) -> Result<Vec<u64>, AllocError>
    requires inside { are_inside shape.now (asked_of indexer) ≡ true }
    requires small { product shape.now < 2 ^ 63 }
    ensures numbers { IfOk result
        (λ numbers. numbers.items ≡ numbers_asked shape.now (asked_of indexer.entry)) }
    ensures within { IfOk result
        (λ numbers. list_all (λ n. nat_lt n (product shape.now)) numbers.items ≡ true) }
{
    match indexer {
        Indexer::Subset(region) => box_numbers(alloc, shape, region),
        Indexer::List(numbers) => numbers.to_vec(alloc),
    }
}

/// The numbers of the places of a box, row-major.
fn box_numbers(alloc: Global, shape: &[u64], region: &ArraySubset) -> Result<Vec<u64>, AllocError>
    requires inside { shape_has shape.now (region_of region.now) ≡ true }
    requires small { product shape.now < 2 ^ 63 }
    ensures { IfOk result (λ numbers. numbers.items ≡ numbers_of shape.now (region_of region.now)) }
{
    if region.is_empty() {
        return Ok(Vec::new(alloc));
    }
    let firsts = first_numbers(alloc, shape, region)?;
    match region.shape().last() {
        Some(length) => numbers_of_lines(alloc, firsts.as_slice(), *length),
        None => Ok(firsts),
    }
}

/// The numbers of the first places of a box's lines, row-major. A line is along the last dimension.
fn first_numbers(alloc: Global, shape: &[u64], region: &ArraySubset) -> Result<Vec<u64>, AllocError>
    requires inside { shape_has shape.now (region_of region.now) ≡ true }
    requires small { product shape.now < 2 ^ 63 }
    requires some { 0 < product region.now.shape.items }
    ensures { IfOk result (λ numbers. numbers.items
        ≡ numbers_of shape.now (first_places (region_of region.now))) }
{
    let firsts = first_places(alloc, region)?;
    match firsts.linearised_indices(shape) {
        Ok(numbers) => numbers.collect(alloc),
        Err(_) => unreachable!(),
    }
}

/// The numbers of the places of lines, of so many places each, that begin at these numbers. `Err`
/// also where a number is too large.
fn numbers_of_lines(alloc: Global, firsts: &[u64], length: u64) -> Result<Vec<u64>, AllocError>
    ensures { IfOk result
        (λ numbers. numbers.items ≡ flat_map (λ n. range_with_len n length) firsts.now) }
{
    let Some(count) = firsts.len().checked_mul(length as usize) else {
        return Err(AllocError);
    };
    let mut numbers = Vec::with_capacity(alloc, count)?;
    for first in firsts {
        push_line(&mut numbers, *first, length)?;
    }
    Ok(numbers)
}

/// Appends the numbers from the first one on, so many.
fn push_line(numbers: &mut Vec<u64>, first: u64, length: u64) -> Result<(), AllocError>
    ensures { OnOk result
        (numbers.new.items ≡ numbers.old.items ++ range_with_len first length) }
{
    let Some(end) = first.checked_add(length) else {
        return Err(AllocError);
    };
    for number in first..end {
        numbers.push(number)?;
    }
    Ok(())
}
