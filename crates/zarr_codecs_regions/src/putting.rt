//! Elements put over those of an array.
ghost use Rattle.std.specs.Prelude.{◌≡◌, ◌+◌, ◌^◌, ◌<◌, List, Some, true, length, nat_lt, IfOk};
ghost use Rattle.std.specs.List.{list_all, range_with_len};
ghost use Rattle.zarr_grids_boxes.specs.Boxes.{product};
ghost use Rattle.zarr_grids_boxes.specs.Subsets.{region_of};
ghost use Rattle.zarr_codecs_meaning.specs.Payloads.{cells_in, fixed, variable};
ghost use Rattle.zarr_codecs_meaning.specs.Types.{Cell};
ghost use Rattle.zarr_codecs_types.specs.Views.{type_of};
ghost use Rattle.zarr_codecs_arrays.specs.Outcomes.{IsCounted};
ghost use Rattle.zarr_codecs_arrays.specs.Views.{payload_of};
ghost use Rattle.zarr_codecs_traits.specs.Indexers.{are_inside, asked_of, shape_has, numbers_asked, numbers_of};
ghost use Rattle.zarr_codecs_regions.specs.Taken.{ArePieces, pieces_at};
ghost use Rattle.zarr_codecs_regions.specs.Updates.{put};

use crate::gather::{gather, masked};
use crate::merging::{Both, merge_box};
use crate::stretches::{put_box, put_fixed};
use crate::taken::Pieces;
use std::alloc::{AllocError, Global};
use zarr_codecs_arrays::{ArrayBytes, concat_elements};
use zarr_codecs_traits::Indexer;
use zarr_codecs_types::DataType;
use zarr_grids_boxes::ArraySubset;
use zarr_grids_boxes::walk::count_places;

/// The elements of an array after new ones were put at the places that are asked for, in their
/// order: where a place is asked for twice, the last one stays. `bytes` has the elements of the
/// array, row-major, `shape` says how many there are in each dimension, and `update` has an element
/// for each place. Those of a box are copied line by line, without a number for each. `Err` only
/// where an allocation failed, or where these are no such elements.
pub fn put_asked(
    alloc: Global,
    bytes: ArrayBytes,
    shape: &[u64],
    indexer: Indexer<'_>,
    update: &ArrayBytes,
    data_type: &DataType,
) -> Result<ArrayBytes, AllocError>
    requires inside { are_inside shape.now (asked_of indexer) ≡ true }
    requires small { product shape.now < 2 ^ 63 }
    ensures { (before given : List Cell)
        → IsCounted (type_of data_type.now) (payload_of bytes) (product shape.now) before
        → IsCounted (type_of data_type.now) (payload_of update.now)
        (length (numbers_asked shape.now (asked_of indexer.entry))) given
        → IfOk result (λ made. cells_in (type_of data_type.now) (payload_of made)
        ≡ Some (put (numbers_asked shape.now (asked_of indexer.entry)) given before)) }
{
    match indexer {
        Indexer::Subset(region) => put_in_box(alloc, bytes, shape, region, update, data_type),
        Indexer::List(numbers) => {
            let Some(count) = count_places(shape) else {
                return Err(AllocError);
            };
            put_elements(alloc, bytes, count, numbers, update, data_type)
        }
    }
}

/// The elements of an array after new ones, one for each, were put at the places of a box of it.
fn put_in_box(
    alloc: Global,
    bytes: ArrayBytes,
    shape: &[u64],
    region: &ArraySubset,
    update: &ArrayBytes,
    data_type: &DataType,
) -> Result<ArrayBytes, AllocError>
    requires inside { shape_has shape.now (region_of region.now) ≡ true }
    requires small { product shape.now < 2 ^ 63 }
    ensures { (before given : List Cell)
        → cells_in (type_of data_type.now) (payload_of bytes) ≡ Some before
        → length before ≡ product shape.now
        → cells_in (type_of data_type.now) (payload_of update.now) ≡ Some given
        → length given ≡ length (numbers_of shape.now (region_of region.now))
        → IfOk result (λ made. cells_in (type_of data_type.now) (payload_of made)
        ≡ Some (put (numbers_of shape.now (region_of region.now)) given before)) }
{
    match bytes {
        ArrayBytes::Fixed(bytes) => match update {
            ArrayBytes::Fixed(given) => {
                let made = put_fixed(alloc, bytes, shape, given.as_slice(), region, data_type)?;
                Ok(ArrayBytes::Fixed(made))
            }
            _ => Err(AllocError),
        },
        ArrayBytes::Variable(bytes, offsets) => match update {
            ArrayBytes::Variable(given, ends) => {
                let old = Pieces {
                    bytes: bytes.as_slice(),
                    offsets: &offsets,
                };
                let given = Pieces {
                    bytes: given.as_slice(),
                    offsets: ends,
                };
                put_pieces(alloc, old, shape, given, region)
            }
            _ => Err(AllocError),
        },
        ArrayBytes::Optional(inner, mask) => match update {
            ArrayBytes::Optional(given, marks) => match data_type {
                DataType::Optional(of_type) => {
                    let inner = Box::into_inner(inner);
                    let made = put_in_box(alloc, inner, shape, region, given, of_type)?;
                    let mask = put_mask(alloc, mask, shape, marks.as_slice(), region)?;
                    masked(alloc, made, mask)
                }
                _ => Err(AllocError),
            },
            _ => Err(AllocError),
        },
    }
}

/// The elements of variable length of an array after new ones, one for each, were put at the places
/// of a box of it.
fn put_pieces(
    alloc: Global,
    old: Pieces<'_>,
    shape: &[u64],
    given: Pieces<'_>,
    region: &ArraySubset,
) -> Result<ArrayBytes, AllocError>
    requires inside { shape_has shape.now (region_of region.now) ≡ true }
    requires small { product shape.now < 2 ^ 63 }
    ensures { IfOk result (ArePieces (put (numbers_of shape.now (region_of region.now))
        (pieces_at given.entry
        (range_with_len 0 (length (numbers_of shape.now (region_of region.now)))))
        (pieces_at old.entry (range_with_len 0 (product shape.now))))) }
{
    let Some(count) = count_places(shape) else {
        return Err(AllocError);
    };
    merge_box(alloc, Both { old, given, count }, shape, region)
}

/// The numbers of a mask after others, one for each, were put at the places of a box of an array.
fn put_mask(
    alloc: Global,
    mask: Vec<u8>,
    shape: &[u64],
    marks: &[u8],
    region: &ArraySubset,
) -> Result<Vec<u8>, AllocError>
    requires inside { shape_has shape.now (region_of region.now) ≡ true }
    ensures { IfOk result (λ made. made.items
        ≡ put (numbers_of shape.now (region_of region.now)) marks.now mask.items) }
{
    match (count_places(shape), count_places(region.shape())) {
        (Some(count), Some(asked)) if mask.len() as u64 == count && marks.len() as u64 == asked => {
            put_box(alloc, mask, shape, marks, region, 1)
        }
        _ => Err(AllocError),
    }
}

/// The elements of an array of so many after new ones were put at the places with these numbers.
fn put_elements(
    alloc: Global,
    bytes: ArrayBytes,
    count: u64,
    numbers: &[u64],
    update: &ArrayBytes,
    data_type: &DataType,
) -> Result<ArrayBytes, AllocError>
    requires inside { list_all (λ n. nat_lt n count) numbers.now ≡ true }
    requires small { count < 2 ^ 63 }
    ensures { (before given : List Cell)
        → cells_in (type_of data_type.now) (payload_of bytes) ≡ Some before
        → length before ≡ count
        → cells_in (type_of data_type.now) (payload_of update.now) ≡ Some given
        → length given ≡ length numbers.now
        → IfOk result (λ made. cells_in (type_of data_type.now) (payload_of made)
        ≡ Some (put numbers.now given before)) }
{
    let sources = put_numbers(alloc, count, numbers)?;
    let joined = concat_elements(alloc, bytes, update, data_type)?;
    gather(alloc, &joined, data_type, sources.as_slice())
}

/// The numbers below a count, after those from it on were put at the places with these numbers.
fn put_numbers(alloc: Global, count: u64, numbers: &[u64]) -> Result<Vec<u64>, AllocError>
    requires inside { list_all (λ n. nat_lt n count) numbers.now ≡ true }
    requires small { count < 2 ^ 63 }
    ensures { IfOk result (λ v. v.items ≡ put numbers.now
        (range_with_len count (length numbers.now)) (range_with_len 0 count)) }
{
    let mut sources = numbers_below(alloc, count)?;
    let mut next = count;
    for number in numbers {
        sources[*number as usize] = next;
        next += 1;
    }
    Ok(sources)
}

/// The numbers below a count, in order.
fn numbers_below(alloc: Global, count: u64) -> Result<Vec<u64>, AllocError>
    ensures { IfOk result (λ v. v.items ≡ range_with_len 0 count) }
{
    let mut numbers = Vec::with_capacity(alloc, count as usize)?;
    for number in 0..count {
        numbers.push(number)?;
    }
    Ok(numbers)
}
