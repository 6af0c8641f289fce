//! Elements taken out of an array.
ghost use Rattle.std.specs.Prelude.{◌≡◌, ◌^◌, ◌<◌, List, Some, true, length, map, nat_lt, slice_index, IfOk};
ghost use Rattle.std.specs.List.{list_all};
ghost use Rattle.zarr_grids_boxes.specs.Boxes.{product};
ghost use Rattle.zarr_grids_boxes.specs.Cuts.{ends, IsAtMost};
ghost use Rattle.zarr_grids_boxes.specs.Subsets.{region_of};
ghost use Rattle.zarr_codecs_meaning.specs.Payloads.{cells_in, fixed};
ghost use Rattle.zarr_codecs_meaning.specs.Places.{gather};
ghost use Rattle.zarr_codecs_meaning.specs.Types.{Cell};
ghost use Rattle.zarr_codecs_types.specs.Views.{type_of};
ghost use Rattle.zarr_codecs_arrays.specs.Outcomes.{IsCounted};
ghost use Rattle.zarr_codecs_arrays.specs.Views.{payload_of};
ghost use Rattle.zarr_codecs_traits.specs.Indexers.{are_inside, asked_of, shape_has, numbers_asked, numbers_of};
ghost use Rattle.zarr_codecs_regions.specs.BoxLines.{line_numbers};
ghost use Rattle.zarr_codecs_regions.specs.Taken.{ArePieces, pieces_at};

use crate::extract::extract_box;
use crate::gather::{gather, masked};
use crate::lines::{Lines, lines_of};
use crate::stretches::whole_width;
use crate::taken::{Pieces, Taken};
use std::alloc::{AllocError, Global};
use zarr_codecs_arrays::ArrayBytes;
use zarr_codecs_traits::Indexer;
use zarr_codecs_types::DataType;
use zarr_grids_boxes::ArraySubset;
use zarr_grids_boxes::walk::count_places;

/// The elements at the places of an array that are asked for, in their order. `bytes` has the
/// elements of the array, row-major, and `shape` says how many there are in each dimension. Those
/// of a box are copied line by line, without a number for each. `Err` only where an allocation
/// failed, or where these are no such elements.
pub fn take_asked(
    alloc: Global,
    bytes: &ArrayBytes,
    shape: &[u64],
    indexer: Indexer<'_>,
    data_type: &DataType,
) -> Result<ArrayBytes, AllocError>
    requires inside { are_inside shape.now (asked_of indexer) ≡ true }
    requires small { product shape.now < 2 ^ 63 }
    ensures { (cells : List Cell) (other : Cell)
        → IsCounted (type_of data_type.now) (payload_of bytes.now) (product shape.now) cells
        → IfOk result (λ made. cells_in (type_of data_type.now) (payload_of made)
        ≡ Some (gather other cells (numbers_asked shape.now (asked_of indexer.entry)))) }
{
    match indexer {
        Indexer::Subset(region) => take_box(alloc, bytes, shape, region, data_type),
        Indexer::List(numbers) => gather(alloc, bytes, data_type, numbers),
    }
}

/// The elements at the places of a box of an array.
fn take_box(
    alloc: Global,
    bytes: &ArrayBytes,
    shape: &[u64],
    region: &ArraySubset,
    data_type: &DataType,
) -> Result<ArrayBytes, AllocError>
    requires inside { shape_has shape.now (region_of region.now) ≡ true }
    requires small { product shape.now < 2 ^ 63 }
    ensures { (cells : List Cell) (other : Cell)
        → cells_in (type_of data_type.now) (payload_of bytes.now) ≡ Some cells
        → list_all (λ n. nat_lt n (length cells)) (numbers_of shape.now (region_of region.now))
        ≡ true → IfOk result (λ made. cells_in (type_of data_type.now) (payload_of made)
        ≡ Some (gather other cells (numbers_of shape.now (region_of region.now)))) }
{
    match bytes {
        ArrayBytes::Fixed(bytes) => {
            take_fixed(alloc, bytes.as_slice(), shape, region, data_type)
        }
        ArrayBytes::Variable(bytes, offsets) => {
            let from = Pieces {
                bytes: bytes.as_slice(),
                offsets,
            };
            take_pieces(alloc, from, shape, region)
        }
        ArrayBytes::Optional(inner, mask) => match data_type {
            DataType::Optional(of_type) => {
                let taken = take_box(alloc, inner, shape, region, of_type)?;
                let mask = take_mask(alloc, mask.as_slice(), shape, region)?;
                masked(alloc, taken, mask)
            }
            _ => Err(AllocError),
        },
    }
}

/// The elements of one size at the places of a box of an array.
fn take_fixed(
    alloc: Global,
    bytes: &[u8],
    shape: &[u64],
    region: &ArraySubset,
    data_type: &DataType,
) -> Result<ArrayBytes, AllocError>
    requires inside { shape_has shape.now (region_of region.now) ≡ true }
    ensures { (cells : List Cell) (other : Cell)
        → cells_in (type_of data_type.now) (fixed bytes.now) ≡ Some cells
        → IfOk result (λ made. cells_in (type_of data_type.now) (payload_of made)
        ≡ Some (gather other cells (numbers_of shape.now (region_of region.now)))) }
{
    let Some(width) = whole_width(bytes.len(), data_type, shape) else {
        return Err(AllocError);
    };
    let taken = extract_box(alloc, bytes, shape, region, width)?;
    Ok(ArrayBytes::Fixed(taken))
}

/// The numbers of a mask that stand at the places of a box of an array.
fn take_mask(
    alloc: Global,
    mask: &[u8],
    shape: &[u64],
    region: &ArraySubset,
) -> Result<Vec<u8>, AllocError>
    requires inside { shape_has shape.now (region_of region.now) ≡ true }
    ensures { IfOk result (λ taken.
        taken.items ≡ map (slice_index mask.now) (numbers_of shape.now (region_of region.now))) }
{
    match count_places(shape) {
        Some(count) if mask.len() as u64 == count => extract_box(alloc, mask, shape, region, 1),
        _ => Err(AllocError),
    }
}

/// The elements of variable length at the places of a box of an array.
fn take_pieces(
    alloc: Global,
    from: Pieces<'_>,
    shape: &[u64],
    region: &ArraySubset,
) -> Result<ArrayBytes, AllocError>
    requires inside { shape_has shape.now (region_of region.now) ≡ true }
    requires small { product shape.now < 2 ^ 63 }
    ensures { IfOk result
        (ArePieces (pieces_at from.entry (numbers_of shape.now (region_of region.now)))) }
{
    if region.is_empty() {
        return Taken::new(alloc)?.finish();
    }
    let lines = lines_of(alloc, shape, region)?;
    take_lines(alloc, from, shape, &lines)
}

/// The elements of variable length at the places of lines of an array.
fn take_lines(
    alloc: Global,
    from: Pieces<'_>,
    shape: &[u64],
    lines: &Lines,
) -> Result<ArrayBytes, AllocError>
    requires within { IsAtMost (ends (region_of lines.now.firsts)) shape.now }
    requires small { product shape.now < 2 ^ 63 }
    ensures { IfOk result (ArePieces (pieces_at from.entry
        (line_numbers lines.now.length (numbers_of shape.now (region_of lines.now.firsts))))) }
{
    let mut taken = Taken::new(alloc)?;
    for first in lines.firsts.linearised_indices(shape).unwrap() {
        taken.push_stretch(from, first, lines.length)?;
    }
    taken.finish()
}
