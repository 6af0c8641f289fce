//! Numbers of elements.
ghost use Rattle.std.specs.Prelude.{◌≡◌, ◌<◌, map, length, IfOk};
ghost use Rattle.zarr_grids_boxes.specs.Boxes.{product, places};
ghost use Rattle.zarr_grids_boxes.specs.Subsets.{region_of};
ghost use Rattle.zarr_grids_boxes.specs.Walks.{linearised};
ghost use Rattle.zarr_array_meaning.specs.Chunks.{number_in};
ghost use Rattle.zarr_array_elements.specs.Boxes.{IsWithin};

use std::alloc::{AllocError, Global};
use zarr_codecs_regions::{numbers_asked, test_asked};
use zarr_codecs_traits::Indexer;
use zarr_grids_boxes::ArraySubset;
use zarr_grids_boxes::walk::count_places;

/// The numbers that the places of a box have in a box in which it lies, row-major.
pub(crate) fn numbers_in(
    alloc: Global,
    from: &ArraySubset,
    wanted: &ArraySubset,
) -> Result<Vec<u64>, AllocError>
    requires rank { length wanted.now.start.items ≡ length from.now.start.items }
    requires some { 0 < product wanted.now.shape.items }
    requires inside { IsWithin (region_of wanted.now) (region_of from.now) }
    ensures { IfOk result (λ numbers. numbers.items ≡ map (number_in (region_of from.now))
        (places wanted.now.start.items wanted.now.shape.items)) }
{
    let Ok(part) = wanted.relative_to(alloc, from.start()) else {
        return Err(AllocError);
    };
    box_numbers(alloc, from.shape(), &part)
}

/// The numbers that the places of a box have in an array of this shape, row-major.
fn box_numbers(alloc: Global, shape: &[u64], part: &ArraySubset) -> Result<Vec<u64>, AllocError>
    ensures { IfOk result
        (λ numbers. numbers.items ≡ linearised (region_of part.now) shape.now) }
{
    let asked = Indexer::Subset(part);
    if count_places(shape).is_none() || test_asked(shape, asked).is_err() {
        return Err(AllocError);
    }
    numbers_asked(alloc, shape, asked)
}
