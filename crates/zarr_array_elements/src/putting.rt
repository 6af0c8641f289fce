//! Elements of one box put over those of another.
ghost use Rattle.std.specs.Prelude.{◌≡◌, ◌<◌, ◌*◌, ◌^◌, ℕ, length, true, IfOk};
ghost use Rattle.zarr_grids_boxes.specs.Boxes.{product, share_place};
ghost use Rattle.zarr_grids_boxes.specs.Subsets.{region_of};
ghost use Rattle.zarr_grids_overlay.specs.Overlays.{IsOverlaid};
ghost use Rattle.zarr_codecs_meaning.specs.Types.{IsTooLarge};
ghost use Rattle.zarr_codecs_arrays.specs.Views.{payload_of, elements_of};
ghost use Rattle.zarr_array_elements.specs.Boxes.{cells_of, AreOfBox, ArePutOver, cells_at, IsWithin};

use crate::cutting::{element_width, take_out};
use crate::numbers::numbers_in;
use std::alloc::{AllocError, Global};
use zarr_codecs_arrays::{ArrayBytes, Elements};
use zarr_codecs_regions::update_array_bytes;
use zarr_codecs_traits::Indexer;
use zarr_grids_boxes::ArraySubset;
use zarr_grids_overlay::{Extent, overlay};

/// The elements of a box after those of a box `from`, which shares a place with it, were put over
/// them. Elements of one size are copied row by row, in place. `Err` only where an allocation
/// failed.
pub fn put_over(
    alloc: Global,
    before: ArrayBytes,
    region: &ArraySubset,
    given: &ArrayBytes,
    from: &ArraySubset,
    elements: &Elements,
) -> Result<ArrayBytes, AllocError>
    requires before { AreOfBox (elements_of elements.now).type (payload_of before)
        (region_of region.now) }
    requires given { AreOfBox (elements_of elements.now).type (payload_of given.now)
        (region_of from.now) }
    requires rank { length from.now.start.items ≡ length region.now.start.items }
    requires shares { share_place region.now.start.items region.now.shape.items
        from.now.start.items from.now.shape.items ≡ true }
    requires small { ¬ IsTooLarge (elements_of elements.now).type
        (product region.now.shape.items) }
    ensures counted { IfOk result (λ made. AreOfBox (elements_of elements.now).type
        (payload_of made) (region_of region.now)) }
    ensures cells { IfOk result (λ made. ArePutOver (elements_of elements.now).fill
        (cells_at (region_of from.now)
        (cells_of (elements_of elements.now).type (payload_of given.now)))
        (cells_at (region_of region.now)
        (cells_of (elements_of elements.now).type (payload_of before)))
        (cells_of (elements_of elements.now).type (payload_of made))) }
{
    match given {
        ArrayBytes::Fixed(bytes) => match (before, element_width(elements)) {
            (ArrayBytes::Fixed(old), Some(width)) => {
                Ok(ArrayBytes::Fixed(put_fixed(old, region, bytes.as_slice(), from, width)))
            }
            (before, _) => put_numbered(alloc, before, region, given, from, elements),
        },
        _ => put_numbered(alloc, before, region, given, from, elements),
    }
}

/// The elements of a box after others were put over them, by their numbers.
fn put_numbered(
    alloc: Global,
    before: ArrayBytes,
    region: &ArraySubset,
    given: &ArrayBytes,
    from: &ArraySubset,
    elements: &Elements,
) -> Result<ArrayBytes, AllocError>
    requires before { AreOfBox (elements_of elements.now).type (payload_of before)
        (region_of region.now) }
    requires given { AreOfBox (elements_of elements.now).type (payload_of given.now)
        (region_of from.now) }
    requires rank { length from.now.start.items ≡ length region.now.start.items }
    requires shares { share_place region.now.start.items region.now.shape.items
        from.now.start.items from.now.shape.items ≡ true }
    requires small { ¬ IsTooLarge (elements_of elements.now).type
        (product region.now.shape.items) }
    ensures counted { IfOk result (λ made. AreOfBox (elements_of elements.now).type
        (payload_of made) (region_of region.now)) }
    ensures cells { IfOk result (λ made. ArePutOver (elements_of elements.now).fill
        (cells_at (region_of from.now)
        (cells_of (elements_of elements.now).type (payload_of given.now)))
        (cells_at (region_of region.now)
        (cells_of (elements_of elements.now).type (payload_of before)))
        (cells_of (elements_of elements.now).type (payload_of made))) }
{
    let Ok(shared) = from.overlap(alloc, region) else {
        return Err(AllocError);
    };
    let part = take_out(alloc, given, from, &shared, elements)?;
    put_within(alloc, before, region, &part, &shared, elements)
}

/// The elements of a box after those of a box `at` that is not empty and lies in it were put over
/// them, by their numbers. `Err` only where an allocation failed.
fn put_within(
    alloc: Global,
    before: ArrayBytes,
    region: &ArraySubset,
    given: &ArrayBytes,
    at: &ArraySubset,
    elements: &Elements,
) -> Result<ArrayBytes, AllocError>
    requires before { AreOfBox (elements_of elements.now).type (payload_of before)
        (region_of region.now) }
    requires given { AreOfBox (elements_of elements.now).type (payload_of given.now)
        (region_of at.now) }
    requires rank { length at.now.start.items ≡ length region.now.start.items }
    requires some { 0 < product at.now.shape.items }
    requires inside { IsWithin (region_of at.now) (region_of region.now) }
    ensures counted { IfOk result (λ made. AreOfBox (elements_of elements.now).type
        (payload_of made) (region_of region.now)) }
    ensures cells { IfOk result (λ made. ArePutOver (elements_of elements.now).fill
        (cells_at (region_of at.now)
        (cells_of (elements_of elements.now).type (payload_of given.now)))
        (cells_at (region_of region.now)
        (cells_of (elements_of elements.now).type (payload_of before)))
        (cells_of (elements_of elements.now).type (payload_of made))) }
{
    let places = numbers_in(alloc, region, at)?;
    let indexer = Indexer::List(places.as_slice());
    match update_array_bytes(
        alloc,
        before,
        region.shape(),
        indexer,
        given,
        elements.data_type(),
    ) {
        Ok(made) => Ok(made),
        Err(_) => Err(AllocError),
    }
}

/// The bytes of the elements of a box, of `width` bytes each, after others were put over them.
pub(crate) fn put_fixed(
    mut before: Vec<u8>,
    region: &ArraySubset,
    given: &[u8],
    from: &ArraySubset,
    width: usize,
) -> Vec<u8>
    requires rank { length from.now.start.items ≡ length region.now.start.items }
    requires positive { 0 < width }
    requires whole { length before.items ≡ product region.now.shape.items * width }
    requires given { length given.now ≡ product from.now.shape.items * width }
    ensures { IsOverlaid width (region_of region.now) (region_of from.now) before.items given.now
        result.items }
{
    let (start, shape) = (region.start(), region.shape());
    let (from_start, from_shape) = (from.start(), from.shape());
    let whole = Extent {
        start: from_start,
        shape: from_shape,
    };
    overlay(&mut before, Extent { start, shape }, given, whole, width);
    before
}

/// The bytes of the elements of a box, of `width` bytes each, after others were put over them: the
/// others as they are where their box is the same.
pub(crate) fn put_or_take(
    before: Vec<u8>,
    region: &ArraySubset,
    given: Vec<u8>,
    from: &ArraySubset,
    width: usize,
) -> Vec<u8>
    requires rank { length from.now.start.items ≡ length region.now.start.items }
    requires positive { 0 < width }
    requires whole { length before.items ≡ product region.now.shape.items * width }
    requires given { length given.items ≡ product from.now.shape.items * width }
    ensures { IsOverlaid width (region_of region.now) (region_of from.now) before.items given.items
        result.items }
{
    if from == region {
        return given;
    }
    put_fixed(before, region, given.as_slice(), from, width)
}
