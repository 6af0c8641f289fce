//! The elements of a box, taken out of those of a box in which it lies.
ghost use Rattle.std.specs.Prelude.{◌≡◌, ◌<◌, ◌*◌, ◌^◌, ℕ, length, IfOk, IfSome, Some, replicate};
ghost use Rattle.zarr_grids_boxes.specs.Boxes.{product};
ghost use Rattle.zarr_grids_boxes.specs.Subsets.{region_of};
ghost use Rattle.zarr_grids_overlay.specs.Overlays.{extent_of, IsOverlaid};
ghost use Rattle.zarr_codecs_meaning.specs.Types.{byte_width, IsTooLarge};
ghost use Rattle.zarr_codecs_arrays.specs.Views.{payload_of, elements_of};
ghost use Rattle.zarr_array_elements.specs.Boxes.{cells_of, AreOfBox, IsWithin, AreTakenOut};

use crate::numbers::numbers_in;
use std::alloc::{AllocError, Global};
use zarr_codecs_arrays::{ArrayBytes, Elements};
use zarr_codecs_regions::gather_elements;
use zarr_grids_boxes::ArraySubset;
use zarr_grids_boxes::walk::count_places;
use zarr_grids_overlay::{Extent, overlay};

/// The elements of a box `wanted` that is not empty, row-major, of those of a box `from` in which
/// it lies. Elements of one size are copied row by row. `Err` only where an allocation failed.
pub fn take_out(
    alloc: Global,
    given: &ArrayBytes,
    from: &ArraySubset,
    wanted: &ArraySubset,
    elements: &Elements,
) -> Result<ArrayBytes, AllocError>
    requires given { AreOfBox (elements_of elements.now).type (payload_of given.now)
        (region_of from.now) }
    requires rank { length wanted.now.start.items ≡ length from.now.start.items }
    requires some { 0 < product wanted.now.shape.items }
    requires small { ¬ IsTooLarge (elements_of elements.now).type
        (product wanted.now.shape.items) }
    requires inside { IsWithin (region_of wanted.now) (region_of from.now) }
    ensures counted { IfOk result (λ made. AreOfBox (elements_of elements.now).type
        (payload_of made) (region_of wanted.now)) }
    ensures cells { IfOk result (λ made. AreTakenOut (elements_of elements.now).fill
        (region_of wanted.now) (region_of from.now)
        (cells_of (elements_of elements.now).type (payload_of given.now))
        (cells_of (elements_of elements.now).type (payload_of made))) }
{
    match given {
        ArrayBytes::Fixed(bytes) => match element_width(elements) {
            Some(width) => {
                let made = take_fixed(alloc, bytes.as_slice(), from, wanted, width)?;
                Ok(ArrayBytes::Fixed(made))
            }
            None => take_numbered(alloc, given, from, wanted, elements),
        },
        _ => take_numbered(alloc, given, from, wanted, elements),
    }
}

/// The elements of a box by their numbers in the other one.
fn take_numbered(
    alloc: Global,
    given: &ArrayBytes,
    from: &ArraySubset,
    wanted: &ArraySubset,
    elements: &Elements,
) -> Result<ArrayBytes, AllocError>
    requires given { AreOfBox (elements_of elements.now).type (payload_of given.now)
        (region_of from.now) }
    requires rank { length wanted.now.start.items ≡ length from.now.start.items }
    requires some { 0 < product wanted.now.shape.items }
    requires inside { IsWithin (region_of wanted.now) (region_of from.now) }
    ensures counted { IfOk result (λ made. AreOfBox (elements_of elements.now).type
        (payload_of made) (region_of wanted.now)) }
    ensures cells { IfOk result (λ made. AreTakenOut (elements_of elements.now).fill
        (region_of wanted.now) (region_of from.now)
        (cells_of (elements_of elements.now).type (payload_of given.now))
        (cells_of (elements_of elements.now).type (payload_of made))) }
{
    let numbers = numbers_in(alloc, from, wanted)?;
    gather_elements(alloc, given, elements, numbers.as_slice())
}

/// The bytes of the elements of a box, of `width` bytes each: all bytes as they are where the box
/// is the same.
fn take_fixed(
    alloc: Global,
    bytes: &[u8],
    from: &ArraySubset,
    wanted: &ArraySubset,
    width: usize,
) -> Result<Vec<u8>, AllocError>
    requires rank { length wanted.now.start.items ≡ length from.now.start.items }
    requires positive { 0 < width }
    requires whole { length bytes.now ≡ product from.now.shape.items * width }
    requires few { product wanted.now.shape.items < 2 ^ 63 }
    requires room { product wanted.now.shape.items * width < 2 ^ 63 }
    ensures { IfOk result (λ made. IsOverlaid width (region_of wanted.now) (region_of from.now)
        (replicate (product wanted.now.shape.items * width) 0) bytes.now made.items) }
{
    if from == wanted {
        return bytes.to_vec(alloc);
    }
    take_rows(alloc, bytes, from, wanted, width)
}

/// The bytes of the elements of a box, of `width` bytes each, row by row.
fn take_rows(
    alloc: Global,
    bytes: &[u8],
    from: &ArraySubset,
    wanted: &ArraySubset,
    width: usize,
) -> Result<Vec<u8>, AllocError>
    requires rank { length wanted.now.start.items ≡ length from.now.start.items }
    requires positive { 0 < width }
    requires whole { length bytes.now ≡ product from.now.shape.items * width }
    requires few { product wanted.now.shape.items < 2 ^ 63 }
    requires room { product wanted.now.shape.items * width < 2 ^ 63 }
    ensures { IfOk result (λ made. IsOverlaid width (region_of wanted.now) (region_of from.now)
        (replicate (product wanted.now.shape.items * width) 0) bytes.now made.items) }
{
    let count = count_places(wanted.shape()).unwrap() as usize;
    let mut made = vec![in alloc; 0u8; count * width]?;
    let (start, shape) = (wanted.start(), wanted.shape());
    let (from_start, from_shape) = (from.start(), from.shape());
    let whole = Extent {
        start: from_start,
        shape: from_shape,
    };
    overlay(&mut made, Extent { start, shape }, bytes, whole, width);
    Ok(made)
}

/// How many bytes each element takes, where all take as many, and more than none.
pub(crate) fn element_width(elements: &Elements) -> Option<usize>
    ensures sized { IfSome result
        (λ width. byte_width (elements_of elements.now).type ≡ Some width) }
    ensures some { IfSome result (λ width. 0 < width) }
{
    match elements.data_type().byte_width() {
        Some(0) | None => None,
        Some(width) => Some(width),
    }
}
