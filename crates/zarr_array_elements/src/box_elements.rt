//! Elements of a box while those of other boxes are put over them, one after another.
ghost use Rattle.std.specs.Prelude.{◌≡◌, ◌<◌, ◌^◌, ℕ, length, Some, IfOk, replicate};
ghost use Rattle.zarr_grids_boxes.specs.Boxes.{Region, product};
ghost use Rattle.zarr_grids_boxes.specs.Subsets.{region_of};
ghost use Rattle.zarr_codecs_meaning.specs.Types.{byte_width, IsTooLarge};
ghost use Rattle.zarr_codecs_arrays.specs.Views.{payload_of, elements_of};
ghost use Rattle.zarr_array_elements.specs.Boxes.{cells_of, AreOfBox, IsWithin, ArePutOver, cells_at};
ghost use Rattle.zarr_array_elements.specs.Views.{cells_shown, AreShown};

use crate::cutting::element_width;
use crate::numbers::numbers_in;
use crate::putting::put_or_take;
use std::alloc::{AllocError, Global};
use zarr_codecs_arrays::{ArrayBytes, Elements};
use zarr_grids_boxes::ArraySubset;
use zarr_grids_boxes::walk::count_places;
use zarr_sharding_places::PlacedElements;

/// Elements of a box while those of other boxes are put over them, one after another. What is put
/// over them takes time by what it is alone, however large the box is.
#[derive(Debug, Drop)]
pub enum BoxElements {
    /// The bytes of each element, row-major, and how many bytes each has.
    Fixed(Vec<u8>, usize),
    /// Elements in the order in which they came, and which one is at each place.
    Placed(PlacedElements),
}

impl BoxElements {
    /// As many fill values as a box has places. `Err` only where an allocation failed.
    pub fn new_fill_value(
        alloc: Global,
        region: &ArraySubset,
        elements: &Elements,
    ) -> Result<BoxElements, AllocError>
        requires small { ¬ IsTooLarge (elements_of elements.now).type
            (product region.now.shape.items) }
        ensures shown { IfOk result
            (AreShown (elements_of elements.now) (region_of region.now)) }
        ensures cells { IfOk result (λ shown. cells_shown (elements_of elements.now) shown
            ≡ replicate (product region.now.shape.items) (elements_of elements.now).fill) }
    {
        let count = count_places(region.shape()).unwrap();
        match element_width(elements) {
            Some(width) => filled_fixed(alloc, count, width, elements),
            None => {
                let all = PlacedElements::new_fill_value(alloc, count as usize, elements)?;
                Ok(BoxElements::Placed(all))
            }
        }
    }

    /// The elements after those of a box `at` that is not empty and lies in theirs were put over
    /// them. `Err` only where an allocation failed.
    pub fn put(
        self,
        alloc: Global,
        region: &ArraySubset,
        given: ArrayBytes,
        at: &ArraySubset,
        elements: &Elements,
    ) -> Result<BoxElements, AllocError>
        requires shown { AreShown (elements_of elements.now) (region_of region.now) self }
        requires given { AreOfBox (elements_of elements.now).type (payload_of given)
            (region_of at.now) }
        requires rank { length at.now.start.items ≡ length region.now.start.items }
        requires some { 0 < product at.now.shape.items }
        requires inside { IsWithin (region_of at.now) (region_of region.now) }
        ensures shown { IfOk result
            (AreShown (elements_of elements.now) (region_of region.now)) }
        ensures cells { IfOk result (λ shown. ArePutOver (elements_of elements.now).fill
            (cells_at (region_of at.now)
            (cells_of (elements_of elements.now).type (payload_of given)))
            (cells_at (region_of region.now) (cells_shown (elements_of elements.now) self))
            (cells_shown (elements_of elements.now) shown)) }
    {
        match self {
            BoxElements::Fixed(bytes, width) => match given {
                ArrayBytes::Fixed(given) => {
                    let made = put_or_take(bytes, region, given, at, width);
                    Ok(BoxElements::Fixed(made, width))
                }
                ArrayBytes::Variable(_bytes, _offsets) => unreachable!(),
                ArrayBytes::Optional(_inner, _mask) => unreachable!(),
            },
            BoxElements::Placed(all) => {
                let places = numbers_in(alloc, region, at)?;
                let made = all.put(alloc, places.as_slice(), &given, elements)?;
                Ok(BoxElements::Placed(made))
            }
        }
    }

    /// The elements, row-major. `Err` only where an allocation failed.
    pub fn into_bytes(
        self,
        alloc: Global,
        region: &ArraySubset,
        elements: &Elements,
    ) -> Result<ArrayBytes, AllocError>
        requires shown { AreShown (elements_of elements.now) (region_of region.now) self }
        ensures counted { IfOk result (λ made. AreOfBox (elements_of elements.now).type
            (payload_of made) (region_of region.now)) }
        ensures cells { IfOk result
            (λ made. cells_of (elements_of elements.now).type (payload_of made)
            ≡ cells_shown (elements_of elements.now) self) }
    {
        match self {
            BoxElements::Fixed(bytes, _) => Ok(ArrayBytes::Fixed(bytes)),
            BoxElements::Placed(all) => all.gather(alloc, elements),
        }
    }
}

/// So many fill values of `width` bytes each.
fn filled_fixed(
    alloc: Global,
    count: u64,
    width: usize,
    elements: &Elements,
) -> Result<BoxElements, AllocError>
    requires sized { byte_width (elements_of elements.now).type ≡ Some width }
    requires positive { 0 < width }
    requires small { ¬ IsTooLarge (elements_of elements.now).type count }
    ensures shown { (box : Region) → product box.shape ≡ count → IfOk result
        (AreShown (elements_of elements.now) box) }
    ensures cells { IfOk result (λ shown. cells_shown (elements_of elements.now) shown
        ≡ replicate count (elements_of elements.now).fill) }
{
    match ArrayBytes::fill_values(alloc, elements, count as usize) {
        Ok(ArrayBytes::Fixed(bytes)) => Ok(BoxElements::Fixed(bytes, width)),
        _ => Err(AllocError),
    }
}
