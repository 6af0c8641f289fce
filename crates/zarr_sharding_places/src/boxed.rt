//! Elements of an array while those of boxes of it are put over them.
ghost use Rattle.std.specs.Prelude.{◌≡◌, List, length, replicate, Some, IfOk};
ghost use Rattle.zarr_codecs_arrays.specs.Views.{elements_of, payload_of};
ghost use Rattle.zarr_codecs_meaning.specs.Payloads.{cells_in, fixed};
ghost use Rattle.zarr_codecs_meaning.specs.Types.{Cell};
ghost use Rattle.zarr_codecs_regions.specs.Updates.{put};
ghost use Rattle.zarr_codecs_traits.specs.Indexers.{numbers_of};
ghost use Rattle.zarr_grids_boxes.specs.Boxes.{product};
ghost use Rattle.zarr_grids_boxes.specs.Subsets.{region_of};
ghost use Rattle.zarr_sharding_places.specs.Boxed.{ShowsBoxes};

use crate::placed::PlacedElements;
use std::alloc::{AllocError, Global};
use zarr_codecs_arrays::{ArrayBytes, Elements};
use zarr_codecs_regions::{is_inside, numbers_asked, put_fixed};
use zarr_codecs_traits::{Indexer, WholeArray};
use zarr_grids_boxes::ArraySubset;
use zarr_grids_boxes::walk::count_places;

/// Elements of an array while those of boxes of it are put over them. Of elements of one size these
/// are the bytes, and those of a box are copied in stretches; others are put by their numbers.
#[derive(Debug, Drop)]
pub enum BoxedElements {
    Fixed(Vec<u8>),
    Placed(PlacedElements),
}

impl BoxedElements {
    /// So many fill values, whatever size they have. `Err` only where an allocation failed.
    pub fn new_fill_value(
        alloc: Global,
        count: usize,
        elements: &Elements,
    ) -> Result<BoxedElements, AllocError>
        ensures { IfOk result (λ all. ShowsBoxes (elements_of elements.now) all
            (replicate count (elements_of elements.now).fill)) }
    {
        if elements.data_type().byte_width().is_none() {
            let placed = PlacedElements::new_fill_value(alloc, count, elements)?;
            return Ok(BoxedElements::Placed(placed));
        }
        match ArrayBytes::fill_values(alloc, elements, count) {
            Ok(ArrayBytes::Fixed(bytes)) => Ok(BoxedElements::Fixed(bytes)),
            _ => Err(AllocError),
        }
    }

    /// The elements of the array after others were put over those of a box of it, row-major. `Err`
    /// where an allocation failed, where these are not the elements of the array or the others not
    /// those of the box, and where the box doesn't lie in the array.
    pub fn put(
        self,
        alloc: Global,
        array: WholeArray<'_>,
        region: &ArraySubset,
        given: &ArrayBytes,
    ) -> Result<BoxedElements, AllocError>
        ensures { (before others : List Cell)
            → ShowsBoxes (elements_of array.entry.elements.now) self before
            → cells_in (elements_of array.entry.elements.now).type (payload_of given.now)
            ≡ Some others
            → length others ≡ product region.now.shape.items → IfOk result
            (λ all. ShowsBoxes (elements_of array.entry.elements.now) all
            (put (numbers_of array.entry.shape.now (region_of region.now)) others before)) }
    {
        match self {
            BoxedElements::Fixed(bytes) => match given {
                ArrayBytes::Fixed(given) => {
                    let all = BoxedElements::Fixed(bytes);
                    all.put_bytes(alloc, array, region, given.as_slice())
                }
                _ => Err(AllocError),
            },
            BoxedElements::Placed(all) => {
                if !is_inside(array.shape, region) || count_places(array.shape).is_none() {
                    return Err(AllocError);
                }
                let at = numbers_asked(alloc, array.shape, Indexer::Subset(region))?;
                let made = all.put(alloc, at.as_slice(), given, array.elements)?;
                Ok(BoxedElements::Placed(made))
            }
        }
    }

    /// The elements of the array after others of one size, of which these are the bytes, were put
    /// over those of a box of it, row-major. `Err` as in `put`, and where the elements aren't of
    /// one size.
    pub fn put_bytes(
        self,
        alloc: Global,
        array: WholeArray<'_>,
        region: &ArraySubset,
        given: &[u8],
    ) -> Result<BoxedElements, AllocError>
        ensures { (before others : List Cell)
            → ShowsBoxes (elements_of array.entry.elements.now) self before
            → cells_in (elements_of array.entry.elements.now).type (fixed given.now) ≡ Some others
            → IfOk result (λ all. ShowsBoxes (elements_of array.entry.elements.now) all
            (put (numbers_of array.entry.shape.now (region_of region.now)) others before)) }
    {
        let BoxedElements::Fixed(bytes) = self else {
            return Err(AllocError);
        };
        if !is_inside(array.shape, region) {
            return Err(AllocError);
        }
        let data_type = array.elements.data_type();
        let made = put_fixed(alloc, bytes, array.shape, given, region, data_type)?;
        Ok(BoxedElements::Fixed(made))
    }

    /// The elements, in order. `Err` only where an allocation failed.
    pub fn into_bytes(self, alloc: Global, elements: &Elements) -> Result<ArrayBytes, AllocError>
        ensures { (cells : List Cell) → ShowsBoxes (elements_of elements.now) self cells
            → IfOk result (λ made. cells_in (elements_of elements.now).type (payload_of made)
            ≡ Some cells) }
    {
        match self {
            BoxedElements::Fixed(bytes) => Ok(ArrayBytes::Fixed(bytes)),
            BoxedElements::Placed(all) => all.gather(alloc, elements),
        }
    }
}
