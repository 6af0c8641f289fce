//! Elements of one size put over those of a box of an array, in stretches.
ghost use Rattle.std.specs.Prelude.{◌≡◌, ◌*◌, ◌<◌, List, Some, length, true, IfOk, IfSome};
ghost use Rattle.zarr_codecs_meaning.specs.Payloads.{cells_in, fixed, fixed_cells};
ghost use Rattle.zarr_codecs_meaning.specs.Types.{Cell, byte_width};
ghost use Rattle.zarr_codecs_regions.specs.Updates.{put};
ghost use Rattle.zarr_codecs_traits.specs.Indexers.{shape_has, numbers_of};
ghost use Rattle.zarr_codecs_types.specs.Views.{type_of};
ghost use Rattle.zarr_grids_boxes.specs.Boxes.{product};
ghost use Rattle.zarr_grids_boxes.specs.Subsets.{region_of};
ghost use Rattle.zarr_grids_overlay.specs.Overlays.{IsOverlaid, extent_of};

use crate::extract::origin;
use std::alloc::{AllocError, Global};
use zarr_codecs_types::DataType;
use zarr_grids_boxes::ArraySubset;
use zarr_grids_boxes::walk::count_places;
use zarr_grids_overlay::{Extent, overlay};

/// The elements of one size of an array, row-major, after those of a box of it were put over them.
/// `Err` where an allocation failed, and where these are not as many bytes or not of one size.
pub fn put_fixed(
    alloc: Global,
    bytes: Vec<u8>,
    shape: &[u64],
    given: &[u8],
    region: &ArraySubset,
    data_type: &DataType,
) -> Result<Vec<u8>, AllocError>
    requires inside { shape_has shape.now (region_of region.now) ≡ true }
    ensures { (before others : List Cell)
        → cells_in (type_of data_type.now) (fixed bytes.items) ≡ Some before
        → cells_in (type_of data_type.now) (fixed given.now) ≡ Some others
        → IfOk result (λ made. cells_in (type_of data_type.now) (fixed made.items)
        ≡ Some (put (numbers_of shape.now (region_of region.now)) others before)) }
{
    let Some(width) = whole_width(bytes.len(), data_type, shape) else {
        return Err(AllocError);
    };
    let Some(_) = whole_width(given.len(), data_type, region.shape()) else {
        return Err(AllocError);
    };
    put_box(alloc, bytes, shape, given, region, width)
}

/// How many bytes each element has, of which so many bytes are those of a box of this shape.
pub(crate) fn whole_width(size: usize, data_type: &DataType, shape: &[u64]) -> Option<usize>
    ensures { IfSome result (λ width. (0 < width) × (size ≡ product shape.now * width)
        × (byte_width (type_of data_type.now) ≡ Some width)) }
{
    let width = data_type.byte_width()?;
    let count = count_places(shape)?;
    let total = count.checked_mul(width as u64)?;
    if width == 0 || size as u64 != total {
        return None;
    }
    Some(width)
}

/// The elements of an array, row-major with `width` bytes each, after those of a box of it were put
/// over them. `Err` only where an allocation failed.
pub(crate) fn put_box(
    alloc: Global,
    bytes: Vec<u8>,
    shape: &[u64],
    given: &[u8],
    region: &ArraySubset,
    width: usize,
) -> Result<Vec<u8>, AllocError>
    requires inside { shape_has shape.now (region_of region.now) ≡ true }
    requires positive { 0 < width }
    requires whole { length bytes.items ≡ product shape.now * width }
    requires given { length given.now ≡ product region.now.shape.items * width }
    ensures elements { IfOk result (λ made. fixed_cells width made.items
        ≡ put (numbers_of shape.now (region_of region.now)) (fixed_cells width given.now)
        (fixed_cells width bytes.items)) }
    ensures length { IfOk result (λ made. length made.items ≡ length bytes.items) }
{
    let start = origin(alloc, shape)?;
    let into = Extent {
        start: start.as_slice(),
        shape,
    };
    let from = Extent {
        start: region.start(),
        shape: region.shape(),
    };
    Ok(overlaid(bytes, into, given, from, width))
}

/// The bytes of a box after those of another were put over them.
fn overlaid(mut before: Vec<u8>, into: Extent, given: &[u8], from: Extent, width: usize) -> Vec<u8>
    requires rank { length from.start.now ≡ length into.start.now }
    requires before { length before.items ≡ product into.shape.now * width }
    requires given { length given.now ≡ product from.shape.now * width }
    ensures over { IsOverlaid width (extent_of into.entry) (extent_of from.entry) before.items
        given.now result.items }
    ensures length { length result.items ≡ length before.items }
{
    overlay(&mut before, into, given, from, width);
    before
}
