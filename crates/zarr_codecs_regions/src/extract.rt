//! The elements of a box of an array.
ghost use Rattle.std.specs.Prelude.{◌≡◌, ◌*◌, ◌^◌, ◌<◌, length, replicate, true, IfOk};
ghost use Rattle.zarr_grids_boxes.specs.Boxes.{product};
ghost use Rattle.zarr_grids_boxes.specs.Subsets.{region_of};
ghost use Rattle.zarr_codecs_meaning.specs.Payloads.{fixed_cells};
ghost use Rattle.zarr_codecs_meaning.specs.Places.{gather};
ghost use Rattle.zarr_codecs_meaning.specs.Types.{Cell};
ghost use Rattle.zarr_codecs_traits.specs.Indexers.{shape_has, numbers_of};

use std::alloc::{AllocError, Global};
use zarr_grids_boxes::ArraySubset;
use zarr_grids_boxes::walk::count_places;
use zarr_grids_overlay::{Extent, overlay};

/// The elements at the places of a box of an array, row-major. `bytes` has the elements of the
/// array, row-major, with `width` bytes each. `Err` only where an allocation failed.
pub fn extract_box(
    alloc: Global,
    bytes: &[u8],
    shape: &[u64],
    region: &ArraySubset,
    width: usize,
) -> Result<Vec<u8>, AllocError>
    requires inside { shape_has shape.now (region_of region.now) ≡ true }
    requires positive { 0 < width }
    requires whole { length bytes.now ≡ product shape.now * width }
    ensures elements { (other : Cell) → IfOk result
        (λ extracted. fixed_cells width extracted.items
        ≡ gather other (fixed_cells width bytes.now)
        (numbers_of shape.now (region_of region.now))) }
    ensures length { IfOk result
        (λ extracted. length extracted.items ≡ product region.now.shape.items * width) }
{
    let mut extracted = zeros(alloc, shape, region, width)?;
    let start = origin(alloc, shape)?;
    let from = Extent {
        start: start.as_slice(),
        shape,
    };
    let into = Extent {
        start: region.start(),
        shape: region.shape(),
    };
    overlay(&mut extracted, into, bytes, from, width);
    Ok(extracted)
}

/// As many bytes as the elements of the box have.
fn zeros(
    alloc: Global,
    shape: &[u64],
    region: &ArraySubset,
    width: usize,
) -> Result<Vec<u8>, AllocError>
    requires inside { shape_has shape.now (region_of region.now) ≡ true }
    requires positive { 0 < width }
    requires room { product shape.now * width < 2 ^ 63 }
    ensures { IfOk result
        (λ zeros. zeros.items ≡ replicate (product region.now.shape.items * width) 0) }
{
    let Some(count) = count_places(region.shape()) else {
        unreachable!();
    };
    vec![in alloc; 0u8; count as usize * width]
}

/// The first place of an array.
pub(crate) fn origin(alloc: Global, shape: &[u64]) -> Result<Vec<u64>, AllocError>
    ensures { IfOk result (λ place. place.items ≡ replicate (length shape.now) 0) }
{
    vec![in alloc; 0u64; shape.len()]
}
