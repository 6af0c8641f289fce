//! Whether a box lies in an array.
ghost use Rattle.std.specs.Prelude.{◌≡◌};
ghost use Rattle.zarr_grids_boxes.specs.Subsets.{region_of};
ghost use Rattle.zarr_codecs_traits.specs.Indexers.{shape_has};

use zarr_grids_boxes::ArraySubset;

/// Whether each place of a box is one of an array of this shape, which has as many dimensions.
pub fn is_inside(shape: &[u64], region: &ArraySubset) -> bool
    ensures { result ≡ shape_has shape.now (region_of region.now) }
{
    if region.dimensionality() != shape.len() {
        return false;
    }
    if region.is_empty() {
        return true;
    }
    region.inbounds_shape(shape)
}
