//! Bytes of an array of which a box is replaced.
ghost use Rattle.std.specs.Prelude.{◌≡◌, ◌==◌, ◌*◌, length};
ghost use Rattle.zarr_grids_boxes.specs.Boxes.{product};
ghost use Rattle.zarr_grids_boxes.specs.Subsets.{region_of};
ghost use Rattle.zarr_grids_overlay.specs.Overlays.{IsOverlaid};
ghost use Rattle.zarr_codecs_traits.specs.Targets.{CanPut, IsPut, IsReady};

use std::alloc::Global;
use zarr_codecs_arrays::CodecError;
use zarr_grids_boxes::ArraySubset;
use zarr_grids_boxes::walk::count_places;
use zarr_grids_overlay::{Extent, overlay};

/// The bytes of the elements of an array, row-major with `width` bytes each, of which those in a
/// box are replaced. `shape` is the array's: one number of elements for each dimension.
#[derive(Drop)]
pub struct TargetBytes<'t, 'a> {
    pub bytes: &'t mut [u8],
    pub shape: &'a [u64],
    pub region: &'a ArraySubset,
    pub width: usize,
}

impl TargetBytes<'_, '_> {
    /// The box of all places of the array, where bytes can be put over those of the target's box.
    pub(crate) fn whole_for(&self, alloc: Global, bytes: &[u8]) -> Result<ArraySubset, CodecError>
        ensures { IsReady self.now bytes.now result }
    {
        if !self.region.inbounds_shape(self.shape) {
            return Err(CodecError::IncompatibleIndexer);
        }
        let given = has_len(bytes, self.region.shape(), self.width);
        if !given || !has_len(self.bytes, self.shape, self.width) {
            return Err(CodecError::InvalidNumberOfElements);
        }
        let shape = self.shape.to_vec(alloc)?;
        Ok(ArraySubset::new_with_shape(alloc, shape)?)
    }

    /// Puts bytes over those of the target's box. `whole` is the box of all places of the array.
    pub(crate) fn put_in(&mut self, whole: &ArraySubset, bytes: &[u8])
        requires { CanPut self.old bytes.now (region_of whole.now) }
        ensures { IsPut self.old bytes.now self.new }
    {
        let (region, width) = (self.region, self.width);
        overlay_box(self.bytes, whole, bytes, region, width);
    }
}

/// Puts the elements of a box over those of another, with `width` bytes each.
fn overlay_box(bytes: &mut [u8], into: &ArraySubset, given: &[u8], from: &ArraySubset, width: usize)
    requires rank { length from.now.start.items ≡ length into.now.start.items }
    requires bytes { length bytes.old ≡ product into.now.shape.items * width }
    requires given { length given.now ≡ product from.now.shape.items * width }
    ensures { IsOverlaid width (region_of into.now) (region_of from.now)
        bytes.old given.now bytes.new }
{
    let into = Extent {
        start: into.start(),
        shape: into.shape(),
    };
    let from = Extent {
        start: from.start(),
        shape: from.shape(),
    };
    overlay(bytes, into, given, from, width);
}

/// Whether bytes are as many as the elements of an array have, with `width` bytes each.
fn has_len(bytes: &[u8], shape: &[u64], width: usize) -> bool
    ensures { result ≡ (length bytes.now == product shape.now * width) }
{
    match count_places(shape) {
        Some(count) => count.checked_mul(width as u64) == Some(bytes.len() as u64),
        None => width == 0 && bytes.is_empty(),
    }
}
