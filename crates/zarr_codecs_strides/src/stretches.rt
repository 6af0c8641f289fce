//! Stretches of bytes along a walk.
ghost use Rattle.std.specs.Prelude.{◌≡◌, ◌+◌, ◌*◌, ◌<◌, ◌≤◌, ◌++◌, length, flat_map, OnOk};
ghost use Rattle.zarr_grids_boxes.specs.Boxes.{product};
ghost use Rattle.zarr_codecs_strides.specs.Strides.{strided, reach, stretch_at};

use crate::walk::Walk;
use std::alloc::AllocError;

/// Elements of a width, of which a stretch of bytes is taken from each place on.
#[derive(Clone, Copy)]
pub(crate) struct Stretches<'a> {
    pub bytes: &'a [u8],
    pub width: usize,
    pub stretch: usize,
}

/// Appends the stretches from the places on that a walk comes by.
pub(crate) fn push_stretches(
    out: &mut Vec<u8>,
    stretches: Stretches<'_>,
    base: u64,
    walk: Walk<'_>,
) -> Result<(), AllocError>
    requires ranks { length walk.strides.now ≡ length walk.sizes.now }
    requires some { 0 < product walk.sizes.now * stretches.width }
    requires inside { (base + reach walk.sizes.now walk.strides.now) * stretches.width
        + stretches.stretch ≤ length stretches.bytes.now }
    ensures { OnOk result (out.new.items ≡ out.old.items
        ++ flat_map
        (stretch_at stretches.entry.width stretches.entry.stretch stretches.entry.bytes.now)
        (strided base walk.entry.sizes.now walk.entry.strides.now)) }
{
    match (walk.sizes.split_first(), walk.strides.split_first()) {
        (Some((size, sizes)), Some((stride, strides))) => {
            for i in 0..*size {
                push_stretches(out, stretches, base + i * *stride, Walk { sizes, strides })?;
            }
            Ok(())
        }
        _ => {
            let start = base as usize * stretches.width;
            out.extend_from_slice(&stretches.bytes[start..start + stretches.stretch])
        }
    }
}
