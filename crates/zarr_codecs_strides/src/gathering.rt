//! Elements that a walk comes by, one after another.
ghost use Rattle.std.specs.Prelude.{◌≡◌, ◌+◌, ◌*◌, ◌<◌, ◌≤◌, ◌++◌, length, true, IfOk, OnOk};
ghost use Rattle.zarr_grids_boxes.specs.Boxes.{product};
ghost use Rattle.zarr_codecs_strides.specs.Strides.{reach, walked};

use crate::columns::push_side;
use crate::panels::Side;
use crate::stretches::Stretches;
use crate::walk::{Walk, reach};
use std::alloc::{AllocError, Global};
use zarr_grids_boxes::walk::count_places;

/// The elements that a walk from the first element on comes by, in its order. `bytes` has elements
/// of `width` bytes each. `Err` only where an allocation failed, or where the walk has more sizes
/// than strides, or fewer, or leaves the bytes.
pub fn gather_walk(
    alloc: Global,
    bytes: &[u8],
    width: usize,
    walk: Walk<'_>,
) -> Result<Vec<u8>, AllocError>
    ensures { IfOk result (λ v. v.items
        ≡ walked width bytes.now 0 walk.entry.sizes.now walk.entry.strides.now) }
{
    let Some(count) = count_places(walk.sizes) else {
        return Err(AllocError);
    };
    if walk.strides.len() != walk.sizes.len() {
        return Err(AllocError);
    }
    if count == 0 {
        return Ok(Vec::new(alloc));
    }
    let Some(total) = (count as usize).checked_mul(width) else {
        return Err(AllocError);
    };
    if !lies_within(bytes, width, walk) {
        return Err(AllocError);
    }
    let stretches = Stretches {
        bytes,
        width,
        stretch: width,
    };
    let mut out = Vec::with_capacity(alloc, total)?;
    push_walk(alloc, &mut out, stretches, 0, walk)?;
    Ok(out)
}

/// Whether all elements that a walk from the first element on comes by are there, and have bytes.
fn lies_within(bytes: &[u8], width: usize, walk: Walk<'_>) -> bool
    ensures some { result ≡ true → 0 < width }
    ensures inside { result ≡ true → (0 + reach walk.entry.sizes.now walk.entry.strides.now)
        * width + width ≤ length bytes.now }
{
    let Some(last) = reach(walk) else {
        return false;
    };
    match last.checked_mul(width as u64) {
        Some(start) => match start.checked_add(width as u64) {
            Some(end) => width > 0 && end <= bytes.len() as u64,
            None => false,
        },
        None => false,
    }
}

/// Appends the elements that a walk from a place on comes by. The stretch is the width.
fn push_walk(
    alloc: Global,
    out: &mut Vec<u8>,
    stretches: Stretches<'_>,
    base: u64,
    walk: Walk<'_>,
) -> Result<(), AllocError>
    requires ranks { length walk.strides.now ≡ length walk.sizes.now }
    requires some { 0 < product walk.sizes.now * stretches.width }
    requires stretch { stretches.stretch ≡ stretches.width }
    requires inside { (base + reach walk.sizes.now walk.strides.now) * stretches.width
        + stretches.stretch ≤ length stretches.bytes.now }
    ensures { OnOk result (out.new.items ≡ out.old.items
        ++ walked stretches.entry.width stretches.entry.bytes.now base walk.entry.sizes.now
        walk.entry.strides.now) }
{
    match (walk.sizes.split_first(), walk.strides.split_first()) {
        (Some((size, sizes)), Some((stride, strides))) => {
            if *stride == 1 {
                let side = Side { base, count: *size };
                return push_side(alloc, out, stretches, side, Walk { sizes, strides });
            }
            for i in 0..*size {
                push_walk(
                    alloc,
                    out,
                    stretches,
                    base + i * *stride,
                    Walk { sizes, strides },
                )?;
            }
            Ok(())
        }
        _ => {
            let start = base as usize * stretches.width;
            out.extend_from_slice(&stretches.bytes[start..start + stretches.stretch])
        }
    }
}
