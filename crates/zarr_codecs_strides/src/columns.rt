//! Walks whose first step goes on to the next element.
ghost use Rattle.std.specs.Prelude.{◌≡◌, ◌+◌, ◌-◌, ◌*◌, ◌<◌, ◌≤◌, ◌++◌, ◌∷◌, [], length, flat_map, OnOk};
ghost use Rattle.std.specs.List.{range_with_len};
ghost use Rattle.zarr_grids_boxes.specs.Boxes.{product};
ghost use Rattle.zarr_codecs_strides.specs.Strides.{reach, walked};

use crate::panels::{Side, push_panel};
use crate::stretches::Stretches;
use crate::walk::Walk;
use std::alloc::{AllocError, Global};

/// How many bytes of a line are moved together: two lines of the processor's caches.
const LANE: u64 = 128;

/// Appends the elements that a walk comes by whose first step goes on to the next element. The
/// stretch is the width.
pub(crate) fn push_side(
    alloc: Global,
    out: &mut Vec<u8>,
    stretches: Stretches<'_>,
    side: Side,
    walk: Walk<'_>,
) -> Result<(), AllocError>
    requires ranks { length walk.strides.now ≡ length walk.sizes.now }
    requires sided { 0 < side.count }
    requires some { 0 < product walk.sizes.now * stretches.width }
    requires stretch { stretches.stretch ≡ stretches.width }
    requires inside { (side.base + ((side.count - 1) * 1 + reach walk.sizes.now walk.strides.now))
        * stretches.width + stretches.stretch ≤ length stretches.bytes.now }
    ensures { OnOk result (out.new.items ≡ out.old.items ++ walked stretches.entry.width
        stretches.entry.bytes.now side.base (side.count ∷ walk.entry.sizes.now)
        (1 ∷ walk.entry.strides.now)) }
{
    if walk.sizes.is_empty() {
        return push_line(out, stretches, side);
    }
    push_panels(alloc, out, stretches, side, walk)
}

/// Appends elements that stand side by side.
fn push_line(out: &mut Vec<u8>, stretches: Stretches<'_>, side: Side) -> Result<(), AllocError>
    requires stretch { stretches.stretch ≡ stretches.width }
    requires sided { 0 < side.count }
    requires some { 0 < stretches.width }
    requires inside { (side.base + side.count) * stretches.width ≤ length stretches.bytes.now }
    ensures { OnOk result (out.new.items ≡ out.old.items ++ flat_map
        (λ c. walked stretches.entry.width stretches.entry.bytes.now (side.base + c) [] [])
        (range_with_len 0 side.count)) }
{
    let start = side.base as usize * stretches.width;
    let end = (side.base + side.count) as usize * stretches.width;
    out.extend_from_slice(&stretches.bytes[start..end])?;
    Ok(())
}

/// Appends elements that stand side by side, each with those that a walk from it on comes by, panel
/// by panel.
fn push_panels(
    alloc: Global,
    out: &mut Vec<u8>,
    stretches: Stretches<'_>,
    side: Side,
    walk: Walk<'_>,
) -> Result<(), AllocError>
    requires ranks { length walk.strides.now ≡ length walk.sizes.now }
    requires some { 0 < product walk.sizes.now * stretches.width }
    requires inside { (side.base + side.count + reach walk.sizes.now walk.strides.now)
        * stretches.width ≤ length stretches.bytes.now }
    ensures { OnOk result (out.new.items ≡ out.old.items ++ flat_map
        (λ c. walked stretches.entry.width stretches.entry.bytes.now (side.base + c)
        walk.entry.sizes.now walk.entry.strides.now) (range_with_len 0 side.count)) }
{
    let most = (LANE / stretches.width as u64).max(1);
    let mut panel = Vec::new(alloc);
    let mut done: u64 = 0;
    while done < side.count {
        let count = most.min(side.count - done);
        let part = Side {
            base: side.base + done,
            count,
        };
        push_panel(out, &mut panel, stretches, part, walk)?;
        done += count;
    }
    Ok(())
}
