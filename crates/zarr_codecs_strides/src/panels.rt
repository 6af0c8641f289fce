//! Elements that stand side by side, each the first of a walk.
ghost use Rattle.std.specs.Prelude.{◌≡◌, ◌+◌, ◌*◌, ◌<◌, ◌≤◌, ◌++◌, length, flat_map, OnOk, MatchResult};
ghost use Rattle.std.specs.List.{range_with_len};
ghost use Rattle.zarr_grids_boxes.specs.Boxes.{product};
ghost use Rattle.zarr_codecs_strides.specs.Strides.{reach, walked};

use crate::lines::{Lines, push_columns};
use crate::stretches::{Stretches, push_stretches};
use crate::walk::Walk;
use std::alloc::AllocError;

/// The first element of so many that stand side by side.
#[derive(Clone, Copy)]
pub(crate) struct Side {
    pub base: u64,
    pub count: u64,
}

/// Appends the elements that walks come by, one walk from each of the elements on that stand side
/// by side. The panel is replaced: it takes all of these elements, line by line, so that each line
/// is read at once.
pub(crate) fn push_panel(
    out: &mut Vec<u8>,
    panel: &mut Vec<u8>,
    stretches: Stretches<'_>,
    side: Side,
    walk: Walk<'_>,
) -> Result<(), AllocError>
    requires ranks { length walk.strides.now ≡ length walk.sizes.now }
    requires some { 0 < product walk.sizes.now * stretches.width }
    requires sided { 0 < side.count }
    requires inside { (side.base + side.count + reach walk.sizes.now walk.strides.now)
        * stretches.width ≤ length stretches.bytes.now }
    ensures { OnOk result (out.new.items ≡ out.old.items ++ flat_map
        (λ c. walked stretches.entry.width stretches.entry.bytes.now (side.base + c)
        walk.entry.sizes.now walk.entry.strides.now) (range_with_len 0 side.count)) }
{
    panel.clear();
    let edge = side.count as usize;
    let parts = Stretches {
        bytes: stretches.bytes,
        width: stretches.width,
        stretch: edge * stretches.width,
    };
    push_stretches(panel, parts, side.base, walk)?;
    let lines = Lines {
        bytes: panel.as_slice(),
        width: stretches.width,
        edge,
        count: panel.len() / parts.stretch,
    };
    push_columns(out, lines)
}
