//! Cells of one box put over those of another, one stretch of bytes after another.
ghost use Rattle.std.specs.Prelude.{◌≡◌, ◌+◌, ◌*◌, ◌≤◌, length, take, drop, ◌++◌};
ghost use Rattle.zarr_grids_boxes.specs.Boxes.{product};
ghost use Rattle.zarr_grids_overlay.specs.Overlays.{extent_of, IsOverlaid};

use crate::extents::Extent;

/// Puts the cells of one box over those of another: each place that both boxes have takes its cell
/// from `source`, and every other cell of `target` stays. `target` holds the cells of the box
/// `into`, and `source` those of `from`, row-major, with `width` bytes to a cell.
pub fn overlay(target: &mut [u8], into: Extent, source: &[u8], from: Extent, width: usize)
    requires rank { length from.start.now ≡ length into.start.now }
    requires target_length { length target.old ≡ product into.shape.now * width }
    requires source_length { length source.now ≡ product from.shape.now * width }
    ensures { IsOverlaid width (extent_of into.entry) (extent_of from.entry)
        target.old source.now target.new }
{
    if target.is_empty() || source.is_empty() {
        return;
    }
    overlay_extent(target, into, source, from, width);
}

/// `overlay` of slices that are not empty. It is slow where a slice is empty and a box has a size
/// above 0.
fn overlay_extent(target: &mut [u8], into: Extent, source: &[u8], from: Extent, width: usize)
    requires rank { length from.start.now ≡ length into.start.now }
    requires target_length { length target.old ≡ product into.shape.now * width }
    requires source_length { length source.now ≡ product from.shape.now * width }
    ensures { IsOverlaid width (extent_of into.entry) (extent_of from.entry)
        target.old source.now target.new }
{
    if into.start.is_empty() {
        target.copy_from_slice(source);
        return;
    }
    let (low, high) = into.shared(from, 0);
    if low >= high {
        return;
    }
    let count = (high - low) as usize;
    let target_first = (low - into.start[0]) as usize;
    let source_first = (low - from.start[0]) as usize;
    let target_inner = into.inner_len(target.len(), width);
    let source_inner = from.inner_len(source.len(), width);
    let (into_rest, from_rest) = (into.rest(), from.rest());
    if into_rest.is_same(from_rest) {
        let (to, there) = (target_first * target_inner, source_first * source_inner);
        copy_stretch(target, to, source, there, count * target_inner);
        return;
    }
    if into.start.len() == 2 {
        overlay_lines(target, into, source, from, width);
        return;
    }
    for row in 0..count {
        let to = (target_first + row) * target_inner;
        let there = (source_first + row) * source_inner;
        overlay_extent(
            &mut target[to..to + target_inner],
            into_rest,
            &source[there..there + source_inner],
            from_rest,
            width,
        );
    }
}

/// `overlay` at two dimensions, where each row is one stretch of bytes: far faster for short rows
/// than a call for each.
fn overlay_lines(target: &mut [u8], into: Extent, source: &[u8], from: Extent, width: usize)
    requires two { length into.start.now ≡ 2 }
    requires rank { length from.start.now ≡ length into.start.now }
    requires target_length { length target.old ≡ product into.shape.now * width }
    requires source_length { length source.now ≡ product from.shape.now * width }
    ensures { IsOverlaid width (extent_of into.entry) (extent_of from.entry)
        target.old source.now target.new }
{
    let (low, high) = into.shared(from, 0);
    let (left, right) = into.shared(from, 1);
    if low >= high || left >= right {
        return;
    }
    let count = (high - low) as usize;
    let target_first = (low - into.start[0]) as usize;
    let source_first = (low - from.start[0]) as usize;
    let target_inner = into.inner_len(target.len(), width);
    let source_inner = from.inner_len(source.len(), width);
    let stretch = (right - left) as usize * width;
    let target_left = (left - into.start[1]) as usize * width;
    let source_left = (left - from.start[1]) as usize * width;
    for row in 0..count {
        let to = (target_first + row) * target_inner;
        let there = (source_first + row) * source_inner;
        copy_stretch(
            &mut target[to..to + target_inner],
            target_left,
            &source[there..there + source_inner],
            source_left,
            stretch,
        );
    }
}

/// Copies `count` bytes.
fn copy_stretch(target: &mut [u8], to: usize, source: &[u8], from: usize, count: usize)
    requires target_end { to + count ≤ length target.old }
    requires source_end { from + count ≤ length source.now }
    ensures { target.new ≡ take to target.old
        ++ (take count (drop from source.now) ++ drop (to + count) target.old) }
{
    target[to..to + count].copy_from_slice(&source[from..from + count]);
}
