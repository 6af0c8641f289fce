//! Whether a box holds another one.
ghost use Rattle.std.specs.Prelude.{◌≡◌, ◌+◌, ◌<◌, ◌^◌, ◌&&◌, nat_le, length};
ghost use Rattle.zarr_array_meaning.specs.Chunks.{holds_box};
ghost use Rattle.zarr_grids_overlay.specs.Overlays.{extent_of};

use zarr_grids_overlay::Extent;

/// Whether a box holds the whole of another one.
pub(crate) fn holds_box(region: Extent, other: Extent) -> bool
    requires { length region.start.now ≡ length other.start.now }
    ensures { result ≡ holds_box (extent_of region.entry) (extent_of other.entry) }
{
    for k in 0..region.start.len() {
        if !holds_interval(
            region.start[k],
            region.shape[k],
            other.start[k],
            other.shape[k],
        ) {
            return false;
        }
    }
    true
}

/// Whether an interval holds the whole of another one.
fn holds_interval(start: u64, count: u64, other_start: u64, other_count: u64) -> bool
    requires fit { start + count < 2 ^ 64 }
    requires other_fit { other_start + other_count < 2 ^ 64 }
    ensures { result ≡ (nat_le start other_start
        && nat_le (other_start + other_count) (start + count)) }
{
    start <= other_start && other_start + other_count <= start + count
}
