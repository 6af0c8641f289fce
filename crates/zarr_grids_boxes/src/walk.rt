//! Walks over the places of a box by their numbers.
ghost use Rattle.std.specs.Prelude.{◌≡◌, ◌↔◌, IsTrue, ℕ, ◌+◌, ◌*◌, ◌^◌, ◌<◌, ◌≤◌, length, slice_index};
ghost use Rattle.std.specs.Option.{SomeIff};
ghost use Rattle.zarr_grids_boxes.specs.Boxes.{product, place_at, EndsFit};

/// Whether a box with this shape has no place.
pub fn has_no_place(shape: &[u64]) -> bool
    ensures { IsTrue result ↔ (product shape.now ≡ 0) }
{
    for size in shape {
        if *size == 0 {
            return true;
        }
    }
    false
}

/// How many places a box with this shape has, if that is below 2^63.
pub fn count_places(shape: &[u64]) -> Option<u64>
    ensures { SomeIff result (product shape.now < 2 ^ 63) (product shape.now) }
{
    if has_no_place(shape) {
        return Some(0);
    }
    let mut count: u64 = 1;
    for size in shape {
        match count.checked_mul(*size) {
            Some(next) if next < 1 << 63 => count = next,
            _ => return None,
        }
    }
    Some(count)
}

/// Writes the place with number `n`, row-major, of a box with `count` places.
pub fn place_into(start: &[u64], shape: &[u64], count: u64, n: u64, place: &mut [u64])
    requires same { length shape.now ≡ length start.now }
    requires room { length place.old ≡ length start.now }
    requires fit { EndsFit start.now shape.now }
    requires count { count ≡ product shape.now }
    requires below { n < product shape.now }
    ensures { place.new ≡ place_at start.now shape.now n }
{
    let mut inner = count;
    let mut rest = n;
    for k in 0..start.len() {
        inner /= shape[k];
        place[k] = start[k] + rest / inner;
        rest %= inner;
    }
}
