//! Walks over elements.
ghost use Rattle.std.specs.Prelude.{◌≡◌, IfSome};
ghost use Rattle.zarr_codecs_strides.specs.Strides.{reach};

/// A walk over elements: how many steps it takes in each dimension, the last one first, and how
/// many elements a step goes on.
#[derive(Clone, Copy)]
pub struct Walk<'a> {
    pub sizes: &'a [u64],
    pub strides: &'a [u64],
}

/// How far the last element of a walk lies from its first one.
pub(crate) fn reach(walk: Walk<'_>) -> Option<u64>
    ensures { IfSome result (λ n. n ≡ reach walk.entry.sizes.now walk.entry.strides.now) }
{
    match (walk.sizes.split_first(), walk.strides.split_first()) {
        (Some((size, sizes)), Some((stride, strides))) => {
            let rest = reach(Walk { sizes, strides })?;
            let first = size.saturating_sub(1).checked_mul(*stride)?;
            first.checked_add(rest)
        }
        _ => Some(0),
    }
}
