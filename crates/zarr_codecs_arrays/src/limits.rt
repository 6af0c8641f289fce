//! How many elements are too many.
ghost use Rattle.std.specs.Prelude.{◌≤◌, ◌↔◌, ℕ};
ghost use Rattle.zarr_codecs_meaning.specs.Types.{IsTooLarge};
ghost use Rattle.zarr_codecs_types.specs.Views.{type_of};

use crate::elements::Elements;
use zarr_codecs_types::DataType;

/// So many elements, or bytes of them, are too many.
const TOO_MANY: u64 = 1 << 63;

/// The least number of elements of a data type that are too many.
fn type_limit(data_type: &DataType) -> u64
    ensures { (count : ℕ) → (result ≤ count ↔ IsTooLarge (type_of data_type.now) count) }
{
    match data_type.byte_width() {
        Some(0) => TOO_MANY,
        Some(width) => TOO_MANY.div_ceil(width as u64),
        None => if data_type.is_fixed() { 1 } else { TOO_MANY },
    }
}

impl Elements {
    ghost use Rattle.std.specs.Prelude.{◌≤◌, ◌↔◌, ℕ, IsTrue};
    ghost use Rattle.zarr_codecs_meaning.specs.Types.{IsTooLarge};
    ghost use Rattle.zarr_codecs_arrays.specs.Views.{elements_of};

    /// The least number of such elements that are too many: 2^63, or as many as have 2^63 bytes.
    pub fn limit(&self) -> u64
        ensures { (count : ℕ)
            → (result ≤ count ↔ IsTooLarge (elements_of self.now).type count) }
    {
        type_limit(self.data_type())
    }

    /// Whether so many such elements are too many.
    pub fn is_too_large(&self, count: u64) -> bool
        ensures { IsTrue result ↔ IsTooLarge (elements_of self.now).type count }
    {
        self.limit() <= count
    }
}
