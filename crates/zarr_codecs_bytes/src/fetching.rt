//! The bytes in ranges of the value that a source holds.
ghost use Rattle.std.specs.Prelude.{◌≡◌, ◌≤◌, ◌+◌, ℕ, List, Some, false, length, IsTrue, IfOk};
ghost use Rattle.std.specs.List.{list_any};
ghost use Rattle.zarr_codecs_traits.specs.Sources.{ReadRefused, bytes_in_ranges, ends_past, refused_after, value_bytes};

use std::alloc::Global;
use zarr_codecs_arrays::CodecError;
use zarr_codecs_traits::{ByteRange, BytesPartialDecoderTraits};

/// The bytes of the value in each of the ranges, one after another, by one reading call, or `None`
/// where there is no value. `Source` where the source refuses.
pub(crate) fn fetch_ranges<D: BytesPartialDecoderTraits>(
    alloc: Global,
    source: &mut D,
    ranges: &[ByteRange],
) -> Result<Option<Vec<u8>>, CodecError>
    ensures bytes { IsTrue (D.is_honest source.old) → (value : List ℕ)
        → D.contents source.old ≡ Some value
        → IfOk result (λ found. value_bytes found ≡ Some (bytes_in_ranges value ranges.now)) }
    ensures cause { IsTrue (D.is_honest source.old) → (value : List ℕ)
        → D.contents source.old ≡ Some value → list_any (ends_past value) ranges.now ≡ false
        → ReadRefused result }
    ensures refused { D.refused_calls source.new ≡
        refused_after (D.refused_calls source.old) result }
    ensures given { IsTrue (D.is_honest source.old) → (value : List ℕ)
        → D.contents source.old ≡ Some value → D.given_bytes source.new
        ≤ D.given_bytes source.old + length (bytes_in_ranges value ranges.now) }
    ensures follows { D.follows source.old source.new }
{
    source.partial_decode_concat(alloc, ranges)
}
