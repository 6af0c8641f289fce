//! A source read whole.
ghost use Rattle.std.specs.Prelude.{◌≡◌, ◌≤◌, ◌+◌, ◌∷◌, [], ℕ, List, Some, IsTrue, IfOk};
ghost use Rattle.zarr_codecs_traits.specs.Sources.{ReadRefused, part_lists, refused_after, value_bytes, value_length};

use crate::byte_range::ByteRange;
use crate::byte_source::BytesPartialDecoderTraits;
use std::alloc::Global;
use zarr_codecs_arrays::CodecError;

/// The value that a source holds, or `None` where it holds none, by one reading call. `Source`
/// where the source refuses.
pub fn read_value<D: BytesPartialDecoderTraits>(
    alloc: Global,
    source: &mut D,
) -> Result<Option<Vec<u8>>, CodecError>
    ensures value { IsTrue (D.is_honest source.old) →
        IfOk result (λ found. value_bytes found ≡ D.contents source.old) }
    ensures cause { IsTrue (D.is_honest source.old) → ReadRefused result }
    ensures refused { D.refused_calls source.new ≡
        refused_after (D.refused_calls source.old) result }
    ensures given { IsTrue (D.is_honest source.old) → D.given_bytes source.new
        ≤ D.given_bytes source.old + value_length (D.contents source.old) }
    ensures follows { D.follows source.old source.new }
{
    match source.size() {
        Ok(Some(length)) => {
            let all = [ByteRange { offset: 0, length }];
            match source.partial_decode(alloc, &all) {
                Ok(found) => Ok(only_part(found)),
                Err(error) => Err(error),
            }
        }
        Ok(None) => Ok(None),
        Err(error) => Err(error),
    }
}

/// The only part.
fn only_part(found: Option<Vec<Vec<u8>>>) -> Option<Vec<u8>>
    ensures { (value : List ℕ) → part_lists found ≡ Some (value ∷ [])
        → value_bytes result ≡ Some value }
{
    let Some(mut parts) = found else {
        return None;
    };
    parts.pop()
}
