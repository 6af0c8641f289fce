//! The elements of a box of an array, of a source that is read in part.
ghost use Rattle.std.specs.Prelude.{◌≡◌, ◌≤◌, ◌+◌, Some, true, length, option_map, IsTrue};
ghost use Rattle.zarr_codecs_traits.specs.Sources.{refused_after};
ghost use Rattle.zarr_codecs_bytes.specs.Parts.{GivesPart, fits_part, most_of_part};
ghost use Rattle.zarr_codecs_bytes.specs.Views.{bytes_chain};

use crate::bytes::BytesCodec;
use crate::fetching::fetch_ranges;
use crate::lines::{box_ranges, value_size};
use crate::part::BoxPart;
use crate::partial::{fill_part, order_elements};
use std::alloc::Global;
use zarr_codecs_arrays::{ArrayBytes, CodecError};
use zarr_codecs_traits::BytesPartialDecoderTraits;

/// The elements of a part of an array, of the value of `bytes` that a source holds. It is asked for
/// the part's bytes alone. `Damage` where the value has another length, or one of the elements of
/// the part is no value; `Size` where the array is too large; `Source` where the source refuses.
pub(crate) fn read_part<D: BytesPartialDecoderTraits>(
    alloc: Global,
    source: &mut D,
    codec: BytesCodec,
    part: BoxPart,
) -> Result<ArrayBytes, CodecError>
    requires { fits_part (bytes_chain codec) part ≡ true }
    ensures part { IsTrue (D.is_honest source.old) →
        GivesPart (bytes_chain codec) (D.contents source.old) part.entry result }
    ensures refused { D.refused_calls source.new ≡
        refused_after (D.refused_calls source.old) result }
    ensures given { IsTrue (D.is_honest source.old) → D.given_bytes source.new
        ≤ D.given_bytes source.old
        + most_of_part (bytes_chain codec) (D.contents source.old) part.entry }
    ensures follows { D.follows source.old source.new }
{
    match source.size() {
        Ok(Some(total)) => read_sized(alloc, source, codec, part, total),
        Ok(None) => fill_part(alloc, part),
        Err(error) => Err(error),
    }
}

/// The elements of a part of an array, of a value of so many bytes.
fn read_sized<D: BytesPartialDecoderTraits>(
    alloc: Global,
    source: &mut D,
    codec: BytesCodec,
    part: BoxPart,
    total: u64,
) -> Result<ArrayBytes, CodecError>
    requires fit { fits_part (bytes_chain codec) part ≡ true }
    requires sized { IsTrue (D.is_honest source.old) →
        Some total ≡ option_map length (D.contents source.old) }
    ensures part { IsTrue (D.is_honest source.old) →
        GivesPart (bytes_chain codec) (D.contents source.old) part.entry result }
    ensures refused { D.refused_calls source.new ≡
        refused_after (D.refused_calls source.old) result }
    ensures given { IsTrue (D.is_honest source.old) → D.given_bytes source.new
        ≤ D.given_bytes source.old
        + most_of_part (bytes_chain codec) (D.contents source.old) part.entry }
    ensures follows { D.follows source.old source.new }
{
    let size = match value_size(part) {
        Ok(size) => size,
        Err(error) => return Err(error),
    };
    if total != size {
        return Err(CodecError::Damage);
    }
    let found = box_ranges(alloc, part, size)?;
    match fetch_ranges(alloc, source, found.ranges.as_slice()) {
        Ok(Some(bytes)) => order_elements(alloc, codec, bytes, part),
        Ok(None) => fill_part(alloc, part),
        Err(error) => Err(error),
    }
}
