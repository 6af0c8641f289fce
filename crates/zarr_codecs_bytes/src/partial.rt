//! The elements of a box of an array, of what is stored of it.
ghost use Rattle.std.specs.Prelude.{◌≡◌, ◌*◌, ◌<◌, ℕ, List, None, Some, length, true, IfOk};
ghost use Rattle.zarr_grids_boxes.specs.Boxes.{product};
ghost use Rattle.zarr_grids_boxes.specs.Subsets.{region_of};
ghost use Rattle.zarr_codecs_meaning.specs.Chains.{Chain};
ghost use Rattle.zarr_codecs_meaning.specs.Types.{Cell, is_fixed};
ghost use Rattle.zarr_codecs_arrays.specs.Views.{elements_of};
ghost use Rattle.zarr_codecs_traits.specs.Sources.{refused_after};
ghost use Rattle.zarr_codecs_bytes.specs.Parts.{GivesPart, HasPart, IsExtracted, fits_part, part_width};
ghost use Rattle.zarr_codecs_bytes.specs.Views.{bytes_chain};

use crate::bytes::BytesCodec;
use crate::part::BoxPart;
use crate::sizes::byte_count;
use std::alloc::{AllocError, Global};
use zarr_codecs_arrays::{ArrayBytes, CodecError};
use zarr_grids_boxes::walk::count_places;

/// The elements of a part of an array where nothing is stored: fill values. `Size` where they would
/// have 2^63 bytes or more.
pub(crate) fn fill_part(alloc: Global, part: BoxPart) -> Result<ArrayBytes, CodecError>
    ensures part { (chain : Chain) → fits_part chain part.entry ≡ true
        → GivesPart chain None part.entry result }
    ensures no_source { (count : ℕ) → refused_after count result ≡ count }
{
    let Some(count) = count_places(part.region.shape()) else {
        return Err(CodecError::Size);
    };
    ArrayBytes::new_fill_value(alloc, part.elements, count)
}

/// The elements of a part of an array, of their bytes in a value. `Damage` where these are not as
/// many as the elements have, or one of the elements is no value.
pub(crate) fn order_elements(
    alloc: Global,
    codec: BytesCodec,
    extracted: Vec<u8>,
    part: BoxPart,
) -> Result<ArrayBytes, CodecError>
    requires { fits_part (bytes_chain codec) part ≡ true }
    ensures part { (value : List ℕ) → HasPart part.entry value extracted.items
        → GivesPart (bytes_chain codec) (Some value) part.entry result }
    ensures no_source { (count : ℕ) → refused_after count result ≡ count }
{
    let Some(count) = count_places(part.region.shape()) else {
        return Err(CodecError::Size);
    };
    let data_type = part.elements.data_type();
    match byte_count(data_type, count) {
        Ok(length) => if extracted.len() as u64 != length {
            return Err(CodecError::Damage);
        },
        Err(error) => return Err(error),
    }
    let bytes = ArrayBytes::Fixed(codec.ordered(alloc, data_type, extracted)?);
    match bytes.validate(data_type, count) {
        Ok(()) => Ok(bytes),
        Err(_) => Err(CodecError::Damage),
    }
}
