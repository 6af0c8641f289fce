//! The ranges of a value that are written where the elements of a box are replaced.
ghost use Rattle.std.specs.Prelude.{◌≡◌, ◌*◌, ◌<◌, ◌^◌, length, true, IfOk};
ghost use Rattle.zarr_grids_boxes.specs.Boxes.{product};
ghost use Rattle.zarr_grids_boxes.specs.Subsets.{region_of};
ghost use Rattle.zarr_codecs_arrays.specs.Views.{elements_of, payload_of};
ghost use Rattle.zarr_codecs_traits.specs.Arrays.{coded};
ghost use Rattle.zarr_codecs_traits.specs.PartEncoding.{EncodesPart};
ghost use Rattle.zarr_codecs_traits.specs.Patches.{patches_in};
ghost use Rattle.zarr_codecs_bytes.specs.Parts.{PatchesPart, fits_part, part_width};
ghost use Rattle.zarr_codecs_bytes.specs.Views.{bytes_chain};

use crate::bytes::BytesCodec;
use crate::lines::{box_ranges, value_size};
use crate::part::BoxPart;
use std::alloc::{AllocError, Global};
use zarr_codecs_arrays::{ArrayBytes, CodecError};
use zarr_codecs_traits::ValuePatches;
use zarr_grids_boxes::walk::count_places;

/// The ranges to be written into a value of `bytes`, so that the elements of a part are replaced by
/// others. `Size` where the array is too large, and the errors of `ArrayBytes::validate` where
/// these are not the part's elements.
pub(crate) fn replace_part(
    alloc: Global,
    codec: BytesCodec,
    bytes: ArrayBytes,
    part: BoxPart,
) -> Result<Option<ValuePatches>, CodecError>
    requires { fits_part (bytes_chain codec) part ≡ true }
    ensures { EncodesPart (coded (bytes_chain codec) (elements_of part.entry.elements.now)
        part.entry.shape.now) true (region_of part.entry.region.now) (payload_of bytes) result }
{
    let size = match value_size(part) {
        Ok(size) => size,
        Err(error) => return Err(error),
    };
    let Some(count) = count_places(part.region.shape()) else {
        return Err(CodecError::Size);
    };
    if let Err(error) = bytes.validate(part.elements.data_type(), count) {
        return Err(error);
    }
    match bytes {
        ArrayBytes::Fixed(bytes) => Ok(Some(part_patches(alloc, codec, bytes, part, size)?)),
        ArrayBytes::Variable(_bytes, _offsets) => Err(CodecError::ExpectedFixedLengthBytes),
        ArrayBytes::Optional(_inner, _mask) => Err(CodecError::ExpectedFixedLengthBytes),
    }
}

/// The ranges to be written into a value of `bytes` of this size, so that the elements of a part
/// are replaced by others, which have these bytes.
pub(crate) fn part_patches(
    alloc: Global,
    codec: BytesCodec,
    bytes: Vec<u8>,
    part: BoxPart,
    size: u64,
) -> Result<ValuePatches, AllocError>
    requires fit { fits_part (bytes_chain codec) part ≡ true }
    requires positive { 0 < part_width part }
    requires long { length bytes.items ≡ product part.region.now.shape.items * part_width part }
    requires size { size ≡ product part.shape.now * part_width part }
    requires small { size < 2 ^ 63 }
    ensures { IfOk result
        (λ patches. PatchesPart (bytes_chain codec) part.entry bytes.items (patches_in patches)) }
{
    let found = box_ranges(alloc, part, size)?;
    let ordered = codec.ordered(alloc, part.elements.data_type(), bytes)?;
    Ok(ValuePatches {
        ranges: found.ranges,
        bytes: ordered,
    })
}
