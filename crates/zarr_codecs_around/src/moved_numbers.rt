//! Numbers of an array's places, as array to array codecs move them.
ghost use Rattle.std.specs.Prelude.{◌≡◌, ◌∷◌, ◌^◌, ◌<◌};
ghost use Rattle.zarr_grids_boxes.specs.Boxes.{product};
ghost use Rattle.zarr_codecs_array_to_array.specs.Views.{codec_of};
ghost use Rattle.zarr_codecs_around.specs.MovedNumbers.{MovesNumbers};
ghost use Rattle.zarr_codecs_around.specs.Views.{codecs_of};

use std::alloc::Global;
use zarr_codecs_array_to_array::ArrayToArrayCodec;
use zarr_codecs_arrays::CodecError;
use zarr_codecs_bytes::part::ListedPart;
use zarr_codecs_traits::ArrayToArrayCodecTraits;

/// The shape of an array after array codecs, and the numbers that some of its places have there.
#[derive(Drop)]
pub(crate) struct MovedNumbers {
    pub shape: Vec<u64>,
    pub numbers: Vec<u64>,
}

/// Where array codecs, of which there is at least one, move places with some numbers. `Fit` where
/// one doesn't suit the shape that reaches it.
pub(crate) fn move_numbers(
    alloc: Global,
    first: &ArrayToArrayCodec,
    others: &[ArrayToArrayCodec],
    part: ListedPart<'_>,
) -> Result<MovedNumbers, CodecError>
    requires { product part.shape.now < 2 ^ 63 }
    ensures { MovesNumbers (codec_of first.now ∷ codecs_of others.now) part.entry.shape.now
        part.entry.numbers.now result }
{
    let mut shape = match first.encoded_shape(alloc, part.shape) {
        Ok(encoded) => encoded,
        Err(error) => return Err(error),
    };
    let mut numbers = first.encoded_numbers(alloc, part.shape, part.numbers)?;
    for codec in others {
        let encoded = match codec.encoded_shape(alloc, shape.as_slice()) {
            Ok(encoded) => encoded,
            Err(error) => return Err(error),
        };
        numbers = codec.encoded_numbers(alloc, shape.as_slice(), numbers.as_slice())?;
        shape = encoded;
    }
    Ok(MovedNumbers { shape, numbers })
}
