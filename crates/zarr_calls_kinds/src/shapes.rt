//! Shapes that codecs between arrays give.
use anyhow::Result;
use std::alloc::Global;
use zarr_calls_grids::words::{cut, metadata_in, numbers, numbers_in, refused, word};
use zarr_codecs_array_to_array::ArrayToArrayCodec;
use zarr_codecs_traits::ArrayToArrayCodecTraits;

/// What a call of a codec between arrays gives.
pub(crate) fn answer(alloc: Global, name: &str, rest: &str) -> Option<Result<String>> {
    match name {
        "shape" => Some(new_shape(alloc, rest)),
        "shape_before" => Some(old_shape(alloc, rest)),
        _ => None,
    }
}

/// The shape that a codec between arrays gives arrays of a shape, and whether it fits them.
fn new_shape(alloc: Global, rest: &str) -> Result<String> {
    let (codec, shape) = cut(rest)?;
    let shape = numbers_in(alloc, shape)?;
    let metadata = metadata_in(alloc, codec)?;
    match ArrayToArrayCodec::from_metadata(alloc, &metadata) {
        Ok(codec) => encoded_shape(alloc, &codec, shape.as_slice()),
        Err(error) => refused(alloc, &error),
    }
}

/// The shape that a codec between arrays gives another one to.
fn old_shape(alloc: Global, rest: &str) -> Result<String> {
    let (codec, shape) = cut(rest)?;
    let shape = numbers_in(alloc, shape)?;
    let metadata = metadata_in(alloc, codec)?;
    match ArrayToArrayCodec::from_metadata(alloc, &metadata) {
        Ok(codec) => decoded_shape(alloc, &codec, shape.as_slice()),
        Err(error) => refused(alloc, &error),
    }
}

fn decoded_shape(alloc: Global, codec: &ArrayToArrayCodec, shape: &[u64]) -> Result<String> {
    match codec.decoded_shape(alloc, shape) {
        Ok(Some(decoded)) => numbers(alloc, decoded.as_slice()),
        Ok(None) => word(alloc, "none"),
        Err(error) => refused(alloc, &error),
    }
}

fn encoded_shape(alloc: Global, codec: &ArrayToArrayCodec, shape: &[u64]) -> Result<String> {
    let fits = codec.fits(shape);
    match codec.encoded_shape(alloc, shape) {
        Ok(made) if fits => numbers(alloc, made.as_slice()),
        Ok(_) => anyhow::bail!("a codec gives a shape that it does not fit"),
        Err(_) if fits => anyhow::bail!("a codec refuses a shape that it fits"),
        Err(error) => refused(alloc, &error),
    }
}
